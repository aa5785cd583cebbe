use super::{number_at, numbers, size_at};
use anyhow::Result;
use px_io::read_up_to;
use std::alloc::Global;
use std::io;
use std::io::{ErrorKind, Read};

/// How many sevens a reader has.
const SEVENS: usize = 3_000;

// A reader of sevens that gives at most `most` in a read, and fails at the read with this number.
#[derive(Drop)]
struct Sevens {
    left: usize,
    most: usize,
    reads: u64,
    failing: u64,
}

impl Read for Sevens {
    fn read(&mut self, buf: &mut [u8]) -> io::Result<usize> {
        if self.reads == self.failing {
            return Err(io::Error::from(ErrorKind::Other));
        }
        self.reads = self.reads.saturating_add(1);
        let count = self.left.min(self.most).min(buf.len());
        buf[..count].fill(7);
        self.left -= count;
        Ok(count)
    }
}

/// How many bytes are read of 3,000 sevens, or why none are. The numbers are those of the most in a read, of the read that
/// fails, and of the limit.
pub fn reader_case(alloc: Global, text: &str) -> Result<String> {
    let asked = numbers(alloc, text)?;
    let mut source = Sevens {
        left: SEVENS,
        most: size_at(&asked, 0)?,
        reads: 0,
        failing: number_at(&asked, 1)?,
    };
    match read_up_to(alloc, &mut source, number_at(&asked, 2)?) {
        Ok(bytes) => Ok(format!(in alloc; "{} bytes", bytes.len())?),
        Err(fault) => Ok(format!(in alloc; "{fault:?}")?),
    }
}

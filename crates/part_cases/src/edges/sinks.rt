use super::{numbers, put_next, size_at};
use anyhow::{Context, Result, bail};
use case_texts::{BETWEEN, expanded};
use px_io::{ByteSink, Sink, StreamSink, write_all};
use std::alloc::Global;
use std::fmt::Write as _;
use std::io::Write;
use std::{io, str};

// A stream that takes one byte in a write, until it is full.
#[derive(Drop)]
struct OneByOne {
    bytes: Vec<u8>,
    most: usize,
}

impl Write for OneByOne {
    fn write(&mut self, buf: &[u8]) -> io::Result<usize> {
        if buf.is_empty() || self.bytes.len() >= self.most {
            return Ok(0);
        }
        self.bytes.push(buf[0])?;
        Ok(1)
    }

    fn flush(&mut self) -> io::Result<()> {
        Ok(())
    }
}

/// How a text is written to a stream that takes so many bytes, one in a write, and what it took.
pub fn stream_case(alloc: Global, case: &str) -> Result<String> {
    let (most, text) = case.split_once(' ').context("no text")?;
    let mut stream = OneByOne {
        bytes: Vec::new(alloc),
        most: most.parse()?,
    };
    let mut sink = StreamSink::new(&mut stream);
    let outcome = write_all(&mut sink, text.as_bytes());
    let faults = sink.faults();
    let taken = str::from_utf8(&stream.bytes)?;
    Ok(format!(in alloc; "{outcome:?}, {faults} faults: {taken}")?)
}

/// How texts, in the short form and with `\;` between them, are written to a sink in memory, one after another; and how many
/// bytes it has, and how many faults. The numbers are those of its room, of the most in a write, and of the write that fails.
pub fn sink_case(alloc: Global, case: &str) -> Result<String> {
    let (asked, texts) = case.split_once(": ").context("no texts")?;
    let asked = numbers(alloc, asked)?;
    let mut sink = sink_of(alloc, &asked)?;
    let mut written = String::new(alloc);
    let mut out = String::new(alloc);
    let texts = expanded(alloc, texts)?;
    for text in texts.split(BETWEEN) {
        written.push_str(text)?;
        let outcome = write_all(&mut sink, text.as_bytes());
        let count = count_of(&sink, &written)?;
        put_next(&mut out)?;
        write!(out, "{outcome:?} {count} bytes {} faults", sink.faults())?;
    }
    Ok(out)
}

// Room, the most in a write, and the writes that fail.
fn sink_of(alloc: Global, asked: &[u64]) -> Result<ByteSink> {
    let failing = asked.get(2..).context("no most")?;
    Ok(ByteSink::new(
        alloc,
        size_at(asked, 0)?,
        size_at(asked, 1)?,
        Vec::from_slice(alloc, failing)?,
    )?)
}

// How many bytes a sink has, which are the first of those that were written to it.
fn count_of(sink: &ByteSink, written: &str) -> Result<usize> {
    let taken = sink.bytes();
    if !written.as_bytes().starts_with(taken) {
        bail!("other bytes");
    }
    Ok(taken.len())
}

use anyhow::Result;
use px_io::words;
use std::alloc::Global;
use std::env;
use std::env::{Env, FillError};
use std::fmt::Write;

/// A byte that no UTF-8 has: a `?` in a case.
const NO_TEXT: u8 = 255;

// A system that gives these words.
#[derive(Drop)]
struct System {
    words: Vec<Vec<u8>>,
}

impl Env for System {
    fn arg(&self, i: usize, buf: &mut [u8]) -> Result<usize, FillError> {
        if i >= self.words.len() {
            return Err(FillError::NotPresent);
        }
        let word = self.words[i].as_slice();
        if word.len() > buf.len() {
            return Err(FillError::TooLong);
        }
        buf[..word.len()].copy_from_slice(word);
        Ok(word.len())
    }

    fn var(&self, _name: &str, _buf: &mut [u8]) -> Result<usize, FillError> {
        Err(FillError::NotPresent)
    }

    fn var_at(&self, _i: usize, _buf: &mut [u8]) -> Result<usize, FillError> {
        Err(FillError::NotPresent)
    }
}

/// The words behind the first of those that a system gives, or why they are none.
pub fn system_case(alloc: Global, text: &str) -> Result<String> {
    let mut all = Vec::new(alloc);
    for word in text.split(' ') {
        all.push(bytes_of(alloc, word)?)?;
    }
    let system = System { words: all };
    match words(alloc, env::args(&(system, alloc))) {
        Ok(given) => listed(alloc, &given),
        Err(fault) => Ok(format!(in alloc; "{fault:?}")?),
    }
}

fn bytes_of(alloc: Global, word: &str) -> Result<Vec<u8>> {
    let mut bytes = Vec::new(alloc);
    for &byte in word.as_bytes() {
        bytes.push(if byte == b'?' { NO_TEXT } else { byte })?;
    }
    Ok(bytes)
}

fn listed(alloc: Global, given: &[String]) -> Result<String> {
    let mut out = format!(in alloc; "{}:", given.len())?;
    for word in given {
        write!(out, " {word}")?;
    }
    Ok(out)
}

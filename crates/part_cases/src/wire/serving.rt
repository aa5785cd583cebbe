use super::bytes::write_bytes;
use super::changes::{CHANGES, changed};
use anyhow::Result;
use px_io::{ByteSink, ByteSource};
use px_worker::{ServeFault, serve};
use std::alloc::Global;
use std::fmt::Write;
use std::sync::Wait;

/// How many bytes a source gives in a call, and a sink takes.
const AT_ONCE: usize = 16;

/// How many bytes a sink has room for.
const ROOM: usize = 10_000;

/// How many calls of a read or a write are tried.
const MOST_CALLS: u64 = 1_000;

/// How a worker ended, and what it wrote.
#[derive(Drop)]
struct Served {
    outcome: Result<(), ServeFault>,
    written: Vec<u8>,
}

// What a worker does with these bytes, where the reads and the writes of these numbers fail.
fn run_worker<R: Wait>(
    rt: &R,
    alloc: Global,
    bytes: &[u8],
    reads: Vec<u64>,
    writes: Vec<u64>,
) -> Result<Served> {
    let mut source = ByteSource::new(Vec::from_slice(alloc, bytes)?, AT_ONCE, reads);
    let mut sink = ByteSink::new(alloc, ROOM, AT_ONCE, writes)?;
    let outcome = serve(rt, alloc, &mut source, &mut sink, &mut Vec::new(alloc));
    Ok(Served {
        outcome,
        written: Vec::from_slice(alloc, sink.bytes())?,
    })
}

fn outcome(alloc: Global, served: &Served) -> Result<String> {
    Ok(match served.outcome {
        Ok(()) => String::from_str(alloc, "all is answered")?,
        Err(fault) => format!(in alloc; "{fault}")?,
    })
}

fn outcome_and_length(alloc: Global, served: &Served) -> Result<String> {
    let outcome = outcome(alloc, served)?;
    Ok(format!(in alloc; "{outcome}, {} bytes", served.written.len())?)
}

/// How a worker ends, and the bytes that it writes.
pub fn worker<R: Wait>(rt: &R, alloc: Global, bytes: &[u8]) -> Result<String> {
    let served = run_worker(rt, alloc, bytes, Vec::new(alloc), Vec::new(alloc))?;
    let mut text = outcome(alloc, &served)?;
    text.push('\n')?;
    write_bytes(&mut text, &served.written)?;
    Ok(text)
}

/// Outcomes one after another, equal ones together.
#[derive(Drop)]
struct Runs {
    text: String,
    said: String,
    from: u64,
    next: u64,
}

impl Runs {
    fn new(alloc: Global) -> Runs {
        Runs {
            text: String::new(alloc),
            said: String::new(alloc),
            from: 0,
            next: 0,
        }
    }

    // Takes the next outcome.
    fn take(&mut self, said: String) -> Result<()> {
        if said != self.said {
            self.close()?;
            self.said = said;
            self.from = self.next;
        }
        self.next = self.next.saturating_add(1);
        Ok(())
    }

    fn close(&mut self) -> Result<()> {
        if self.from < self.next {
            let last = self.next.saturating_sub(1);
            write!(self.text, "\n{} to {last}: {}", self.from, self.said)?;
        }
        Ok(())
    }
}

/// How a worker ends on each beginning of the bytes, the shortest first.
pub fn beginnings<R: Wait>(rt: &R, alloc: Global, bytes: &[u8]) -> Result<String> {
    let mut runs = Runs::new(alloc);
    for length in 0..bytes.len() {
        let beginning = bytes.get(..length).unwrap_or(bytes);
        let served = run_worker(rt, alloc, beginning, Vec::new(alloc), Vec::new(alloc))?;
        runs.take(outcome_and_length(alloc, &served)?)?;
    }
    runs.close()?;
    Ok(runs.text)
}

/// How a worker ends on the frame of a request and, after it, the same with one byte changed: each change of each byte in order.
pub fn changes<R: Wait>(rt: &R, alloc: Global, frame: &[u8]) -> Result<String> {
    let mut runs = Runs::new(alloc);
    for place in 0..frame.len() {
        for change in CHANGES {
            let changed = changed(alloc, frame, place, change)?;
            runs.take(outcome_after(rt, alloc, frame, &changed)?)?;
        }
    }
    runs.close()?;
    Ok(runs.text)
}

// How a worker ends on a frame with another after it.
fn outcome_after<R: Wait>(rt: &R, alloc: Global, frame: &[u8], other: &[u8]) -> Result<String> {
    let mut both = Vec::from_slice(alloc, frame)?;
    both.extend_from_slice(other)?;
    let served = run_worker(rt, alloc, &both, Vec::new(alloc), Vec::new(alloc))?;
    outcome(alloc, &served)
}

/// The calls of which one fails.
#[derive(Clone, Copy)]
pub enum Fails {
    Read,
    Write,
}

/// How a worker ends where one such call fails: the first, the second, and so on, until none does.
pub fn failing<R: Wait>(rt: &R, alloc: Global, bytes: &[u8], fails: Fails) -> Result<String> {
    let mut runs = Runs::new(alloc);
    for call in 0..MOST_CALLS {
        let mut failing = Vec::new(alloc);
        failing.push(call)?;
        let (reads, writes) = match fails {
            Fails::Read => (failing, Vec::new(alloc)),
            Fails::Write => (Vec::new(alloc), failing),
        };
        let served = run_worker(rt, alloc, bytes, reads, writes)?;
        runs.take(outcome_and_length(alloc, &served)?)?;
        if let Ok(()) = served.outcome {
            break;
        }
    }
    runs.close()?;
    Ok(runs.text)
}

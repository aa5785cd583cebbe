use crate::asked::Asked;
use crate::exchanges::{Outcome, exchanged, is_closed_after, said};
use anyhow::{Result, bail};
use px_base::MOST_PARAMETERS;
use px_callgraph::Job;
use px_entry::Table;
use px_explore::analyse;
use px_frames::frame;
use px_honest::HonestLink;
use px_io::{Sink, Source};
use px_pool::new_links_are_in_step;
use px_terms::ByValue;
use px_wire::SHARED;
use px_worker::serve;
use std::alloc::Global;
use std::sync::Wait;

// The table of a job.
fn table_of(alloc: Global, job: &Job) -> Result<Table> {
    if !job.kinds.is_empty() || job.body.parameters.len() > MOST_PARAMETERS {
        bail!("domains, or too many parameters");
    }
    Ok(analyse(alloc, job, &mut Vec::new(alloc))?.table)
}

/// Up to which version a worker in place knows them, as a case says it: 2, where it says nothing.
pub fn known_by(word: &str) -> Result<u8> {
    if word.is_empty() {
        return Ok(SHARED);
    }
    Ok(word.parse()?)
}

// What an exchange gives over a link to a worker without domains, which knows the versions up to one and dies after so many bytes.
fn outcome<R: Wait>(
    rt: &R,
    alloc: Global,
    asked: &Asked,
    known: u8,
    dies_at: Option<u64>,
) -> Result<Outcome> {
    let job = asked.job()?;
    let mut link = HonestLink::new(alloc, Vec::new(alloc), known, dies_at)?;
    new_links_are_in_step();
    exchanged(rt, alloc, &mut link, &job, asked.version())
}

/// Serves as a worker without domains, over the program's own streams.
pub fn serve_streams<R: Wait, I: Source, K: Sink>(
    rt: &R,
    alloc: Global,
    input: &mut I,
    out: &mut K,
) -> Result<()> {
    match serve(rt, alloc, input, out, &mut Vec::new(alloc)) {
        Ok(()) => Ok(()),
        Err(_) => bail!("the worker stopped"),
    }
}

/// What is printed of an outcome: whether a table is that of the job, too.
pub fn compared(alloc: Global, outcome: &Outcome, job: &Job) -> Result<String> {
    let mut text = said(alloc, outcome)?;
    if let Ok(table) = outcome {
        let same = table.equals(&table_of(alloc, job)?);
        text.push_str(if same {
            ", that of the job"
        } else {
            ", another one"
        })?;
    }
    Ok(text)
}

/// `worker`, and up to which version it knows them: what a worker in place gives.
pub fn worker<R: Wait>(rt: &R, alloc: Global, asked: &Asked, known: u8) -> Result<String> {
    let outcome = outcome(rt, alloc, asked, known, None)?;
    compared(alloc, &outcome, &asked.job()?)
}

/// `worker-dies`, and that version: over how many links that die after a byte of the reply's frame the exchange finds them closed after it, and
/// what it finds over one that dies after the frame.
pub fn dies<R: Wait>(rt: &R, alloc: Global, asked: &Asked, known: u8) -> Result<String> {
    let length = frame(alloc, asked.reply())?.len() as u64;
    let mut closed = 0u64;
    for dies_at in 0..length {
        let outcome = outcome(rt, alloc, asked, known, Some(dies_at))?;
        if is_closed_after(&outcome, dies_at) {
            closed = closed.saturating_add(1);
        }
    }
    let behind = outcome(rt, alloc, asked, known, Some(length))?;
    let behind = compared(alloc, &behind, &asked.job()?)?;
    Ok(format!(in alloc; "{closed} of {length} closed behind them; {behind}")?)
}

/// `worker-twice`, and that version: what a worker in place gives, and what it gives when it is asked again.
pub fn twice<R: Wait>(rt: &R, alloc: Global, asked: &Asked, known: u8) -> Result<String> {
    let job = asked.job()?;
    let version = asked.version();
    let mut link = HonestLink::new(alloc, Vec::new(alloc), known, None)?;
    new_links_are_in_step();
    let first = exchanged(rt, alloc, &mut link, &job, version)?;
    let said = compared(alloc, &first, &job)?;
    if first.is_err() {
        return Ok(said);
    }
    let second = exchanged(rt, alloc, &mut link, &job, version)?;
    let second = compared(alloc, &second, &job)?;
    Ok(format!(in alloc; "{said}; {second}")?)
}

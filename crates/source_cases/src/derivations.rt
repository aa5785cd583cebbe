use crate::changes::changed;
use crate::programs::typed;
use anyhow::{Context, Result, bail};
use px_base::{Limits, MOST_PARAMETERS, ProcId};
use px_callgraph::{Callee, Job};
use px_check::{CheckFault, check};
use px_entry::{Derivation, Entry, Table};
use px_explore::{Analysis, analyse};
use px_lower::lower;
use px_syntax::Program;
use px_terms::Items;
use std::alloc::Global;

/// What a check says of an entry of a function of a text and its steps, when a change was made. Before a `|` and the text stand
/// the number of an entry of the first function, or `F.E` for the entry E of the function F, and a change as `changes` reads it.
/// What a function calls stands before it.
pub fn derivation_case(alloc: Global, text: &str) -> Result<String> {
    let (asked, source) = text.split_once('|').context("no text")?;
    let words = words_of(alloc, asked)?;
    let said = checked(alloc, source, &words)?;
    Ok(format!(in alloc; "{}: {said}", asked.trim())?)
}

fn words_of(alloc: Global, text: &str) -> Result<Vec<&str>> {
    let mut words = Vec::new(alloc);
    for word in text.split(' ') {
        if !word.is_empty() {
            words.push(word)?;
        }
    }
    Ok(words)
}

fn checked(alloc: Global, source: &str, words: &[&str]) -> Result<String> {
    let program = typed(alloc, &[source])??;
    let asked = asked(words)?;
    let callees = callees(alloc, &program, asked.proc)?;
    let job = job(alloc, &program, ProcId(asked.proc), callees)?;
    said(alloc, &job, asked.entry, words)
}

// The tables of so many functions, each from those before it.
fn callees(alloc: Global, program: &Program, count: u32) -> Result<Items<(ProcId, Callee)>> {
    let mut callees = Items::new(alloc);
    for number in 0..count {
        callees = with_table(alloc, program, ProcId(number), callees)?;
    }
    Ok(callees)
}

fn with_table(
    alloc: Global,
    program: &Program,
    proc: ProcId,
    callees: Items<(ProcId, Callee)>,
) -> Result<Items<(ProcId, Callee)>> {
    let job = job(alloc, program, proc, callees)?;
    let Analysis { table, .. } = analysed(alloc, &job)?;
    let Job { mut callees, .. } = job;
    callees.push((proc, Callee::Table(table)))?;
    Ok(callees)
}

// The number of a function, and that of an entry in its table.
#[derive(Clone, Copy)]
struct Question {
    proc: u32,
    entry: usize,
}

// What the first word names: an entry of the first function, or, after the number of a function and a dot, one of that.
fn asked(words: &[&str]) -> Result<Question> {
    let word = words.first().copied().context("no number")?;
    match word.split_once('.') {
        Some((proc, entry)) => Ok(Question {
            proc: proc.parse()?,
            entry: entry.parse()?,
        }),
        None => Ok(Question {
            proc: 0,
            entry: word.parse()?,
        }),
    }
}

/// The job of a function, without domains, from what is known of those that it may call.
pub fn job(
    alloc: Global,
    program: &Program,
    proc: ProcId,
    callees: Items<(ProcId, Callee)>,
) -> Result<Job> {
    if proc.0 as usize >= program.procedures.len() {
        bail!("no such function");
    }
    Ok(Job {
        proc,
        body: lower(alloc, program, proc)?,
        types: program.types.copy(alloc)?,
        callees,
        limits: Limits::new(3, 64, 10_000)?,
        kinds: Items::new(alloc),
        ticket: 0,
    })
}

fn analysed(alloc: Global, job: &Job) -> Result<Analysis> {
    if !job.kinds.is_empty() || job.body.parameters.len() > MOST_PARAMETERS {
        bail!("domains, or too many parameters");
    }
    Ok(analyse(alloc, job, &mut Vec::new(alloc))?)
}

fn said(alloc: Global, job: &Job, entry: usize, words: &[&str]) -> Result<String> {
    let (entry, derivation) = changed_entry(alloc, analysed(alloc, job)?, entry, words)?;
    match check(alloc, job, entry, &derivation) {
        Ok(_) => Ok(String::from_str(alloc, "checked")?),
        Err(CheckFault::Refused { step, rule, .. }) => {
            Ok(format!(in alloc; "refused at {step}, {rule:?}")?)
        }
        Err(CheckFault::NoMemory) => bail!("no memory"),
    }
}

// The entry with this number, with its steps or, after `other`, those of another one; and then the change.
fn changed_entry(
    alloc: Global,
    analysis: Analysis,
    number: usize,
    words: &[&str],
) -> Result<(Entry, Derivation)> {
    let change = words.get(1).copied().context("no change")?;
    let from = if change == "other" {
        words.get(2).context("no number")?.parse()?
    } else {
        number
    };
    let Analysis { table, derivations } = analysis;
    let Table { entries, .. } = table;
    let entry = taken(entries, number)?;
    let derivation = taken(derivations, from)?;
    changed(alloc, entry, derivation, words)
}

fn taken<T: Drop>(items: Items<T>, number: usize) -> Result<T> {
    let mut all = items.into_vec();
    for _ in number..all.len().saturating_sub(1) {
        let _ = all.pop();
    }
    if all.len() <= number {
        bail!("no such entry");
    }
    all.pop().context("no such entry")
}

use anyhow::{Result, bail};
use px_base::{Limits, MOST_PARAMETERS, Mark, ProcId};
use px_callgraph::{Callee, Job};
use px_check::{CheckFault, Checked, check};
use px_entry::{Cause, Derivation, Entry, Exit, Gap, Table};
use px_explore::{Analysis, analyse};
use px_lower::lower;
use px_pieces::{Findings, Part};
use px_syntax::Program;
use px_terms::{ByValue, Items};
use px_text_report::{report_on, report_text};
use std::alloc::Global;
use std::fmt::Write;
use std::str;

/// For each function its name's number, a line for each entry, and one for each drop, each with its marks.
pub fn tables(alloc: Global, program: &Program) -> Result<String> {
    let mut out = String::new(alloc);
    let mut callees = Items::new(alloc);
    for number in 0..program.procedures.len() {
        let proc = ProcId(u32::try_from(number)?);
        let job = job(alloc, program, proc, callees)?;
        let table = analysed(alloc, &job)?.table;
        write!(out, "{number}\n")?;
        write_table(&table, &mut out)?;
        let Job { callees: known, .. } = job;
        callees = known;
        callees.push((proc, Callee::Table(table)))?;
    }
    Ok(out)
}

// The job of a function, without domains, from the tables of those before it.
fn job(
    alloc: Global,
    program: &Program,
    proc: ProcId,
    callees: Items<(ProcId, Callee)>,
) -> Result<Job> {
    if proc.0 as usize >= program.procedures.len() {
        bail!("no such function");
    }
    Ok(Job {
        proc,
        body: lower(alloc, program, proc)?,
        types: program.types.copy(alloc)?,
        callees,
        limits: Limits::new(3, 64, 10_000)?,
        kinds: Items::new(alloc),
        ticket: 0,
    })
}

fn analysed(alloc: Global, job: &Job) -> Result<Analysis> {
    if !job.kinds.is_empty() || job.body.parameters.len() > MOST_PARAMETERS {
        bail!("domains, or too many parameters");
    }
    Ok(analyse(alloc, job, &mut Vec::new(alloc))?)
}

fn write_table(table: &Table, out: &mut String) -> Result<()> {
    for entry in table.entries.as_slice() {
        match entry.exit {
            Exit::Ok => write!(out, "  ok:")?,
            Exit::Error(kind, site) => write!(out, "  {kind:?} @{}:", site.column)?,
        }
        write_marks(entry.trace.as_slice(), out)?;
    }
    for gap in table.drops.as_slice() {
        write_cause(gap, out)?;
        write_marks(gap.trace.as_slice(), out)?;
    }
    Ok(())
}

fn write_cause(gap: &Gap, out: &mut String) -> Result<()> {
    match &gap.cause {
        Cause::Outside(word) => write!(out, "  drop outside {word}:")?,
        Cause::Dropped(proc) => write!(out, "  drop of {}:", proc.0)?,
        Cause::Unknown(proc) => write!(out, "  drop unknown {}:", proc.0)?,
        Cause::Long(kind) => write!(out, "  drop {kind:?}:")?,
        _ => bail!("a drop that no case has"),
    }
    Ok(())
}

// Marks with their columns, and the end of the line.
fn write_marks(marks: &[Mark], out: &mut String) -> Result<()> {
    for mark in marks {
        write!(out, " {:?}@{}", mark.kind, mark.site.column)?;
    }
    write!(out, "\n")?;
    Ok(())
}

/// The report on a program, as a text.
pub fn report(alloc: Global, program: &Program) -> Result<String> {
    let mut parts = Items::new(alloc);
    let mut callees = Items::new(alloc);
    for number in 0..program.procedures.len() {
        let proc = ProcId(u32::try_from(number)?);
        let job = job(alloc, program, proc, callees)?;
        let Analysis { table, derivations } = analysed(alloc, &job)?;
        parts.push(part(alloc, &job, &table, derivations.as_slice())?)?;
        let Job { callees: known, .. } = job;
        callees = known;
        callees.push((proc, Callee::Table(table)))?;
    }
    let findings = Findings::new(parts, Items::new(alloc));
    if findings.parts().len() != program.procedures.len() {
        bail!("another number of parts");
    }
    let report = report_on(alloc, program, &findings)?;
    let text = report_text(alloc, program, &report)?;
    Ok(String::from_str(alloc, str::from_utf8(&text)?)?)
}

fn part(alloc: Global, job: &Job, table: &Table, derivations: &[Derivation]) -> Result<Part> {
    let mut checked = Items::new(alloc);
    for (entry, derivation) in table.entries.as_slice().iter().zip(derivations.iter()) {
        checked.push(checked_entry(alloc, job, entry.copy_in(alloc)?, derivation)?)?;
    }
    Ok(Part::Tabled {
        checked,
        drops: table.drops.copy(alloc)?,
    })
}

fn checked_entry(
    alloc: Global,
    job: &Job,
    entry: Entry,
    derivation: &Derivation,
) -> Result<Checked> {
    match check(alloc, job, entry, derivation) {
        Ok(checked) => Ok(checked),
        Err(CheckFault::Refused { .. }) => bail!("an entry is refused"),
        Err(CheckFault::NoMemory) => bail!("no memory"),
    }
}

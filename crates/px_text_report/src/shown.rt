ghost use Rattle.std.specs.Prelude.{◌≡◌, ◌++◌, not, map, flat_map, option_to_list, IfOk, OnOk};
ghost use Rattle.std.specs.List.{list_any};
ghost use Rattle.px_check.specs.Answers.{entry_of};
ghost use Rattle.px_text_report.specs.Known.{known_of, known};
ghost use Rattle.px_text_report.specs.Firsts.{others};
ghost use Rattle.px_text_report.specs.Calls as calls;
ghost use Rattle.px_text_report.specs.Faults as errors;
ghost use Rattle.px_text_report.specs.Bugs as spec;

use crate::faults::{Fault, all_faults, fault_of, has_fault, is_same_fault};
use px_base::{Kind, Mark, MarkKind, ProcId, Site};
use px_check::Checked;
use px_entry::Entry;
use px_pieces::{Findings, Part};
use px_terms::{Items, NoMemory};
use std::alloc::Global;

/// A memory error of a procedure, and the trace of an execution that comes to it.
#[derive(Drop)]
pub struct Bug {
    pub proc: ProcId,
    pub kind: Kind,
    pub site: Site,
    /// The last mark is the failing one.
    pub trace: Items<Mark>,
}

/// The bugs that findings show: for each kept procedure, and of each kind and site, the first of its entries that look
/// manifest and whose error isn't one that a procedure has which it calls.
pub fn bugs(alloc: Global, findings: &Findings) -> Result<Vec<Bug>, NoMemory>
    ensures { IfOk result (λ bugs. bugs.items ≡ spec.all_bugs (known findings.now)) }
{
    let parts = findings.parts();
    let faults = all_faults(alloc, parts)?;
    outer_bugs(alloc, &faults, parts)
}

// The bugs of each kept procedure that aren't inner by these errors of each.
fn outer_bugs(alloc: Global, faults: &[Items<Fault>], parts: &[Part]) -> Result<Vec<Bug>, NoMemory>
    ensures { IfOk result (λ bugs. bugs.items ≡ flat_map (errors.outer_bugs_of faults.now) (map known_of parts.now)) }
{
    let mut bugs = Vec::new(alloc);
    for part in parts {
        put_part(alloc, &mut bugs, faults, part)?;
    }
    Ok(bugs)
}

// Adds those of one.
fn put_part(
    alloc: Global,
    bugs: &mut Vec<Bug>,
    faults: &[Items<Fault>],
    part: &Part,
) -> Result<(), NoMemory>
    ensures { OnOk result (bugs.new.items ≡ bugs.old.items ++ errors.outer_bugs_of faults.now (known_of part.now)) }
{
    if let Part::Tabled { checked, .. } = part {
        let mut more = table_bugs(alloc, faults, checked.as_slice())?;
        bugs.append(&mut more)?;
    }
    Ok(())
}

// Those of a table.
fn table_bugs(
    alloc: Global,
    faults: &[Items<Fault>],
    checked: &[Checked],
) -> Result<Vec<Bug>, NoMemory>
    ensures { IfOk result (λ bugs. bugs.items ≡ errors.table_bugs faults.now (map entry_of checked.now)) }
{
    let mut bugs = Vec::new(alloc);
    for one in checked {
        put_bug(alloc, &mut bugs, faults, one)?;
    }
    Ok(bugs)
}

// Adds the bug of an entry that looks manifest and isn't inner, where none of its kind and site is there.
fn put_bug(
    alloc: Global,
    bugs: &mut Vec<Bug>,
    faults: &[Items<Fault>],
    checked: &Checked,
) -> Result<(), NoMemory>
    ensures { OnOk result (bugs.new.items ≡ bugs.old.items ++ others spec.same_error bugs.old.items (errors.outer_bug_of faults.now (entry_of checked.now))) }
{
    let Some(fault) = fault_of(checked) else {
        return Ok(());
    };
    let entry = checked.entry();
    if is_inner(faults, entry.trace.as_slice(), fault) || has_error(bugs, fault) {
        return Ok(());
    }
    bugs.push(bug_with(alloc, entry, fault)?)?;
    Ok(())
}

// The bug of an entry with this error.
fn bug_with(alloc: Global, entry: &Entry, fault: Fault) -> Result<Bug, NoMemory>
    ensures { IfOk result (λ bug. bug ≡ record { proc = entry.now.proc; kind = fault.kind; site = fault.site; trace = entry.now.trace }) }
{
    Ok(Bug {
        proc: entry.proc,
        kind: fault.kind,
        site: fault.site,
        trace: Items::from_slice(alloc, entry.trace.as_slice())?,
    })
}

// Whether the first call that the trace leaves open is of a procedure that has the error.
fn is_inner(faults: &[Items<Fault>], trace: &[Mark], fault: Fault) -> bool
    ensures { result ≡ errors.has_fault faults.now fault (calls.open_call trace.now) }
{
    let Some(callee) = open_call(trace) else {
        return false;
    };
    match faults.get(callee.0 as usize) {
        Some(of_callee) => has_fault(of_callee.as_slice(), fault),
        None => false,
    }
}

// Whether one of these bugs is of this error.
fn has_error(bugs: &[Bug], fault: Fault) -> bool
    ensures { result ≡ list_any (errors.is_bug_of fault) bugs.now }
{
    bugs.iter().any(|bug| is_bug_of(fault, bug))
}

fn is_bug_of(fault: Fault, bug: &Bug) -> bool
    ensures { result ≡ errors.is_bug_of fault bug.now }
{
    let other = Fault {
        kind: bug.kind,
        site: bug.site,
    };
    is_same_fault(fault, other)
}

// The first call of a trace that no return closes.
fn open_call(trace: &[Mark]) -> Option<ProcId>
    ensures { result ≡ calls.open_call trace.now }
{
    let mut depth: usize = 0;
    let mut first = None;
    for mark in trace {
        match mark.kind {
            MarkKind::Enter(callee) => {
                if depth == 0 {
                    first = Some(callee);
                }
                depth += 1;
            }
            MarkKind::Leave => {
                if depth <= 1 {
                    depth = 0;
                    first = None;
                } else {
                    depth -= 1;
                }
            }
            _ => {}
        }
    }
    first
}

ghost use Rattle.std.specs.Prelude.{◌≡◌, ◌++◌, IfOk, OnOk};
ghost use Rattle.std.specs.Fmt.{decimal};
ghost use Rattle.px_syntax.specs.ProgramTree.{program_tree};
ghost use Rattle.px_text_report.specs.Reports as spec;

use crate::bug_lines::put_bugs;
use crate::drops::Dropped;
use crate::left_lines::put_left;
use crate::reports::Report;
use crate::text::{name_at, put, put_number};
use px_syntax::{Name, Program};
use px_terms::NoMemory;
use std::alloc::Global;

/// The text of a report on a program: each bug with its marks, a line for each left-out item, one for each cause of
/// drops of a function, and one of the numbers.
pub fn report_text(alloc: Global, program: &Program, report: &Report) -> Result<Vec<u8>, NoMemory>
    ensures { IfOk result (λ v. v.items ≡ spec.report_text (program_tree program.now) report.now) }
{
    let mut out = Vec::new(alloc);
    put_bugs(alloc, &mut out, program, report.bugs.as_slice())?;
    put_left(alloc, &mut out, program, report.left_out.as_slice())?;
    put_dropped(
        alloc,
        &mut out,
        program.names.as_slice(),
        report.dropped.as_slice(),
    )?;
    let left = report.left_out.len() as u64;
    let bugs = report.bugs.len() as u64;
    put_last_line(alloc, &mut out, report.procedures, left, bugs)?;
    Ok(out)
}

// A line for each.
fn put_dropped(
    alloc: Global,
    out: &mut Vec<u8>,
    names: &[Name],
    dropped: &[Dropped],
) -> Result<(), NoMemory>
    ensures { OnOk result (out.new.items ≡ out.old.items ++ spec.dropped_lines names.now dropped.now) }
{
    for one in dropped {
        put_dropped_line(alloc, out, names, one)?;
    }
    Ok(())
}

// `dropped PROCEDURE: CAUSE, N`
fn put_dropped_line(
    alloc: Global,
    out: &mut Vec<u8>,
    names: &[Name],
    one: &Dropped,
) -> Result<(), NoMemory>
    ensures { OnOk result (out.new.items ≡ out.old.items ++ spec.dropped_line names.now one.now) }
{
    put(out, b"dropped ")?;
    put(out, name_at(names, one.proc.0 as usize))?;
    put(out, b": ")?;
    put(out, one.cause.as_slice())?;
    put(out, b", ")?;
    put_number(alloc, out, one.count)?;
    put(out, b"\n")
}

// `procedures P, left out L, bugs B`
fn put_last_line(
    alloc: Global,
    out: &mut Vec<u8>,
    procedures: u64,
    left: u64,
    bugs: u64,
) -> Result<(), NoMemory>
    ensures { OnOk result (out.new.items ≡ out.old.items ++ spec.last_line procedures left bugs) }
{
    put_count(alloc, out, b"procedures ", procedures)?;
    put_count(alloc, out, b", left out ", left)?;
    put_count(alloc, out, b", bugs ", bugs)?;
    put(out, b"\n")?;
    Ok(())
}

// A number after what it counts.
fn put_count(alloc: Global, out: &mut Vec<u8>, of: &[u8], number: u64) -> Result<(), NoMemory>
    ensures { OnOk result (out.new.items ≡ out.old.items ++ (of.now ++ decimal number)) }
{
    put(out, of)?;
    put_number(alloc, out, number)
}

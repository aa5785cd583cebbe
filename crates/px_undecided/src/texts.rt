ghost use Rattle.std.specs.Prelude.{◌≡◌, ◌++◌, length, IfOk, OnOk};
ghost use Rattle.std.specs.Fmt.{decimal};
ghost use Rattle.px_syntax.specs.ProgramTree.{program_tree};
ghost use Rattle.px_text_report.specs.Known.{known};
ghost use Rattle.px_undecided.specs.CountTexts as spec;

use crate::counting::{LookCounts, look_counts};
use px_pieces::Findings;
use px_syntax::Program;
use px_terms::NoMemory;
use px_text_report::{name_at, put, put_number};
use std::alloc::Global;

/// The text of counts, where they are asked for with so many clauses a search, and else nothing.
pub fn bits_asked(
    alloc: Global,
    asked: Option<u32>,
    program: &Program,
    findings: &Findings,
) -> Result<Vec<u8>, NoMemory>
    requires { length findings.now.parts ≡ length program.now.procedures }
    ensures { IfOk result (λ v. spec.IsBitsText asked (program_tree program.now) (known findings.now) v.items) }
{
    match asked {
        None => Ok(Vec::new(alloc)),
        Some(conflicts) => render(
            alloc,
            program,
            &look_counts(alloc, program, findings, conflicts)?,
        ),
    }
}

/// The text of counts: a line for each.
pub fn render(alloc: Global, program: &Program, counts: &[LookCounts]) -> Result<Vec<u8>, NoMemory>
    ensures { IfOk result (λ v. v.items ≡ spec.count_lines (program_tree program.now) counts.now) }
{
    let mut out = Vec::new(alloc);
    for one in counts {
        put_line(alloc, &mut out, program, one)?;
    }
    Ok(out)
}

// `bits PROCEDURE: refuted A, met B, open C`
fn put_line(
    alloc: Global,
    out: &mut Vec<u8>,
    program: &Program,
    counts: &LookCounts,
) -> Result<(), NoMemory>
    ensures { OnOk result (out.new.items ≡ out.old.items ++ spec.count_line (program_tree program.now) counts.now) }
{
    put(out, b"bits ")?;
    put(
        out,
        name_at(program.names.as_slice(), counts.proc.0 as usize),
    )?;
    put_numbers(alloc, out, counts)
}

// `: refuted A, met B, open C`
fn put_numbers(alloc: Global, out: &mut Vec<u8>, counts: &LookCounts) -> Result<(), NoMemory>
    ensures { OnOk result (out.new.items ≡ out.old.items ++ spec.numbers_text counts.now) }
{
    put_count(alloc, out, b": refuted ", counts.refuted)?;
    put_count(alloc, out, b", met ", counts.met)?;
    put_count(alloc, out, b", open ", counts.left_open)?;
    put(out, b"\n")?;
    Ok(())
}

// A number after what it counts.
fn put_count(alloc: Global, out: &mut Vec<u8>, of: &[u8], number: u64) -> Result<(), NoMemory>
    ensures { OnOk result (out.new.items ≡ out.old.items ++ (of.now ++ decimal number)) }
{
    put(out, of)?;
    put_number(alloc, out, number)
}

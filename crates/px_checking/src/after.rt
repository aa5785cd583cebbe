ghost use Rattle.std.specs.Prelude.{◌≡◌, ◌++◌, ℕ, List, length, OnOk};
ghost use Rattle.px_syntax.specs.ProgramTree.{program_tree};
ghost use Rattle.px_text_report.specs.Known.{known};
ghost use Rattle.px_leak.specs.Leaks.{all_leaks};
ghost use Rattle.px_leak.specs.LeakTexts.{leaks_asked};
ghost use Rattle.px_undecided.specs.CountTexts.{IsBitsText};
ghost use Rattle.px_checking.specs.After.{IsAfter};

use crate::asked::More;
use px_leak::{leaks, render};
use px_pieces::Findings;
use px_syntax::Program;
use px_terms::NoMemory;
use px_text_report::put;
use px_undecided::bits_asked;
use std::alloc::Global;

/// Adds what is told after a report: the text of each that is asked for, in their order.
pub(crate) fn put_after(
    alloc: Global,
    out: &mut Vec<u8>,
    asked: More,
    program: &Program,
    findings: &Findings,
) -> Result<(), NoMemory>
    requires { length findings.now.parts ≡ length program.now.procedures }
    ensures { OnOk result ((text : List ℕ) × IsAfter asked (program_tree program.now) (known findings.now) text × (out.new.items ≡ out.old.items ++ text)) }
{
    put_bits(alloc, out, asked.bits, program, findings)?;
    put_leaks(alloc, out, asked.leaks, program, findings)
}

// Adds the lines of looks at bits, where they are asked for.
fn put_bits(
    alloc: Global,
    out: &mut Vec<u8>,
    asked: Option<u32>,
    program: &Program,
    findings: &Findings,
) -> Result<(), NoMemory>
    requires { length findings.now.parts ≡ length program.now.procedures }
    ensures { OnOk result ((text : List ℕ) × IsBitsText asked (program_tree program.now) (known findings.now) text × (out.new.items ≡ out.old.items ++ text)) }
{
    let text = bits_asked(alloc, asked, program, findings)?;
    put(out, &text)
}

// Adds the text of the leaks, where they are asked for.
fn put_leaks(
    alloc: Global,
    out: &mut Vec<u8>,
    asked: bool,
    program: &Program,
    findings: &Findings,
) -> Result<(), NoMemory>
    ensures { OnOk result (out.new.items ≡ out.old.items ++ leaks_asked asked (program_tree program.now) (all_leaks (known findings.now))) }
{
    if asked {
        let text = render(alloc, program, &leaks(alloc, findings)?)?;
        put(out, &text)?;
    }
    Ok(())
}

ghost use Rattle.std.specs.Prelude.{◌≡◌, ◌++◌, IfOk, OnOk};
ghost use Rattle.px_syntax.specs.ProgramTree.{program_tree};
ghost use Rattle.px_leak.specs.LeakTexts.{leak_text, leak_texts, leaks_text};

use crate::told::Leak;
use px_syntax::Program;
use px_terms::NoMemory;
use px_text_report::{name_at, put, put_marks, put_number, put_place};
use std::alloc::Global;

/// The text of leaks: each with its marks, and a line with their number.
pub fn render(alloc: Global, program: &Program, leaks: &[Leak]) -> Result<Vec<u8>, NoMemory>
    ensures { IfOk result (λ v. v.items ≡ leaks_text (program_tree program.now) leaks.now) }
{
    let mut out = Vec::new(alloc);
    put_leaks(alloc, &mut out, program, leaks)?;
    put(&mut out, b"leaks ")?;
    put_number(alloc, &mut out, leaks.len() as u64)?;
    put(&mut out, b"\n")?;
    Ok(out)
}

// Adds each leak.
fn put_leaks(
    alloc: Global,
    out: &mut Vec<u8>,
    program: &Program,
    leaks: &[Leak],
) -> Result<(), NoMemory>
    ensures { OnOk result (out.new.items ≡ out.old.items ++ leak_texts (program_tree program.now) leaks.now) }
{
    for leak in leaks {
        put_leak(alloc, out, program, leak)?;
    }
    Ok(())
}

// `FILE:L:C: leak in PROCEDURE`, and a line for each mark.
fn put_leak(
    alloc: Global,
    out: &mut Vec<u8>,
    program: &Program,
    leak: &Leak,
) -> Result<(), NoMemory>
    ensures { OnOk result (out.new.items ≡ out.old.items ++ leak_text (program_tree program.now) leak.now) }
{
    put_place(alloc, out, program.files.as_slice(), leak.site)?;
    put(out, b": leak in ")?;
    put(out, name_at(program.names.as_slice(), leak.proc.0 as usize))?;
    put(out, b"\n")?;
    put_marks(alloc, out, program, leak.trace.as_slice())
}

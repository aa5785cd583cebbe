ghost use Rattle.std.specs.Prelude.{◌≡◌, ◌++◌, OnOk};
ghost use Rattle.px_syntax.specs.ProgramTree.{program_tree};
ghost use Rattle.px_text_report.specs.LeftOut.{left_line, left_lines, left_name};

use crate::text::{name_at, put, put_place};
use px_base::ProcId;
use px_syntax::{Left, Name, Program};
use px_terms::NoMemory;
use std::alloc::Global;

/// Adds a line for each item.
pub(crate) fn put_left(
    alloc: Global,
    out: &mut Vec<u8>,
    program: &Program,
    left: &[Left],
) -> Result<(), NoMemory>
    ensures { OnOk result (out.new.items ≡ out.old.items ++ left_lines (program_tree program.now) left.now) }
{
    for item in left {
        put_line(alloc, out, program, item)?;
    }
    Ok(())
}

// `left out NAME at FILE:L:C: WORD`
fn put_line(
    alloc: Global,
    out: &mut Vec<u8>,
    program: &Program,
    left: &Left,
) -> Result<(), NoMemory>
    ensures { OnOk result (out.new.items ≡ out.old.items ++ left_line (program_tree program.now) left.now) }
{
    put(out, b"left out ")?;
    put(out, left_name(program.names.as_slice(), left.proc))?;
    put(out, b" at ")?;
    put_place(alloc, out, program.files.as_slice(), left.site)?;
    put(out, b": ")?;
    put(out, left.word.as_slice())?;
    put(out, b"\n")
}

/// The name of a left-out function, or `(item)`.
pub fn left_name(names: &[Name], proc: Option<ProcId>) -> &[u8]
    ensures { result.now ≡ left_name names.now proc }
{
    match proc {
        Some(proc) => name_at(names, proc.0 as usize),
        None => b"(item)",
    }
}

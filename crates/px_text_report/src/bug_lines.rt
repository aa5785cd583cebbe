ghost use Rattle.std.specs.Prelude.{◌≡◌, ◌++◌, OnOk};
ghost use Rattle.px_syntax.specs.ProgramTree.{program_tree};
ghost use Rattle.px_text_report.specs.BugTexts.{kind_text, mark_text, mark_line, mark_lines, bug_text, bug_texts};

use crate::shown::Bug;
use crate::text::{name_at, put, put_place};
use px_base::{Kind, Mark, MarkKind};
use px_syntax::{Name, Program};
use px_terms::NoMemory;
use std::alloc::Global;

/// Adds each bug with its marks.
pub(crate) fn put_bugs(
    alloc: Global,
    out: &mut Vec<u8>,
    program: &Program,
    bugs: &[Bug],
) -> Result<(), NoMemory>
    ensures { OnOk result (out.new.items ≡ out.old.items ++ bug_texts (program_tree program.now) bugs.now) }
{
    for bug in bugs {
        put_bug(alloc, out, program, bug)?;
    }
    Ok(())
}

// `FILE:L:C: KIND in PROCEDURE`, and a line for each mark.
fn put_bug(alloc: Global, out: &mut Vec<u8>, program: &Program, bug: &Bug) -> Result<(), NoMemory>
    ensures { OnOk result (out.new.items ≡ out.old.items ++ bug_text (program_tree program.now) bug.now) }
{
    put_place(alloc, out, program.files.as_slice(), bug.site)?;
    put(out, b": ")?;
    put(out, kind_text(bug.kind).as_bytes())?;
    put(out, b" in ")?;
    put(out, name_at(program.names.as_slice(), bug.proc.0 as usize))?;
    put(out, b"\n")?;
    put_marks(alloc, out, program, bug.trace.as_slice())
}

/// Adds a line for each mark.
pub fn put_marks(
    alloc: Global,
    out: &mut Vec<u8>,
    program: &Program,
    trace: &[Mark],
) -> Result<(), NoMemory>
    ensures { OnOk result (out.new.items ≡ out.old.items ++ mark_lines (program_tree program.now) trace.now) }
{
    for mark in trace {
        put_mark(alloc, out, program, *mark)?;
    }
    Ok(())
}

// `  FILE:L:C: MARK`
fn put_mark(alloc: Global, out: &mut Vec<u8>, program: &Program, mark: Mark) -> Result<(), NoMemory>
    ensures { OnOk result (out.new.items ≡ out.old.items ++ mark_line (program_tree program.now) mark) }
{
    put(out, b"  ")?;
    put_place(alloc, out, program.files.as_slice(), mark.site)?;
    put(out, b": ")?;
    put_mark_text(out, program.names.as_slice(), mark.kind)?;
    put(out, b"\n")
}

/// Adds what a mark says; a call has the name of its procedure.
pub fn put_mark_text(out: &mut Vec<u8>, names: &[Name], kind: MarkKind) -> Result<(), NoMemory>
    ensures { OnOk result (out.new.items ≡ out.old.items ++ mark_text names.now kind) }
{
    let text = match kind {
        MarkKind::Then => "true",
        MarkKind::Else => "false",
        MarkKind::Iter => "iteration",
        MarkKind::Done => "loop left",
        MarkKind::Got => "allocated",
        MarkKind::NoBlock => "allocation failed",
        MarkKind::Input => "input",
        MarkKind::Access => "access",
        MarkKind::Freed => "free",
        MarkKind::FreeNull => "free of null",
        MarkKind::Enter(proc) => {
            put(out, b"call ")?;
            return put(out, name_at(names, proc.0 as usize));
        }
        MarkKind::Leave => "return",
    };
    put(out, text.as_bytes())
}

/// What is said of a kind of error.
pub fn kind_text(kind: Kind) -> &'static str
    ensures { result.now ≡ kind_text kind }
{
    match kind {
        Kind::NullDereference => "null dereference",
        Kind::UseAfterFree => "use after free",
        Kind::DoubleFree => "double free",
        Kind::UninitialisedRead => "uninitialised read",
        Kind::DivisionByZero => "division by zero",
    }
}

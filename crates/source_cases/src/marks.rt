use anyhow::{Context, Result, bail};
use px_base::{Mark, MarkKind, ProcId, Site};
use px_syntax::Program;

/// A mark in the words of a report, with `_` for blanks, and its line and column, as `loop_left@5:3`.
pub fn mark(program: &Program, text: &str) -> Result<Mark> {
    let (word, site) = text.split_once('@').context("no place")?;
    Ok(Mark {
        kind: kind(program, word)?,
        site: place(site)?,
    })
}

fn place(text: &str) -> Result<Site> {
    let (line, column) = text.split_once(':').context("no column")?;
    Ok(Site {
        file: 0,
        line: line.parse()?,
        column: column.parse()?,
    })
}

fn kind(program: &Program, word: &str) -> Result<MarkKind> {
    if let Some(name) = word.strip_prefix("call_") {
        return Ok(MarkKind::Enter(named(program, name)?));
    }
    Ok(match word {
        "true" => MarkKind::Then,
        "false" => MarkKind::Else,
        "iteration" => MarkKind::Iter,
        "loop_left" => MarkKind::Done,
        "allocated" => MarkKind::Got,
        "allocation_failed" => MarkKind::NoBlock,
        "input" => MarkKind::Input,
        "access" => MarkKind::Access,
        "free" => MarkKind::Freed,
        "free_of_null" => MarkKind::FreeNull,
        "return" => MarkKind::Leave,
        _ => bail!("no mark"),
    })
}

// The procedure of this name.
fn named(program: &Program, name: &str) -> Result<ProcId> {
    for (number, known) in program.names.as_slice().iter().enumerate() {
        if known.as_slice() == name.as_bytes() {
            return Ok(ProcId(u32::try_from(number)?));
        }
    }
    bail!("no such name")
}

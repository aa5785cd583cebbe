use crate::parts::{part_at, parts_of};
use crate::states::{blocks, conjuncts, content, here, variables};
use anyhow::{Context, Result, bail};
use px_base::{Kind, Mark, MarkKind, ProcId};
use px_callgraph::Callee;
use px_entry::{Cause, Entry, Exit, Gap, Table};
use px_terms::{Content, Items};
use std::alloc::Global;

/// What a job knows of what it calls, a callee in each of these parts from one on: its number, and `cycle`, `out` where
/// it was left out, `unknown`, or `table` and the rows of its table, with a `/` between them.
///
/// A row is `drop`, or an entry: its variables, conjuncts, blocks that it finds, blocks as it leaves them, marks and
/// end, with a `;` between them. The end is `ok`, `gives` with a content, or the kind of an error.
pub fn callees(alloc: Global, parts: &[&str], first: usize) -> Result<Items<(ProcId, Callee)>> {
    let mut callees = Items::new(alloc);
    for (place, part) in parts.iter().enumerate() {
        if place >= first {
            callees.push(callee(alloc, part)?)?;
        }
    }
    Ok(callees)
}

fn callee(alloc: Global, text: &str) -> Result<(ProcId, Callee)> {
    let (number, rest) = text.split_once(' ').context("no callee")?;
    let (word, rows) = rest.split_once(' ').unwrap_or((rest, ""));
    let proc = ProcId(number.parse()?);
    let known = match word {
        "cycle" => Callee::Cycle,
        "out" => Callee::LeftOut,
        "unknown" => Callee::Unknown,
        "table" => Callee::Table(table(alloc, proc, rows)?),
        _ => bail!("nothing known"),
    };
    Ok((proc, known))
}

fn table(alloc: Global, proc: ProcId, text: &str) -> Result<Table> {
    let mut entries = Items::new(alloc);
    let mut drops = Items::new(alloc);
    for row in parts_of(alloc, text, '/')? {
        if row == "drop" {
            drops.push(Gap {
                trace: Items::new(alloc),
                cause: Cause::Paths(64),
            })?;
        } else {
            entries.push(entry(alloc, proc, row)?)?;
        }
    }
    Ok(Table { entries, drops })
}

fn entry(alloc: Global, proc: ProcId, text: &str) -> Result<Entry> {
    let parts = parts_of(alloc, text, ';')?;
    let mut entry = empty_entry(alloc, proc);
    take_assumed(alloc, &parts, &mut entry)?;
    take_blocks(alloc, &parts, &mut entry)?;
    take_end(alloc, &parts, &mut entry)?;
    Ok(entry)
}

fn empty_entry(alloc: Global, proc: ProcId) -> Entry {
    Entry {
        proc,
        trace: Items::new(alloc),
        exit: Exit::Ok,
        result: None,
        vars: Items::new(alloc),
        pure: Items::new(alloc),
        pre: Items::new(alloc),
        post: Items::new(alloc),
        model: Items::new(alloc),
    }
}

fn take_assumed(alloc: Global, parts: &[&str], entry: &mut Entry) -> Result<()> {
    entry.vars = Items::from_vec(variables(alloc, part_at(parts, 0)?)?);
    entry.pure = Items::from_vec(conjuncts(alloc, part_at(parts, 1)?)?);
    Ok(())
}

fn take_blocks(alloc: Global, parts: &[&str], entry: &mut Entry) -> Result<()> {
    entry.pre = Items::from_vec(blocks(alloc, part_at(parts, 2)?)?);
    entry.post = Items::from_vec(blocks(alloc, part_at(parts, 3)?)?);
    Ok(())
}

fn take_end(alloc: Global, parts: &[&str], entry: &mut Entry) -> Result<()> {
    entry.trace = marks(alloc, part_at(parts, 4)?)?;
    let (exit, result) = end(alloc, part_at(parts, 5)?)?;
    entry.exit = exit;
    entry.result = result;
    Ok(())
}

fn end(alloc: Global, text: &str) -> Result<(Exit, Option<Content>)> {
    if let Some(given) = text.strip_prefix("gives ") {
        return Ok((Exit::Ok, Some(content(alloc, given)?)));
    }
    let exit = match text {
        "ok" => Exit::Ok,
        "NullDereference" => Exit::Error(Kind::NullDereference, here()),
        "UseAfterFree" => Exit::Error(Kind::UseAfterFree, here()),
        "DoubleFree" => Exit::Error(Kind::DoubleFree, here()),
        "UninitialisedRead" => Exit::Error(Kind::UninitialisedRead, here()),
        "DivisionByZero" => Exit::Error(Kind::DivisionByZero, here()),
        _ => bail!("no end"),
    };
    Ok((exit, None))
}

fn marks(alloc: Global, text: &str) -> Result<Items<Mark>> {
    let mut marks = Items::new(alloc);
    for word in parts_of(alloc, text, ' ')? {
        marks.push(Mark {
            kind: mark(word)?,
            site: here(),
        })?;
    }
    Ok(marks)
}

fn mark(word: &str) -> Result<MarkKind> {
    Ok(match word {
        "Then" => MarkKind::Then,
        "Else" => MarkKind::Else,
        "Got" => MarkKind::Got,
        "NoBlock" => MarkKind::NoBlock,
        "Input" => MarkKind::Input,
        "Access" => MarkKind::Access,
        "Freed" => MarkKind::Freed,
        "FreeNull" => MarkKind::FreeNull,
        _ => bail!("no mark"),
    })
}

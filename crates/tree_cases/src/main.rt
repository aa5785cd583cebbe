//! Reads cases, one a line, and prints what is made of typed trees that are written by hand, those with what isn't understood
//! among them, which no source gives: their commands, their tables, the report on them, and how a replay ends. What it prints must
//! be its `stdout`.
//!
//! A line has a `|` between its parts. The first is `lowered`, `table` or `report`, or `replay` and what `replays` reads; the second
//! has the words of what isn't understood, with a blank between them; and each of the others is a function, as `programs` reads it.
#![tactic(auto)]

mod analyses;
mod commands;
mod parts;
mod programs;
mod replays;
mod trees;

use anyhow::{Result, bail};
use case_texts::answer_each;
use parts::{part_at, parts_of};
use std::alloc::Global;

fn main(rt: HostRuntime) -> Result<()> {
    answer_each(&rt, rt.alloc(), |case| Ok(Some(answer(rt.alloc(), case)?)))
}

// What is printed for a case.
fn answer(alloc: Global, case: &str) -> Result<String> {
    let parts = parts_of(alloc, case, '|')?;
    let program = programs::program(alloc, &parts)?;
    let (word, rest) = split(part_at(&parts, 0)?);
    match word {
        "lowered" => commands::lowered(alloc, &program),
        "table" => analyses::tables(alloc, &program),
        "report" => analyses::report(alloc, &program),
        "replay" => replays::ending(alloc, &program, rest),
        _ => bail!("no word"),
    }
}

// The first word, and what stands behind it.
fn split(text: &str) -> (&str, &str) {
    text.split_once(' ').unwrap_or((text, ""))
}

//! Reads cases of single parts, one a line, and prints what their calls make of each: limits, files, readers and sinks;
//! tokens, items and their trees; terms and lists of conjuncts; and what bytes spell, and what a worker without domains does
//! with them. What it prints must be its `stdout`.
//!
//! A line is a word and what it needs. The words are those of `edges`, `grammar`, `terms` and `wire`.
#![tactic(auto)]

mod edges;
mod grammar;
mod terms;
mod wire;

use anyhow::Result;
use case_texts::answer_each;
use px_io::HostFiles;
use std::alloc::Global;
use std::env::Env;
use std::rt::Files;
use std::sync::Wait;

fn main(rt: HostRuntime) -> Result<()> {
    let mut host = HostFiles::new(rt);
    answer_each(
        &rt,
        rt.alloc(),
        |case| Ok(Some(answer(&rt, rt.alloc(), &mut host, case)?)),
    )
}

// What is printed for a case.
fn answer<R: Wait + Env + Files + AllocGlobal + Drop>(
    rt: &R,
    alloc: Global,
    host: &mut HostFiles<R>,
    case: &str,
) -> Result<String> {
    let (word, rest) = case.split_once(' ').unwrap_or((case, ""));
    if let Some(said) = edges::answer(rt, alloc, host, word, rest)? {
        return Ok(said);
    }
    if let Some(said) = grammar::answer(alloc, word, rest)? {
        return Ok(said);
    }
    if let Some(said) = terms::answer(alloc, word, rest)? {
        return Ok(said);
    }
    wire::answer(rt, alloc, word, rest)
}

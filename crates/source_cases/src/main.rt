//! Reads cases, one a line, and prints what the program's calls, from the items of a file to a whole run, make of each,
//! what a check says of an entry and its steps, and how a replay ends. What it prints must be its `stdout`.
//!
//! A line is a word and a text in the short form of case_texts. The words are `replay` and those of `said`.
#![tactic(auto)]

mod bodies;
mod changes;
mod derivations;
mod endings;
mod marks;
mod programs;
mod replay_parts;
mod replays;
mod runs;
mod sharing;
mod sources;
mod values;
mod words;

use anyhow::{Result, bail};
use case_texts::{answer_each, expanded};
use px_io::HostFiles;
use px_syntax::Program;
use std::alloc::Global;
use std::rt::Files;
use std::sync::Wait;
use std::thread::Threads;

fn main(rt: HostRuntime) -> Result<()> {
    let mut files = HostFiles::new(rt);
    let mut replayed = None;
    answer_each(
        &rt,
        rt.alloc(),
        |case| answer(&rt, rt.alloc(), &mut files, &mut replayed, case),
    )
}

// What is printed for a case. The text of a file alone is the program of the replays after it.
fn answer<W: Threads + Wait + Sync, R: Files + AllocGlobal + Drop>(
    rt: &W,
    alloc: Global,
    files: &mut HostFiles<R>,
    replayed: &mut Option<Program>,
    case: &str,
) -> Result<Option<String>> {
    let (word, short) = case.split_once(' ').unwrap_or((case, ""));
    let text = expanded(alloc, short)?;
    match word {
        "replay" => replays::replay_case(alloc, replayed, &text),
        _ => Ok(Some(said(rt, alloc, files, word, &text)?)),
    }
}

fn said<W: Threads + Wait + Sync, R: Files + AllocGlobal + Drop>(
    rt: &W,
    alloc: Global,
    files: &mut HostFiles<R>,
    word: &str,
    text: &str,
) -> Result<String> {
    match word {
        "source" => sources::source(alloc, text),
        "program" => programs::program_of(alloc, text),
        "blocks" => programs::blocks(alloc, text),
        "functions" => programs::functions(alloc, text),
        "lowered" => bodies::lowered(alloc, text),
        "size" => bodies::size(alloc, text),
        "derivation" => derivations::derivation_case(alloc, text),
        "shared" => sharing::sharing_case(alloc, text),
        "words" => words::words_case(alloc, text),
        "run" => runs::run_case(rt, alloc, text),
        "kept" => runs::kept_case(rt, alloc, text),
        "worker" => runs::worker_case(rt, alloc, text),
        "check" => runs::check_case(rt, alloc, text),
        "checked_functions" => runs::check_functions(rt, alloc, text),
        "command" => runs::command_case(rt, alloc, files, text),
        "listing" => runs::listing_case(alloc, text),
        _ => bail!("no word {word:?}"),
    }
}

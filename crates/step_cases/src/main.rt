//! Reads cases, one a line, and prints the alternatives of a command on a state, and paths through a body. What it
//! prints must be its `stdout`.
//!
//! A line has the parts of `states`, a command of `commands`, and the callees of `callees`, with a `|` between them. The
//! command is printed, and then a line for each alternative, as `texts` writes it.
//!
//! A line that begins with `walk` has a body in place of the state and the command, and names of ways, as `paths` reads
//! it: a line is printed for each step of the path that goes by these names. One that begins with `copy` has a body alone:
//! what is printed is how large it is, and what `copies` says of its copy.
#![tactic(auto)]

mod bodies;
mod callees;
mod commands;
mod copies;
mod parts;
mod paths;
mod states;
mod texts;
mod writing;

use anyhow::{Result, bail};
use case_texts::answer_each;
use parts::{part_at, parts_of};
use px_callgraph::{Alternative, Job, State};
use px_symexec::alternatives;
use std::alloc::Global;

/// How many blocks a case may have.
const MOST: usize = 1000;

fn main(rt: HostRuntime) -> Result<()> {
    answer_each(&rt, rt.alloc(), |case| Ok(Some(answer(rt.alloc(), case)?)))
}

// What is printed for a case.
fn answer(alloc: Global, case: &str) -> Result<String> {
    let parts = parts_of(alloc, case, '|')?;
    match part_at(&parts, 0)? {
        "walk" => paths::text_of(alloc, &parts),
        "copy" => copies::text_of(alloc, &paths::body(alloc, &parts)?),
        gives => of_command(alloc, gives, &parts),
    }
}

// The command, and its alternatives.
fn of_command(alloc: Global, gives: &str, parts: &[&str]) -> Result<String> {
    let asked = part_at(parts, 6)?;
    let job = states::job(alloc, gives, callees::callees(alloc, parts, 7)?)?;
    let state = states::state(alloc, parts)?;
    let found = listed(alloc, &job, &state, asked)?;
    texts::text_of(alloc, asked, &state, &found)
}

fn listed(alloc: Global, job: &Job, state: &State, asked: &str) -> Result<Vec<Alternative>> {
    let command = commands::command(alloc, asked)?;
    if state.atoms.len() > MOST {
        bail!("too many blocks");
    }
    Ok(alternatives(alloc, job, state, &command)?)
}

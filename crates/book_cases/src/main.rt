//! Reads cases, one a line, and prints what a book answers to calls, one after another. What it prints must be its
//! `stdout`.
//!
//! A line has a program, as `programs` reads it, a `:`, and calls with a `,` between them, as `calls` reads each. The
//! answers are those of `answers`, likewise.
#![tactic(auto)]

mod answers;
mod calls;
mod programs;
mod texts;

ghost use Rattle.std.specs.Prelude.{◌≡◌};

use answers::Case;
use anyhow::{Context, Result};
use calls::Call;
use case_texts::answer_each;
use programs::Program;
use std::alloc::Global;
use std::marker::Brand;
use std::sync::ledger::{Blank, Ledger};

fn main(rt: HostRuntime) -> Result<()> {
    answer_each(&rt, rt.alloc(), |case| Ok(Some(answer(rt.alloc(), case)?)))
}

// What is printed for a case.
fn answer(alloc: Global, case: &str) -> Result<String> {
    let (program, texts) = case.split_once(':').context("no calls")?;
    let program = programs::program_of(alloc, program)?;
    let mut calls = Vec::new(alloc);
    for text in texts.split(',') {
        calls.push(calls::call_of(text.trim())?)?;
    }
    answers_of::<Brand>(alloc, Blank::new(10_000), program, &calls)
}

// The answers, one after another.
fn answers_of<L: Ledger>(
    alloc: Global,
    blank: Blank,
    program: Program,
    calls: &[Call],
) -> Result<String>
    requires name { blank.name ≡ L.name }
    requires parts { blank.parts ≡ L.parts }
    requires many { L.parts ≡ 10000 }
{
    let (total, all) = blank.open::<L>();
    let mut case = Case::new(alloc, total, all, program)?;
    let mut out = String::new(alloc);
    for call in calls {
        let answer = case.answer(alloc, *call)?;
        texts::put_next(&mut out, answer.as_str())?;
    }
    Ok(out)
}

use crate::marks::mark;
use crate::values::{block, value};
use anyhow::{Context, Result};
use px_base::{Mark, ProcId};
use px_replay::Heap;
use px_syntax::Program;
use px_terms::{Items, Value};
use std::alloc::Global;

/// What is to be replayed, of a program.
#[derive(Drop)]
pub struct Case {
    pub proc: ProcId,
    pub arguments: Vec<Value>,
    pub heap: Heap,
    pub inputs: Vec<i32>,
    pub trace: Vec<Mark>,
}

// What is listed after the word of a part.
#[derive(Clone, Copy)]
enum Part {
    Arguments,
    Heap,
    Inputs,
    Trace,
}

/// The number of a function, and then parts, each a word and what is listed after it, with blanks between: `args` has
/// values, `heap` blocks, `inputs` words and `trace` marks. A part where nothing is listed may be left out.
pub fn read_case(alloc: Global, program: &Program, text: &str) -> Result<Case> {
    let (number, parts) = text.split_once(' ').unwrap_or((text, ""));
    let mut case = Case {
        proc: ProcId(number.parse()?),
        arguments: Vec::new(alloc),
        heap: Heap {
            blocks: Items::new(alloc),
        },
        inputs: Vec::new(alloc),
        trace: Vec::new(alloc),
    };
    let mut part = None;
    for word in parts.split(' ') {
        if let Some(begun) = part_of(word) {
            part = Some(begun);
        } else if !word.is_empty() {
            put(alloc, program, part.context("no part")?, word, &mut case)?;
        }
    }
    Ok(case)
}

fn part_of(word: &str) -> Option<Part> {
    match word {
        "args" => Some(Part::Arguments),
        "heap" => Some(Part::Heap),
        "inputs" => Some(Part::Inputs),
        "trace" => Some(Part::Trace),
        _ => None,
    }
}

// One more in a part.
fn put(alloc: Global, program: &Program, part: Part, word: &str, case: &mut Case) -> Result<()> {
    match part {
        Part::Arguments => case.arguments.push(value(word)?)?,
        Part::Heap => case.heap.blocks.push(block(alloc, word)?)?,
        Part::Inputs => case.inputs.push(word.parse()?)?,
        Part::Trace => case.trace.push(mark(program, word)?)?,
    }
    Ok(())
}

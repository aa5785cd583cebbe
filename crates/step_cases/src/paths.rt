use crate::bodies::commands;
use crate::callees::callees;
use crate::parts::{number_at, part_at, parts_of};
use crate::states::{job_of, result};
use crate::texts::{drop_text, end_text, state_text};
use anyhow::{Result, bail};
use px_callgraph::{Job, StepOutcome, Way};
use px_core::Body;
use px_terms::{Items, TypeId, ValueType};
use px_walks::{Walk, act, copy_walk, start, ways};
use std::alloc::Global;
use std::fmt::Write;

/// A line for a body, and one for each way that a path takes through it: the ways that are listed, and where the one
/// leads, as of a command.
pub fn text_of(alloc: Global, parts: &[&str]) -> Result<String> {
    let asked = part_at(parts, 4)?;
    let mut out = format!(in alloc; "walk {asked}\n")?;
    let job = job(alloc, parts)?;
    let words = parts_of(alloc, part_at(parts, 5)?, ' ')?;
    write_path(alloc, &job, &words, &mut out)?;
    Ok(out)
}

fn job(alloc: Global, parts: &[&str]) -> Result<Job> {
    let callees = callees(alloc, parts, 6)?;
    job_of(alloc, body(alloc, parts)?, callees)
}

fn write_path(alloc: Global, job: &Job, words: &[&str], out: &mut String) -> Result<()> {
    let mut walk = start(alloc, job)?;
    for word in words {
        match write_step(alloc, job, &walk, word, out)? {
            Some(next) => walk = next,
            None => break,
        }
    }
    Ok(())
}

// What is listed where a path stands, and where the way of this name leads; and the path there, if it goes on.
fn write_step<'a>(
    alloc: Global,
    job: &'a Job,
    walk: &Walk<'a>,
    word: &str,
    out: &mut String,
) -> Result<Option<Walk<'a>>> {
    let listed = ways(alloc, job, walk)?;
    write!(out, "  {listed:?} ")?;
    let leads = led(alloc, job, walk, word)?;
    write_led(alloc, walk, &leads, out)?;
    Ok(next(leads))
}

fn led<'a>(
    alloc: Global,
    job: &'a Job,
    walk: &Walk<'a>,
    word: &str,
) -> Result<StepOutcome<Walk<'a>>> {
    let way = way(word)?;
    let copy = copy_walk(alloc, walk)?;
    Ok(act(alloc, job, copy, way)?)
}

fn write_led(
    alloc: Global,
    walk: &Walk,
    leads: &StepOutcome<Walk>,
    out: &mut String,
) -> Result<()> {
    let text = led_text(alloc, walk, leads)?;
    write!(out, "{text}\n")?;
    Ok(())
}

fn led_text(alloc: Global, walk: &Walk, leads: &StepOutcome<Walk>) -> Result<String> {
    match leads {
        StepOutcome::Next(next) => state_text(alloc, "next", &walk.state, &next.state),
        StepOutcome::Ends(state, exit, result) => end_text(
            alloc,
            &walk.state,
            state,
            *exit,
            result,
        ),
        StepOutcome::Cut(_, gap) => drop_text(alloc, gap),
        StepOutcome::Past(_) => Ok(String::from_str(alloc, "beyond")?),
    }
}

fn next(leads: StepOutcome<Walk>) -> Option<Walk> {
    match leads {
        StepOutcome::Next(walk) => Some(walk),
        _ => None,
    }
}

/// A body: its result, its parameters, `i` an `int` and `n` a pointer to a node, how many slots it has, and its commands.
pub fn body(alloc: Global, parts: &[&str]) -> Result<Body> {
    let slots = number_at(parts, 3)?;
    let result = result(part_at(parts, 1)?)?;
    let parameters = parameters(alloc, part_at(parts, 2)?)?;
    Ok(Body {
        slots,
        parameters,
        result,
        commands: commands(alloc, part_at(parts, 4)?)?,
    })
}

fn parameters(alloc: Global, text: &str) -> Result<Items<ValueType>> {
    let mut parameters = Items::new(alloc);
    for word in parts_of(alloc, text, ' ')? {
        parameters.push(parameter(word)?)?;
    }
    Ok(parameters)
}

fn parameter(word: &str) -> Result<ValueType> {
    match word {
        "i" => Ok(ValueType::Int),
        "n" => Ok(ValueType::Pointer(TypeId(1))),
        _ => bail!("no parameter"),
    }
}

// A way by its name; a number is that of an atom, and after `entry` that of an entry.
fn way(word: &str) -> Result<Way> {
    if let Some(number) = word.strip_prefix("entry") {
        return Ok(Way::Entry(number.parse()?));
    }
    match word {
        "on" => Ok(Way::On),
        "then" => Ok(Way::Then),
        "else" => Ok(Way::Else),
        "null" => Ok(Way::Null),
        "made" => Ok(Way::Made),
        "written" => Ok(Way::Written),
        "unwritten" => Ok(Way::Unwritten),
        "live" => Ok(Way::MissingLive),
        "freed" => Ok(Way::MissingFreed),
        "missing" => Ok(Way::Missing),
        "drop" => Ok(Way::Drop),
        "zero" => Ok(Way::ByZero),
        "divided" => Ok(Way::Divided),
        _ => Ok(Way::Atom(word.parse()?)),
    }
}

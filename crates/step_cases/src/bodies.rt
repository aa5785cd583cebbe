use crate::commands::command;
use crate::parts::parts_of;
use crate::states::here;
use anyhow::{Context, Result, bail};
use px_core::Command;
use std::alloc::Global;
use std::mem::replace;

// A command whose end wasn't read yet.
#[derive(Drop)]
struct Open {
    // Of an `if` the slot of its outcome; a loop has none.
    slot: Option<u32>,
    // The lists of its commands that were read.
    lists: Vec<Vec<Command>>,
    // The commands before it.
    before: Vec<Command>,
}

// What was read so far.
#[derive(Drop)]
struct Reading {
    // The commands of the list that is read.
    now: Vec<Command>,
    // The commands round them.
    open: Vec<Open>,
}

/// Commands with a `;` between them, as `commands` reads each. After `loop` stand its head, `do` and its body, `step`
/// and its step, and `end`; after `if` and its slot the commands of one side, `else` and those of the other, and `end`.
pub fn commands(alloc: Global, text: &str) -> Result<Vec<Command>> {
    let mut reading = Reading {
        now: Vec::new(alloc),
        open: Vec::new(alloc),
    };
    for part in parts_of(alloc, text, ';')? {
        read_part(alloc, part, &mut reading)?;
    }
    let Reading { now, .. } = reading;
    Ok(now)
}

fn read_part(alloc: Global, part: &str, reading: &mut Reading) -> Result<()> {
    let (word, rest) = part.split_once(' ').unwrap_or((part, ""));
    match word {
        "loop" => begin(alloc, None, reading),
        "if" => begin(alloc, Some(rest.parse()?), reading),
        "do" | "step" | "else" => begin_next(alloc, reading),
        "end" => end(alloc, reading),
        _ => Ok(reading.now.push(command(alloc, part)?)?),
    }
}

fn begin(alloc: Global, slot: Option<u32>, reading: &mut Reading) -> Result<()> {
    let before = replace(&mut reading.now, Vec::new(alloc));
    reading.open.push(Open {
        slot,
        lists: Vec::new(alloc),
        before,
    })?;
    Ok(())
}

// The next list of a command that isn't at its end.
fn begin_next(alloc: Global, reading: &mut Reading) -> Result<()> {
    let list = replace(&mut reading.now, Vec::new(alloc));
    let last = reading.open.last_mut().context("nothing is open")?;
    last.lists.push(list)?;
    Ok(())
}

fn end(alloc: Global, reading: &mut Reading) -> Result<()> {
    let list = replace(&mut reading.now, Vec::new(alloc));
    let last = reading.open.pop().context("nothing is open")?;
    reading.now = closed(last, list)?;
    Ok(())
}

// The commands before one that ends, and that one.
fn closed(open: Open, last: Vec<Command>) -> Result<Vec<Command>> {
    let Open {
        slot,
        mut lists,
        mut before,
    } = open;
    let second = lists.pop().context("no list")?;
    before.push(whole(slot, lists.pop(), second, last)?)?;
    Ok(before)
}

// An `if` has two lists, and a loop three.
fn whole(
    slot: Option<u32>,
    first: Option<Vec<Command>>,
    second: Vec<Command>,
    last: Vec<Command>,
) -> Result<Command> {
    match (slot, first) {
        (Some(slot), None) => Ok(Command::If {
            slot,
            then: second,
            other: last,
        }),
        (None, Some(first)) => Ok(Command::Loop {
            site: here(),
            head: first,
            body: second,
            step: last,
        }),
        _ => bail!("another number of lists"),
    }
}

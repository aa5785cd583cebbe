use anyhow::{Context, Result, bail};
use px_base::{Mark, MarkKind, ProcId, Site};
use px_entry::Exit;
use px_replay::{Heap, ReplayFault, step_trace};
use px_syntax::Program;
use px_terms::{Items, Value};
use std::alloc::Global;

/// How many marks a trace may have.
const MOST_MARKS: usize = 256;

/// How the replay of a trace through the last function ends, without blocks and inputs. Before a `:` stand the arguments, words and
/// `null`, and behind it the marks with line and column, as `Then@1.2`; a call is `Enter` with the number of its function.
pub fn ending(alloc: Global, program: &Program, text: &str) -> Result<String> {
    let (arguments, trace) = text.split_once(':').context("no trace")?;
    let arguments = values(alloc, arguments)?;
    let trace = marks(alloc, trace)?;
    if trace.len() > MOST_MARKS {
        bail!("too many marks");
    }
    let last = program
        .procedures
        .len()
        .checked_sub(1)
        .context("no function")?;
    let proc = ProcId(u32::try_from(last)?);
    let heap = Heap {
        blocks: Items::new(alloc),
    };
    let inputs: Vec<i32> = Vec::new(alloc);
    match step_trace(alloc, program, proc, &arguments, &heap, &inputs, &trace) {
        Ok(replayed) => said(alloc, replayed.exit, replayed.result),
        Err(ReplayFault::Departs { mark }) => Ok(format!(in alloc; "departs at {mark}")?),
        Err(ReplayFault::NoMemory) => bail!("no memory"),
    }
}

fn said(alloc: Global, exit: Exit, value: Value) -> Result<String> {
    Ok(match exit {
        Exit::Ok => format!(in alloc; "ok {value:?}")?,
        Exit::Error(kind, site) => format!(in alloc; "{kind:?} @{}", site.column)?,
    })
}

fn values(alloc: Global, text: &str) -> Result<Vec<Value>> {
    let mut values = Vec::new(alloc);
    for word in text.split(' ') {
        match word {
            "" => (),
            "null" => values.push(Value::Null)?,
            _ => values.push(Value::Word(word.parse()?))?,
        }
    }
    Ok(values)
}

fn marks(alloc: Global, text: &str) -> Result<Vec<Mark>> {
    let mut marks = Vec::new(alloc);
    for word in text.split(' ') {
        if !word.is_empty() {
            marks.push(mark(word)?)?;
        }
    }
    Ok(marks)
}

fn mark(word: &str) -> Result<Mark> {
    let (name, place) = word.split_once('@').context("no place")?;
    let (line, column) = place.split_once('.').context("no column")?;
    Ok(Mark {
        kind: kind(name)?,
        site: Site {
            file: 0,
            line: line.parse()?,
            column: column.parse()?,
        },
    })
}

fn kind(name: &str) -> Result<MarkKind> {
    if let Some(number) = name.strip_prefix("Enter") {
        return Ok(MarkKind::Enter(ProcId(number.parse()?)));
    }
    Ok(match name {
        "Then" => MarkKind::Then,
        "Else" => MarkKind::Else,
        "Iter" => MarkKind::Iter,
        "Done" => MarkKind::Done,
        "Access" => MarkKind::Access,
        "Leave" => MarkKind::Leave,
        _ => bail!("no mark"),
    })
}

use crate::endings::ending;
use crate::programs::typed;
use crate::replay_parts::{Case, read_case};
use anyhow::{Context, Result, bail};
use px_replay::{ReplayFault, step_trace};
use px_syntax::Program;
use std::alloc::Global;

/// How many marks a trace may have.
const MOST_MARKS: usize = 256;

/// What is printed for a replay: nothing for a `|` and the text of a file, which is taken up, and else how the replay of
/// a case ends. A case has the number of a function and then parts, as `replay_parts` reads them.
pub fn replay_case(
    alloc: Global,
    current: &mut Option<Program>,
    text: &str,
) -> Result<Option<String>> {
    if let Some(source) = text.strip_prefix('|') {
        *current = Some(typed(alloc, &[source.strip_prefix(' ').unwrap_or(source)])??);
        return Ok(None);
    }
    let program = current.as_ref().context("no text")?;
    Ok(Some(answer(alloc, program, text)?))
}

// How the replay of a case ends.
fn answer(alloc: Global, program: &Program, text: &str) -> Result<String> {
    let Case {
        proc,
        arguments,
        heap,
        inputs,
        trace,
    } = read_case(alloc, program, text)?;
    if trace.len() > MOST_MARKS {
        bail!("too many marks");
    }
    match step_trace(alloc, program, proc, &arguments, &heap, &inputs, &trace) {
        Ok(replayed) => ending(alloc, &replayed),
        Err(ReplayFault::Departs { mark }) => Ok(format!(in alloc; "departs at {mark}")?),
        Err(ReplayFault::NoMemory) => bail!("no memory"),
    }
}

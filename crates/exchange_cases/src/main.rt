//! Reads cases of exchanges, one a line, and prints what an exchange with a worker gives: a table, or why there is
//! none. What it prints must be its `stdout`.
//!
//! A line has a word and what it needs. `request` and `reply` have the bytes of messages, two hexadecimal digits each: the
//! cases after them ask for the job of that request, in its version, and where they answer by a script, it is of that reply. The other words
//! are those of `scripts`, `workers`, `spawners` and `children`. With the word `worker` the program serves over its own streams:
//! so it is itself the child that answers in its cases.
#![tactic(auto)]

mod asked;
mod children;
mod exchanges;
mod scripts;
mod spawners;
mod workers;

use anyhow::{Context, Result, bail};
use asked::{Asked, bytes_of};
use case_texts::answer_each;
use px_children::ChildSpawner;
use px_io::{StreamSink, StreamSource};
use scripts::Fails;
use std::alloc::Global;
use std::env;
use std::process::{OpenProcess, Processes};
use std::sync::Wait;

fn main(rt: HostRuntime) -> Result<()> {
    let mut words = env::args(&rt)?;
    let own_file = words.next().context("no name of this program")?;
    if words.next().is_some_and(|word| word.as_str() == "worker") {
        let mut input = StreamSource::new(rt.stdin());
        let mut out = StreamSink::new(rt.stdout());
        return workers::serve_streams(&rt, rt.alloc(), &mut input, &mut out);
    }
    let mut asked = Asked::new(rt.alloc(), own_file);
    let mut spawner = ChildSpawner::new(rt);
    answer_each(&rt, rt.alloc(), |line| {
        if asked.take(line)? {
            return Ok(None);
        }
        Ok(Some(answer(&rt, rt.alloc(), &mut spawner, &asked, line)?))
    })
}

// What is printed for a case: its word, and what it says.
fn answer<R: Wait, P: Processes + AllocGlobal + Drop>(
    rt: &R,
    alloc: Global,
    spawner: &mut ChildSpawner<P>,
    asked: &Asked,
    case: &str,
) -> Result<String>
where
    P::Started: Send,
    <P::Started as OpenProcess>::Stdin: Send,
    <P::Started as OpenProcess>::Stdout: Send,
    <P::Started as OpenProcess>::Stderr: Send,
{
    let (word, rest) = case.split_once(' ').unwrap_or((case, ""));
    let said = match word {
        "bytes" => scripts::bytes(rt, alloc, asked, bytes_of(alloc, rest)?)?,
        "message" => scripts::message(rt, alloc, asked, &bytes_of(alloc, rest)?)?,
        "with" => {
            let (place, digits) = rest.split_once(' ').context("no bytes")?;
            scripts::with(rt, alloc, asked, place.parse()?, &bytes_of(alloc, digits)?)?
        }
        "most" => scripts::most(rt, alloc, asked, rest.parse()?)?,
        "pieces" => scripts::pieces(rt, alloc, asked)?,
        "twice" => scripts::twice(rt, alloc, asked)?,
        "beginnings" => scripts::beginnings(rt, alloc, asked)?,
        "sends" => scripts::failing(rt, alloc, asked, Fails::Send)?,
        "receives" => scripts::failing(rt, alloc, asked, Fails::Receive)?,
        "worker" => workers::worker(rt, alloc, asked, workers::known_by(rest)?)?,
        "worker-twice" => workers::twice(rt, alloc, asked, workers::known_by(rest)?)?,
        "worker-dies" => workers::dies(rt, alloc, asked, workers::known_by(rest)?)?,
        "spawner-honest" => spawners::honest(rt, alloc, asked)?,
        "spawner-script" => spawners::script(rt, alloc, asked)?,
        "spawner-mixed" => spawners::mixed(rt, alloc, asked)?,
        "gates" => spawners::gates(rt, alloc, asked)?,
        "child" => children::child(rt, alloc, spawner, asked, asked.program(rest))?,
        "child-twice" => children::twice(rt, alloc, spawner, asked, asked.program(rest))?,
        "child-killed" => children::killed(rt, alloc, spawner, asked, asked.program(rest))?,
        _ => bail!("no such word"),
    };
    Ok(format!(in alloc; "{word}: {said}")?)
}

//! Reads cases of rounds of workers and of whole runs with workers, one a line, and prints what they come to. What it prints must
//! be its `stdout`.
//!
//! A line has a word and what it needs. `program` and `sample` say of which program the cases after them are, as `programs`
//! reads it. `failing` and `each_write` are of runs over objects that fail, as `failures` reads them. The other words are those of `runs`. With the word `worker` the program serves over its own streams: so it is
//! itself the child that answers in its cases.
#![tactic(auto)]

mod accounts;
mod checks;
mod children;
mod failures;
mod plans;
mod programs;
mod runs;
mod sharing;

use anyhow::{Context, Result, bail};
use case_texts::answer_each;
use children::{KillingSpawner, check_children, run_children};
use px_children::ChildSpawner;
use px_io::{StreamSink, StreamSource};
use px_worker::serve;
use std::env;

fn main(rt: HostRuntime) -> Result<()> {
    let mut words = env::args(&rt)?;
    let own_file = words.next().context("no name of this program")?;
    if words.next().is_some_and(|word| word.as_str() == "worker") {
        let mut input = StreamSource::new(rt.stdin());
        let mut out = StreamSink::new(rt.stdout());
        return match serve(
            &rt,
            rt.alloc(),
            &mut input,
            &mut out,
            &mut Vec::new(rt.alloc()),
        ) {
            Ok(()) => Ok(()),
            Err(_) => bail!("the worker stopped"),
        };
    }
    let mut program = None;
    let mut spawner = KillingSpawner::new(ChildSpawner::new(rt));
    answer_each(&rt, rt.alloc(), |line| {
        let (word, rest) = line.split_once(' ').unwrap_or((line, ""));
        match word {
            "program" => program = Some(programs::of_text(rt.alloc(), rest)?),
            "sample" => program = Some(programs::of_sample(rt.alloc(), rest)?),
            "failing" | "each_write" => {
                let said = failures::answer(&rt, rt.alloc(), word, rest)?;
                return Ok(Some(format!(in rt.alloc(); "{word}: {said}")?));
            }
            _ => {
                let program = program.as_ref().context("no program")?;
                let said = match word {
                    "children" => run_children(
                        &rt,
                        rt.alloc(),
                        &mut spawner,
                        &own_file,
                        program,
                        rest,
                    )?,
                    "check_children" => check_children(
                        &rt,
                        rt.alloc(),
                        &mut spawner,
                        &own_file,
                        program,
                        rest,
                    )?,
                    _ => runs::answer(&rt, rt.alloc(), program, word, rest)?,
                };
                return Ok(Some(format!(in rt.alloc(); "{word}: {said}")?));
            }
        }
        Ok(None)
    })
}

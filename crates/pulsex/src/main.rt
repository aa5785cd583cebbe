//! The program: makes the real files, input, outputs and spawner of workers, and the three domains, hands them and the
//! words to `run_given`, and ends as it says. It promises nothing of its own but that it is safe.
#![tactic(auto)]

ghost use Rattle.std.specs.List.{AllByRecursion};
ghost use Rattle.px_top.specs.Words.{request_given, AreAllowed};

use px_children::ChildSpawner;
use px_interval::Interval;
use px_io::{
    ErrorOutput, Files, HostFiles, Output, Source, StreamSink, StreamSource, WordsFault, words,
};
use px_order::Order;
use px_parity::Parity;
use px_pool::Spawner;
use px_terms::{Domain, NoMemory};
use px_top::run_given;
use std::alloc::Global;
use std::env;
use std::process::ExitCode;
use std::sync::Wait;
use std::thread::Threads;

fn main(rt: HostRuntime) -> ExitCode {
    let alloc = rt.alloc();
    let words = words(alloc, env::args(&rt));
    let mut input = StreamSource::new(rt.stdin());
    let mut out = StreamSink::new(rt.stdout());
    let mut err = StreamSink::new(rt.stderr());
    let mut files = HostFiles::new(rt);
    let mut spawner = ChildSpawner::new(rt);
    match run_with_domains(
        &rt,
        alloc,
        words,
        &mut files,
        &mut input,
        &mut out,
        &mut err,
        &mut spawner,
    ) {
        Ok(code) => code,
        Err(NoMemory) => run_given(
            &rt,
            alloc,
            Err(WordsFault::NoMemory),
            &mut files,
            &mut input,
            &mut out,
            &mut err,
            &mut spawner,
            &mut Vec::new(alloc),
        ),
    }
}

// The run with the domains, or that there was no memory for them.
fn run_with_domains<
    R: Threads + Wait + Sync,
    F: Files,
    I: Source,
    K: Output,
    E: ErrorOutput,
    S: Spawner,
>(
    rt: &R,
    alloc: Global,
    words: Result<Vec<String>, WordsFault>,
    files: &mut F,
    input: &mut I,
    out: &mut K,
    err: &mut E,
    spawner: &mut S,
) -> Result<ExitCode, NoMemory>
    requires { AreAllowed (λ names. AllByRecursion (λ name. F.allows files.old name) names) (request_given words) }
{
    let mut domains: Vec<Box<dyn Domain>> = Vec::new(alloc);
    domains.push(Box::new(alloc, Interval::new(alloc))?)?;
    domains.push(Box::new(alloc, Parity::new(alloc))?)?;
    domains.push(Box::new(alloc, Order::new(alloc))?)?;
    Ok(run_given(
        rt,
        alloc,
        words,
        files,
        input,
        out,
        err,
        spawner,
        &mut domains,
    ))
}

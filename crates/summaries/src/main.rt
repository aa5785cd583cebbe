//! The program over px_listing: makes the real files and streams and the three domains, hands them and the words to its
//! `run`, and ends as it says. It promises nothing but that it is safe.
#![tactic(auto)]

ghost use Rattle.std.specs.Prelude.{ℕ, List};

use px_interval::Interval;
use px_io::{Files, HostFiles, Sink, StreamSink, WordsFault, words};
use px_lines::{Cause, Status, number_of, tell};
use px_listing::run;
use px_order::Order;
use px_parity::Parity;
use px_terms::{Domain, NoMemory};
use std::alloc::Global;
use std::env;
use std::process::ExitCode;

fn main(rt: HostRuntime) -> ExitCode {
    let alloc = rt.alloc();
    let words = words(alloc, env::args(&rt));
    let mut out = StreamSink::new(rt.stdout());
    let mut err = StreamSink::new(rt.stderr());
    let mut files = HostFiles::new(rt);
    let status = match run_with_domains(alloc, words, &mut files, &mut out, &mut err) {
        Ok(status) => status,
        Err(NoMemory) => tell(&mut err, Cause::NoMemory),
    };
    ExitCode::from(number_of(status))
}

// The run with the domains, or that there was no memory for them.
fn run_with_domains<F: Files, K: Sink, E: Sink>(
    alloc: Global,
    words: Result<Vec<String>, WordsFault>,
    files: &mut F,
    out: &mut K,
    err: &mut E,
) -> Result<Status, NoMemory>
    requires { (name : List ℕ) → F.allows files.old name }
{
    let mut domains: Vec<Box<dyn Domain>> = Vec::new(alloc);
    domains.push(Box::new(alloc, Interval::new(alloc))?)?;
    domains.push(Box::new(alloc, Parity::new(alloc))?)?;
    domains.push(Box::new(alloc, Order::new(alloc))?)?;
    Ok(run(alloc, words, files, out, err, &mut domains))
}

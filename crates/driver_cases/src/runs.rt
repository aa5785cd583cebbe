use crate::accounts::{counts, said};
use crate::checks::{Answer, check_case, checked_alone, checked_by, report_case, report_of};
use crate::plans::{Starts, in_place, starts_of};
use crate::programs::Loaded;
use crate::sharing::shared;
use anyhow::{Context, Result, bail};
use px_test_links::{GateSpawner, MixedPlan, MixedSpawner};
use px_wire::{SHARED, VERSION};
use std::alloc::Global;
use std::sync::Wait;
use std::thread::Threads;

/// How often a link of a pair looks for its partner.
const MOST_LOOKS: u32 = 10_000_000;

/// The program of workers in place, which they don't run.
const NO_PROGRAM: &str = "x";

/// What is printed for a case. `rounds` has the number of workers, a colon, and the links that are started, as `plans` reads
/// them; with one worker the events are printed too. `gates` has the number of workers, whose links are started in pairs.
/// `alone` prints the status and the report of the whole run without workers. `check` and `check_gates` have what `rounds` and
/// `gates` have, and compare the report of the whole run with that one. `report` does so too, and says how many links were lost, which is
/// no matter of time. `beginnings` has a number of workers, that of a link, from 0, and a number of bytes: so often the
/// program is checked by these workers in place, of which that one dies after 0 bytes of its first reply, after 1, and so on.
/// `old_beginnings` has a number of bytes: it is the same of one worker that knows version 1 alone, over its second link.
pub fn answer<R: Threads + Wait + Sync>(
    rt: &R,
    alloc: Global,
    loaded: &Loaded,
    word: &str,
    rest: &str,
) -> Result<String> {
    match word {
        "rounds" => {
            let (workers, Starts { plans, failing }) = workers_of(alloc, rest)?;
            let mut spawner = MixedSpawner::new(alloc, plans, failing);
            let account = shared(rt, alloc, &mut spawner, &no_file(alloc), loaded, workers)?;
            said(alloc, &account, workers)
        }
        "alone" => Ok(report_of(alloc, &checked_alone(rt, alloc, loaded)?)?),
        "check" => {
            let (workers, Starts { plans, failing }) = workers_of(alloc, rest)?;
            let mut spawner = MixedSpawner::new(alloc, plans, failing);
            check_case(rt, alloc, &mut spawner, NO_PROGRAM, loaded, workers)
        }
        "report" => {
            let (workers, Starts { plans, failing }) = workers_of(alloc, rest)?;
            let mut spawner = MixedSpawner::new(alloc, plans, failing);
            report_case(rt, alloc, &mut spawner, NO_PROGRAM, loaded, workers)
        }
        "check_gates" => {
            let mut spawner = GateSpawner::new(alloc, MOST_LOOKS);
            check_case(rt, alloc, &mut spawner, NO_PROGRAM, loaded, rest.parse()?)
        }
        "gates" => {
            let mut spawner = GateSpawner::new(alloc, MOST_LOOKS);
            let workers = rest.parse()?;
            let account = shared(rt, alloc, &mut spawner, &no_file(alloc), loaded, workers)?;
            counts(alloc, &account)
        }
        "beginnings" => {
            let (links, bytes) = rest.rsplit_once(' ').context("no bytes")?;
            let (workers, link) = links.split_once(' ').context("no link")?;
            beginnings(
                rt,
                alloc,
                loaded,
                workers.parse()?,
                link.parse()?,
                bytes.parse()?,
            )
        }
        "old_beginnings" => old_beginnings(rt, alloc, loaded, rest.parse()?),
        _ => bail!("no such word"),
    }
}

// The number of workers, and the links that are started.
fn workers_of(alloc: Global, words: &str) -> Result<(u32, Starts)> {
    let (workers, links) = words.split_once(':').context("no links")?;
    Ok((workers.trim().parse()?, starts_of(alloc, links)?))
}

fn no_file(alloc: Global) -> String {
    String::new(alloc)
}

// In how many of the runs workers published every procedure, with one loss at most, and the report is that of the parent
// alone.
fn beginnings<R: Threads + Wait + Sync>(
    rt: &R,
    alloc: Global,
    loaded: &Loaded,
    workers: u32,
    dying: u32,
    bytes: u64,
) -> Result<String> {
    let alone = checked_alone(rt, alloc, loaded)?;
    let mut whole = 0u64;
    for dies_at in 0..bytes {
        let plans = with_one_that_dies(alloc, workers, dying, dies_at)?;
        let mut spawner = MixedSpawner::new(alloc, plans, Vec::new(alloc));
        let shared = checked_by(rt, alloc, &mut spawner, NO_PROGRAM, loaded, workers)?;
        if is_whole(alloc, loaded.program.kept, 0, &alone, &shared)? {
            whole = whole.saturating_add(1);
        }
    }
    Ok(format!(in alloc; "{whole} of {bytes} as without workers")?)
}

// The same of one worker that knows version 1 alone, whose first link ends in any case, and whose second dies.
fn old_beginnings<R: Threads + Wait + Sync>(
    rt: &R,
    alloc: Global,
    loaded: &Loaded,
    bytes: u64,
) -> Result<String> {
    let alone = checked_alone(rt, alloc, loaded)?;
    let mut whole = 0u64;
    for dies_at in 0..bytes {
        let mut plans = Vec::new(alloc);
        for end in [None, Some(dies_at), None] {
            plans.push(in_place(alloc, VERSION, end))?;
        }
        let mut spawner = MixedSpawner::new(alloc, plans, Vec::new(alloc));
        let shared = checked_by(rt, alloc, &mut spawner, NO_PROGRAM, loaded, 1)?;
        if is_whole(alloc, loaded.program.kept, 1, &alone, &shared)? {
            whole = whole.saturating_add(1);
        }
    }
    Ok(format!(in alloc; "{whole} of {bytes} as without workers")?)
}

// Whether workers published so many procedures, and all of them, with so many losses or one more, and none runs at the end.
fn is_whole(
    alloc: Global,
    kept: u32,
    losses: u32,
    alone: &Answer,
    shared: &Answer,
) -> Result<bool> {
    let line = shared.line()?;
    let more = losses.saturating_add(1);
    let as_many = format!(in alloc;
        "workers published {kept}, parent published 0, lost {losses}\n"
    )?;
    let one_more = format!(in alloc;
        "workers published {kept}, parent published 0, lost {more}\n"
    )?;
    Ok(
        shared.status == alone.status
            && shared.running == 0
            && shared.report() == alone.report()
            && (line == as_many.as_str() || line == one_more.as_str()),
    )
}

// Workers in place, of which this one dies, and one more for it.
fn with_one_that_dies(
    alloc: Global,
    workers: u32,
    dying: u32,
    dies_at: u64,
) -> Result<Vec<MixedPlan>> {
    let mut plans = Vec::new(alloc);
    for link in 0..workers {
        let end = if link == dying { Some(dies_at) } else { None };
        plans.push(in_place(alloc, SHARED, end))?;
    }
    plans.push(in_place(alloc, SHARED, None))?;
    Ok(plans)
}

use anyhow::{Context, Result, bail};
use px_honest::Plan;
use px_pool::Script;
use px_test_links::MixedPlan;
use px_wire::{SHARED, VERSION};
use std::alloc::Global;

/// How much a script gives in a call at most.
const MOST: usize = 1_000;

/// Links that are started one after another, and the calls of `start`, counted from 0, that fail.
#[derive(Drop)]
pub struct Starts {
    pub plans: Vec<MixedPlan>,
    pub failing: Vec<u64>,
}

/// The links that the words say: `honest` is a worker in place, without domains; `dies:` and
/// a number one that dies after so many bytes; `old` and `old-dies:` are such workers that know version 1 alone; `gives:` and hexadecimal digits a script; `deaf` and `silent` a script whose
/// first sending or receipt fails; `none` is a start that fails.
pub fn starts_of(alloc: Global, words: &str) -> Result<Starts> {
    let mut plans = Vec::new(alloc);
    let mut failing = Vec::new(alloc);
    let mut calls = 0u64;
    for word in words.split_whitespace() {
        if word == "none" {
            failing.push(calls)?;
        } else {
            plans.push(plan_of(alloc, word)?)?;
        }
        calls = calls.saturating_add(1);
    }
    Ok(Starts { plans, failing })
}

fn plan_of(alloc: Global, word: &str) -> Result<MixedPlan> {
    let (word, said) = word.split_once(':').unwrap_or((word, ""));
    Ok(match word {
        "honest" => in_place(alloc, SHARED, None),
        "dies" => in_place(alloc, SHARED, Some(said.parse()?)),
        "old" => in_place(alloc, VERSION, None),
        "old-dies" => in_place(alloc, VERSION, Some(said.parse()?)),
        "gives" => {
            let bytes = hex::decode(alloc, said).ok().context("no bytes")?;
            script(bytes, Vec::new(alloc), Vec::new(alloc))
        }
        "deaf" => script(Vec::new(alloc), first(alloc)?, Vec::new(alloc)),
        "silent" => script(Vec::new(alloc), Vec::new(alloc), first(alloc)?),
        _ => bail!("no such link"),
    })
}

/// A worker in place, without domains, that knows the versions up to one and dies after so many bytes.
pub fn in_place(alloc: Global, known: u8, dies_at: Option<u64>) -> MixedPlan {
    MixedPlan::InPlace(Plan {
        domains: Vec::new(alloc),
        known,
        dies_at,
    })
}

fn script(bytes: Vec<u8>, failing_sends: Vec<u64>, failing_receives: Vec<u64>) -> MixedPlan {
    MixedPlan::Script(Script {
        bytes,
        most: MOST,
        failing_sends,
        failing_receives,
    })
}

// The first call.
fn first(alloc: Global) -> Result<Vec<u64>> {
    let mut calls = Vec::new(alloc);
    calls.push(0)?;
    Ok(calls)
}

use crate::asked::Asked;
use crate::children::child;
use crate::exchanges::{exchanged, said};
use crate::scripts::reply;
use anyhow::{Result, bail};
use px_honest::{HonestSpawner, Plan};
use px_pool::{Link, ScriptSpawner, Spawner, new_links_are_in_step};
use px_test_links::{GateSpawner, MixedPlan, MixedSpawner};
use std::alloc::Global;
use std::sync::Wait;

/// How often a link of a pair looks for its partner.
const FEW_LOOKS: u32 = 10;

/// `spawner-honest`: what is given over the links that a spawner of one worker in place starts, where it is asked twice.
pub fn honest<R: Wait>(rt: &R, alloc: Global, asked: &Asked) -> Result<String> {
    let mut plans = Vec::new(alloc);
    plans.push(Plan {
        domains: Vec::new(alloc),
        known: 2,
        dies_at: None,
    })?;
    let mut spawner = HonestSpawner::new(alloc, plans);
    let first = child(rt, alloc, &mut spawner, asked, "")?;
    let second = child(rt, alloc, &mut spawner, asked, "")?;
    Ok(format!(in alloc; "{first}; {second}")?)
}

/// `spawner-script`: the same of a spawner of one script, whose first start fails, where it is asked three times.
pub fn script<R: Wait>(rt: &R, alloc: Global, asked: &Asked) -> Result<String> {
    let mut scripts = Vec::new(alloc);
    scripts.push(reply(alloc, asked)?)?;
    let mut failing = Vec::new(alloc);
    failing.push(0)?;
    let mut spawner = ScriptSpawner::new(alloc, scripts, failing);
    let first = child(rt, alloc, &mut spawner, asked, "")?;
    let second = child(rt, alloc, &mut spawner, asked, "")?;
    let third = child(rt, alloc, &mut spawner, asked, "")?;
    Ok(format!(in alloc; "{first}; {second}; {third}")?)
}

/// `spawner-mixed`: the same of a spawner of a script and a worker in place, whose first start fails, where it is asked four
/// times.
pub fn mixed<R: Wait>(rt: &R, alloc: Global, asked: &Asked) -> Result<String> {
    let mut plans = Vec::new(alloc);
    plans.push(MixedPlan::Script(reply(alloc, asked)?))?;
    plans.push(MixedPlan::InPlace(Plan {
        domains: Vec::new(alloc),
        known: 2,
        dies_at: None,
    }))?;
    let mut failing = Vec::new(alloc);
    failing.push(0)?;
    let mut spawner = MixedSpawner::new(alloc, plans, failing);
    let first = child(rt, alloc, &mut spawner, asked, "")?;
    let second = child(rt, alloc, &mut spawner, asked, "")?;
    let third = child(rt, alloc, &mut spawner, asked, "")?;
    let fourth = child(rt, alloc, &mut spawner, asked, "")?;
    Ok(format!(in alloc; "{first}; {second}; {third}; {fourth}")?)
}

/// `gates`: what is given over the first link of a pair, where its partner was sent a request before, and over one that has no
/// partner.
pub fn gates<R: Wait>(rt: &R, alloc: Global, asked: &Asked) -> Result<String> {
    let mut spawner = GateSpawner::new(alloc, FEW_LOOKS);
    let first = gated(rt, alloc, &mut spawner, asked, true)?;
    let alone = gated(rt, alloc, &mut spawner, asked, false)?;
    Ok(format!(in alloc; "{first}; alone, {alone}; {} running", spawner.running())?)
}

// What is given over the first link of a new pair, where its partner is sent a request before, or not.
fn gated<R: Wait, S: Spawner>(
    rt: &R,
    alloc: Global,
    spawner: &mut S,
    asked: &Asked,
    is_partner_asked: bool,
) -> Result<String> {
    let job = asked.job()?;
    let Ok(mut link) = spawner.start(rt, "", 0) else {
        bail!("not started");
    };
    let Ok(mut partner) = spawner.start(rt, "", 1) else {
        spawner.end(rt, link);
        bail!("no partner");
    };
    new_links_are_in_step();
    let is_sent = !is_partner_asked || partner.send(rt, asked.request()).is_ok();
    let outcome = exchanged(rt, alloc, &mut link, &job, asked.version());
    spawner.end(rt, partner);
    spawner.end(rt, link);
    if !is_sent {
        bail!("not sent");
    }
    said(alloc, &outcome?)
}

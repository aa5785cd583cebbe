ghost use Rattle.std.specs.Prelude.{◌≡◌, ◌⊎◌};
ghost use Rattle.px_pool.specs.Words.{IsInStep};

use crate::asked::Asked;
use crate::exchanges::{Outcome, exchanged, said};
use crate::workers::compared;
use anyhow::{Result, bail};
use px_callgraph::Job;
use px_children::ChildSpawner;
use px_pieces::Lost;
use px_pool::{Link, Spawner, new_links_are_in_step};
use std::alloc::Global;
use std::process::{OpenProcess, Processes};
use std::sync::Wait;

/// `child`: what is given over a link that a spawner starts, as one to a child that runs this program. Whether a child that ends at once is sent the request first is a matter of
/// time, so the two causes are said as one.
pub fn child<R: Wait, S: Spawner>(
    rt: &R,
    alloc: Global,
    spawner: &mut S,
    asked: &Asked,
    program: &str,
) -> Result<String> {
    let job = asked.job()?;
    let Ok(mut link) = spawner.start(rt, program, 0) else {
        return Ok(format!(in alloc; "not started, {} starts failed", spawner.faults())?);
    };
    new_links_are_in_step();
    let outcome = exchanged(rt, alloc, &mut link, &job, asked.version());
    let running = spawner.running();
    spawner.end(rt, link);
    let outcome = outcome?;
    let said = if is_without_reply(&outcome) {
        String::from_str(alloc, "no reply")?
    } else {
        said(alloc, &outcome)?
    };
    Ok(format!(in alloc; "{said}; {running} running, and then {}", spawner.running())?)
}

// What is printed of an outcome over a link to a child: of a table whether it is that of the job, too.
fn said_of_child(alloc: Global, outcome: &Outcome, job: &Job) -> Result<String> {
    if is_without_reply(outcome) {
        return Ok(String::from_str(alloc, "no reply")?);
    }
    compared(alloc, outcome, job)
}

/// `child-twice`: what is given over a link to a child that runs this program, and what is given when it is asked again.
pub fn twice<R: Wait, S: Spawner>(
    rt: &R,
    alloc: Global,
    spawner: &mut S,
    asked: &Asked,
    program: &str,
) -> Result<String> {
    let job = asked.job()?;
    let Ok(mut link) = spawner.start(rt, program, 0) else {
        bail!("not started");
    };
    new_links_are_in_step();
    let outcomes = asked_twice(rt, alloc, &mut link, &job, asked.version());
    spawner.end(rt, link);
    let (first, second) = outcomes?;
    let first = said_of_child(alloc, &first, &job)?;
    match second {
        Some(second) => {
            let second = said_of_child(alloc, &second, &job)?;
            Ok(format!(in alloc; "{first}; {second}; {} running", spawner.running())?)
        }
        None => Ok(first),
    }
}

// What is given, and, where that was a table, what is given when the link is asked again.
fn asked_twice<R: Wait, K: Link>(
    rt: &R,
    alloc: Global,
    link: &mut K,
    job: &Job,
    version: u8,
) -> Result<(Outcome, Option<Outcome>)>
    requires step { IsInStep (K.told link.old) }
    requires version { (version ≡ 1) ⊎ (version ≡ 2) }
{
    let first = exchanged(rt, alloc, link, job, version)?;
    if first.is_err() {
        return Ok((first, None));
    }
    let second = exchanged(rt, alloc, link, job, version)?;
    Ok((first, Some(second)))
}

/// `child-killed`: what is given over a link to a child that runs this program, and what is given when it was killed and is asked
/// again.
pub fn killed<R: Wait, P: Processes + AllocGlobal + Drop>(
    rt: &R,
    alloc: Global,
    spawner: &mut ChildSpawner<P>,
    asked: &Asked,
    program: &str,
) -> Result<String>
where
    P::Started: Send,
    <P::Started as OpenProcess>::Stdin: Send,
    <P::Started as OpenProcess>::Stdout: Send,
    <P::Started as OpenProcess>::Stderr: Send,
{
    let job = asked.job()?;
    let Ok(mut link) = spawner.start(rt, program, 0) else {
        bail!("not started");
    };
    let version = asked.version();
    let first = exchanged(rt, alloc, &mut link, &job, version);
    let killed = link.kill();
    let second = exchanged(rt, alloc, &mut link, &job, version);
    spawner.end(rt, link);
    let first = said_of_child(alloc, &first?, &job)?;
    let second = said_of_child(alloc, &second?, &job)?;
    Ok(format!(in alloc;
        "{first}; killed {killed}; {second}; {} running",
        spawner.running()
    )?)
}

fn is_without_reply(outcome: &Outcome) -> bool {
    match outcome {
        Ok(_) => false,
        Err(why) => *why == Lost::Closed(0) || *why == Lost::Send,
    }
}

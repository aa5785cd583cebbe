use crate::asked::Asked;
use crate::exchanges::{Outcome, exchanged, is_closed_after, said};
use anyhow::Result;
use px_frames::frame;
use px_pool::{Link, Script, ScriptLink, new_links_are_in_step};
use std::alloc::Global;
use std::fmt::Write;
use std::sync::Wait;

/// How many bytes a script gives in a call.
const AT_ONCE: usize = 16;

/// How many calls are tried.
const MOST_CALLS: u64 = 1_000;

// A script of these bytes.
fn script(alloc: Global, bytes: Vec<u8>) -> Script {
    Script {
        bytes,
        most: AT_ONCE,
        failing_sends: Vec::new(alloc),
        failing_receives: Vec::new(alloc),
    }
}

/// A script of the frame of the reply.
pub fn reply(alloc: Global, asked: &Asked) -> Result<Script> {
    Ok(script(alloc, frame(alloc, asked.reply())?))
}

// What an exchange gives over a link that follows the script, and the link after it.
fn followed<R: Wait>(
    rt: &R,
    alloc: Global,
    asked: &Asked,
    script: Script,
) -> Result<(Outcome, ScriptLink)> {
    let job = asked.job()?;
    let mut link = ScriptLink::new(alloc, script);
    new_links_are_in_step();
    let outcome = exchanged(rt, alloc, &mut link, &job, asked.version())?;
    Ok((outcome, link))
}

// What is printed of that.
fn told<R: Wait>(rt: &R, alloc: Global, asked: &Asked, script: Script) -> Result<String> {
    let (outcome, link) = followed(rt, alloc, asked, script)?;
    let said = said(alloc, &outcome)?;
    Ok(format!(in alloc;
        "{said}; {} bytes sent, {} given, {} faults",
        link.sent().len(),
        link.given().len(),
        link.faults(),
    )?)
}

/// `bytes`: what is given by these bytes.
pub fn bytes<R: Wait>(rt: &R, alloc: Global, asked: &Asked, bytes: Vec<u8>) -> Result<String> {
    told(rt, alloc, asked, script(alloc, bytes))
}

/// `message`: what is given by the frame of these bytes.
pub fn message<R: Wait>(rt: &R, alloc: Global, asked: &Asked, bytes: &[u8]) -> Result<String> {
    told(rt, alloc, asked, script(alloc, frame(alloc, bytes)?))
}

/// `with`, a place, and bytes: what is given by the reply with these bytes from that place on.
pub fn with<R: Wait>(
    rt: &R,
    alloc: Global,
    asked: &Asked,
    place: usize,
    bytes: &[u8],
) -> Result<String> {
    let mut changed = Vec::from_slice(alloc, asked.reply())?;
    for (other, &byte) in changed.iter_mut().skip(place).zip(bytes) {
        *other = byte;
    }
    message(rt, alloc, asked, &changed)
}

/// `most`: what is given by the reply, so many bytes in a call.
pub fn most<R: Wait>(rt: &R, alloc: Global, asked: &Asked, most: usize) -> Result<String> {
    let mut script = reply(alloc, asked)?;
    script.most = most;
    told(rt, alloc, asked, script)
}

/// `pieces`: over how many sizes of pieces, from one byte to the whole frame, the reply gives a table.
pub fn pieces<R: Wait>(rt: &R, alloc: Global, asked: &Asked) -> Result<String> {
    let whole = frame(alloc, asked.reply())?.len();
    let mut given = 0u64;
    for size in 0..whole {
        let mut script = reply(alloc, asked)?;
        script.most = size + 1;
        let (outcome, _) = followed(rt, alloc, asked, script)?;
        if outcome.is_ok() {
            given = given.saturating_add(1);
        }
    }
    Ok(format!(in alloc; "{given} of {whole} give a table")?)
}

/// `twice`: what is given by the reply, with itself after it.
pub fn twice<R: Wait>(rt: &R, alloc: Global, asked: &Asked) -> Result<String> {
    let mut script = reply(alloc, asked)?;
    script
        .bytes
        .extend_from_slice(&frame(alloc, asked.reply())?)?;
    told(rt, alloc, asked, script)
}

/// `beginnings`: over how many beginnings of the reply's frame the exchange finds the link closed after them.
pub fn beginnings<R: Wait>(rt: &R, alloc: Global, asked: &Asked) -> Result<String> {
    let whole = frame(alloc, asked.reply())?;
    let mut closed = 0u64;
    for length in 0..whole.len() {
        let bytes = Vec::from_slice(alloc, whole.get(..length).unwrap_or(&whole))?;
        let (outcome, _) = followed(rt, alloc, asked, script(alloc, bytes))?;
        if is_closed_after(&outcome, length as u64) {
            closed = closed.saturating_add(1);
        }
    }
    Ok(format!(in alloc; "{closed} of {} closed behind them", whole.len())?)
}

/// The calls of which one fails.
#[derive(Clone, Copy)]
pub enum Fails {
    Send,
    Receive,
}

/// `sends` and `receives`: what is given where one such call fails: the first, the second, and so on, until a table is given.
pub fn failing<R: Wait>(rt: &R, alloc: Global, asked: &Asked, fails: Fails) -> Result<String> {
    let mut text = String::new(alloc);
    for call in 0..MOST_CALLS {
        let mut script = reply(alloc, asked)?;
        match fails {
            Fails::Send => script.failing_sends.push(call)?,
            Fails::Receive => script.failing_receives.push(call)?,
        }
        let (outcome, link) = followed(rt, alloc, asked, script)?;
        let said = said(alloc, &outcome)?;
        write!(
            text,
            "\n{call}: {said}; {} bytes given, {} faults",
            link.given().len(),
            link.faults()
        )?;
        if outcome.is_ok() {
            break;
        }
    }
    Ok(text)
}

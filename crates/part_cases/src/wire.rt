//! What bytes spell, or what a worker without domains does with them. A case has the bytes, two hexadecimal digits each, but for
//! `long-entry`, which has how many pieces there are, and how many bytes each.

mod bytes;
mod changes;
mod messages;
mod parts;
mod serving;

use anyhow::{Result, bail};
use serving::Fails;
use std::alloc::Global;
use std::sync::Wait;

/// What is printed for a case: its word, and what it says. The words are `message`, `beginnings` and `changes` of
/// `messages`, and those of `serving`.
pub fn answer<R: Wait>(rt: &R, alloc: Global, word: &str, digits: &str) -> Result<String> {
    if word == "long-entry" {
        return long_entry(alloc, digits);
    }
    let bytes = bytes::bytes_of(alloc, digits)?;
    let said = match word {
        "message" => messages::message(alloc, &bytes)?,
        "beginnings" => messages::beginnings(alloc, &bytes)?,
        "changes" => messages::changes(alloc, &bytes)?,
        "worker" => serving::worker(rt, alloc, &bytes)?,
        "worker-beginnings" => serving::beginnings(rt, alloc, &bytes)?,
        "worker-changes" => serving::changes(rt, alloc, &bytes)?,
        "worker-reads" => serving::failing(rt, alloc, &bytes, Fails::Read)?,
        "worker-writes" => serving::failing(rt, alloc, &bytes, Fails::Write)?,
        _ => bail!("no such word"),
    };
    Ok(format!(in alloc; "{word}: {said}")?)
}

fn long_entry(alloc: Global, text: &str) -> Result<String> {
    let Some((pieces, size)) = text.split_once(' ') else {
        bail!("two numbers are wanted");
    };
    let said = parts::long_entry(alloc, pieces.parse()?, size.parse()?)?;
    Ok(format!(in alloc; "long-entry: {said}")?)
}

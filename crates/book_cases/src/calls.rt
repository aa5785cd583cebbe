use anyhow::{Context, Result, bail};
use px_base::ProcId;
use px_pieces::{Lost, Who};

/// What a book is asked.
#[derive(Clone, Copy)]
pub enum Call {
    Claim(Who),
    /// The job that was claimed under a ticket is published under this one.
    Publish { ticket: u64, claimed: u64 },
    /// The job that was claimed under the ticket, but with another body, is published under it.
    Other { ticket: u64 },
    Lose { ticket: u64, why: Lost },
    Status(ProcId),
    Settled(ProcId),
    Held,
    Agrees(Change),
    /// For how many publications all receipts stand.
    Receipts,
    Finish,
    /// The parent claims and publishes as long as it is given something.
    Run,
}

/// How the parts differ from those of which the book was made.
#[derive(Clone, Copy, PartialEq, Eq)]
pub enum Change {
    Same,
    Body,
    Limits,
    Kinds,
    Kept,
    Out,
}

/// A word, and what it takes, with blanks between them. A publication of another job names its ticket after `of`.
pub fn call_of(text: &str) -> Result<Call> {
    let (word, rest) = text.split_once(' ').unwrap_or((text, ""));
    Ok(match word {
        "claim" => Call::Claim(who(rest)?),
        "publish" => publication(rest)?,
        "other" => Call::Other {
            ticket: rest.parse()?,
        },
        "lose" => lost(rest)?,
        "status" => Call::Status(ProcId(rest.parse()?)),
        "settled" => Call::Settled(ProcId(rest.parse()?)),
        "held" => Call::Held,
        "agrees" => Call::Agrees(change_of(rest)?),
        "receipts" => Call::Receipts,
        "finish" => Call::Finish,
        "run" => Call::Run,
        _ => bail!("no such call"),
    })
}

fn who(text: &str) -> Result<Who> {
    if text == "parent" {
        return Ok(Who::Parent);
    }
    Ok(Who::Worker(text.parse()?))
}

fn publication(text: &str) -> Result<Call> {
    let (ticket, claimed) = text.split_once(" of ").unwrap_or((text, text));
    Ok(Call::Publish {
        ticket: ticket.parse()?,
        claimed: claimed.parse()?,
    })
}

fn lost(text: &str) -> Result<Call> {
    let (ticket, why) = text.split_once(' ').context("no cause")?;
    Ok(Call::Lose {
        ticket: ticket.parse()?,
        why: cause(why)?,
    })
}

fn cause(text: &str) -> Result<Lost> {
    let (word, rest) = text.split_once(' ').unwrap_or((text, ""));
    Ok(match word {
        "send" => Lost::Send,
        "read" => Lost::Read,
        "closed" => Lost::Closed(rest.parse()?),
        "frame" => Lost::Frame,
        "kinds" => Lost::Kinds,
        "large" => Lost::Large,
        "memory" => Lost::NoMemory,
        _ => bail!("no cause"),
    })
}

fn change_of(text: &str) -> Result<Change> {
    Ok(match text {
        "" => Change::Same,
        "body" => Change::Body,
        "limits" => Change::Limits,
        "kinds" => Change::Kinds,
        "kept" => Change::Kept,
        "out" => Change::Out,
        _ => bail!("no change"),
    })
}

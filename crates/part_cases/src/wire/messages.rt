use super::changes::{CHANGES, changed};
use super::parts::{come_together, come_together_at_each_cut, come_together_in_pieces};
use anyhow::{Result, bail};
use px_spelling::WireFault;
use px_wire::{Said, decode, encode, length};
use std::alloc::Global;
use std::fmt::Write;

/// How many bytes of a message share a line.
const A_LINE: usize = 16;

/// What bytes are read as; and whether they are written so again, and counted, and their parts, if they are a worker's message, are
/// those of the message.
#[derive(Clone, Copy)]
enum Spelled {
    Request,
    Reply,
    Large,
    Otherwise,
    Nothing,
}

fn read_as(alloc: Global, bytes: &[u8]) -> Result<Spelled> {
    let message = match decode(alloc, bytes) {
        Ok(message) => message,
        Err(WireFault::NotAMessage) => {
            let none = come_together(alloc, bytes, false)?;
            return Ok(if none {
                Spelled::Nothing
            } else {
                Spelled::Otherwise
            });
        }
        Err(WireFault::NoMemory) => bail!("no memory"),
    };
    let is_request = matches!(message.said(), Said::Request { .. });
    if !come_together(alloc, bytes, !is_request)? {
        return Ok(Spelled::Otherwise);
    }
    let again = encode(alloc, &message)?;
    if again.as_slice() != bytes {
        return Ok(Spelled::Otherwise);
    }
    if length(&message) != bytes.len() as u64 {
        return Ok(Spelled::Otherwise);
    }
    Ok(match message.said() {
        Said::Request { .. } => Spelled::Request,
        Said::Reply { .. } => Spelled::Reply,
        Said::Large { .. } => Spelled::Large,
    })
}

/// What a message is. Wherever it is cut in two, and in small pieces, its parts are the same.
pub fn message(alloc: Global, bytes: &[u8]) -> Result<String> {
    let spelled = read_as(alloc, bytes)?;
    let is_one = matches!(spelled, Spelled::Reply | Spelled::Large);
    if !come_together_at_each_cut(alloc, bytes, is_one)?
        || !come_together_in_pieces(alloc, bytes, is_one)?
    {
        bail!("a cut changes the parts");
    }
    let said = match spelled {
        Spelled::Request => "request",
        Spelled::Reply => "reply",
        Spelled::Large => "large",
        Spelled::Otherwise => "written otherwise",
        Spelled::Nothing => "no message",
    };
    Ok(String::from_str(alloc, said)?)
}

/// How many beginnings of a message there are, the empty one among them, and how many of them are messages.
pub fn beginnings(alloc: Global, bytes: &[u8]) -> Result<String> {
    let mut messages = 0u64;
    for length in 0..bytes.len() {
        let beginning = bytes.get(..length).unwrap_or(bytes);
        match read_as(alloc, beginning)? {
            Spelled::Nothing => {}
            _ => messages = messages.saturating_add(1),
        }
    }
    Ok(format!(in alloc; "{} beginnings, {messages} messages", bytes.len())?)
}

/// What a message is with each of its bytes changed: of each byte a letter for each change.
pub fn changes(alloc: Global, bytes: &[u8]) -> Result<String> {
    let mut text = String::new(alloc);
    for place in 0..bytes.len() {
        text.push(if place % A_LINE == 0 { '\n' } else { ' ' })?;
        if place % A_LINE == 0 {
            write!(text, "{place}: ")?;
        }
        for change in CHANGES {
            let changed = changed(alloc, bytes, place, change)?;
            text.push(letter(read_as(alloc, &changed)?))?;
        }
    }
    Ok(text)
}

fn letter(spelled: Spelled) -> char {
    match spelled {
        Spelled::Request => 'q',
        Spelled::Reply => 'p',
        Spelled::Large => 'l',
        Spelled::Otherwise => '!',
        Spelled::Nothing => '-',
    }
}

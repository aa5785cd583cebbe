ghost use Rattle.std.specs.Prelude.{◌≡◌, ◌≤◌, true, length, Some};
ghost use Rattle.px_pool.specs.Talks.{is_end};

use crate::{Link, Script};
use px_io::Failed;
use px_pieces::Unknown;
use std::alloc::Global;
use std::sync::Wait;

/// A link in memory that follows a script and takes whatever it is sent. A call of `receive` that may give nothing,
/// though there is room and bytes are left, is a fault. A call of `send` that fails sends nothing.
#[derive(Drop)]
pub struct ScriptLink {
    script: Script,
    sent: Vec<u8>,
    // How many bytes of the script were given.
    at: usize,
    ended: bool,
    sends: u64,
    receives: u64,
    faults: u64,
    ghost within: { at ≤ length script.bytes.items },
    // It ends after the last byte alone.
    ghost ends: { ended ≡ true → at ≡ length script.bytes.items },
}

impl ScriptLink {
    ghost use Rattle.px_pool.specs.ScriptLink.{talk_of, left, given_at_once, receive_fails, IsNew};

    /// A link over which nothing passed. Takes no memory.
    pub fn new(alloc: Global, script: Script) -> ScriptLink
        ensures { IsNew result script }
    {
        ScriptLink {
            script,
            sent: Vec::new(alloc),
            at: 0,
            ended: false,
            sends: 0,
            receives: 0,
            faults: 0,
        }
    }

    /// The bytes that it was sent.
    pub fn sent(&self) -> &[u8]
        ensures { result.now ≡ (talk_of self.now).sent }
    {
        &self.sent
    }

    /// The bytes that it gave.
    pub fn given(&self) -> &[u8]
        ensures { result.now ≡ (talk_of self.now).given }
    {
        &self.script.bytes[..self.at]
    }

    // The bytes that are still to come.
    fn left(&self) -> &[u8]
        ensures { result.now ≡ left self.now }
    {
        &self.script.bytes[self.at..]
    }

    // How many bytes a call gives that has room for so many.
    fn given_at_once(&self, room: usize) -> usize
        ensures { result ≡ given_at_once self.now room }
    {
        room.min(self.script.most).min(self.left().len())
    }

    // Whether a call with room for so many bytes fails now.
    fn receive_fails(&self, room: usize) -> bool
        ensures { result ≡ receive_fails self.now room }
    {
        self.script.failing_receives.contains(&self.receives)
            || (self.given_at_once(room) == 0 && room > 0 && !self.left().is_empty())
    }
}

impl Link for ScriptLink {
    ghost use Rattle.px_pool.specs.ScriptLink.{talk_of, Takes, Gives};

    type Word = Unknown;

    ghost told = { λ s. Some (talk_of s) };

    ghost takes = { Takes };

    ghost answers = { Gives };

    ghost count = { λ s. s.faults };

    fn faults(&self) -> u64 {
        self.faults
    }

    fn send<R: Wait>(&mut self, _rt: &R, bytes: &[u8]) -> Result<(), Failed> {
        let fails = self.script.failing_sends.contains(&self.sends);
        self.sends = self.sends.saturating_add(1);
        if fails {
            self.faults = self.faults.saturating_add(1);
            return Err(Failed);
        }
        match self.sent.extend_from_slice(bytes) {
            Ok(()) => Ok(()),
            Err(_) => {
                self.faults = self.faults.saturating_add(1);
                Err(Failed)
            }
        }
    }

    fn receive<R: Wait>(&mut self, _rt: &R, into: &mut [u8]) -> Result<usize, Failed> {
        let fails = self.receive_fails(into.len());
        let count = self.given_at_once(into.len());
        self.receives = self.receives.saturating_add(1);
        if fails {
            self.faults = self.faults.saturating_add(1);
            return Err(Failed);
        }
        into[..count].copy_from_slice(&self.left()[..count]);
        self.at += count;
        self.ended |= is_end(count, into.len());
        Ok(count)
    }
}

// Whether so many bytes, given where there is so much room, are the end.
fn is_end(count: usize, room: usize) -> bool
    ensures { result ≡ is_end count room }
{
    count == 0 && room > 0
}

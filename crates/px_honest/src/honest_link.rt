ghost use Rattle.std.specs.Prelude.{◌≡◌, ◌≤◌, ◌&&◌, nat_eq, nat_lt, min, map, length, ⊤, Some, IfOk, OnOk, OnErr};
ghost use Rattle.px_io.specs.Faults.{HasCause};
ghost use Rattle.px_symexec.specs.Tables.{IsTable};
ghost use Rattle.px_worker.specs.Served.{IsBegun};
ghost use Rattle.px_pool.specs.Talks.{sends, gives, followed_by, SendsPart};
ghost use Rattle.px_pool.specs.Words.{IsWordKept};
ghost use Rattle.px_honest.specs.HonestLinks.{new_link, at_most, ready};

use crate::domains::kinds_of;
use crate::worker::hand_on;
use crate::written::Written;
use px_io::Failed;
use px_pieces::Honest;
use px_pool::Link;
use px_terms::{Domain, Items, NoMemory};
use px_worker::{Course, replies_are_analyses};
use std::alloc::Global;
use std::marker::Model;
use std::sync::Wait;

/// A link to a worker that runs in place: what is sent is answered before the call is over.
///
/// Where nothing is left to give, a real worker would wait for more. Here nothing more can come, so that is the end; and
/// after an end there is nothing. A worker that has stopped still takes bytes. A send fails for want of memory alone.
#[derive(Drop)]
pub struct HonestLink {
    alloc: Global,
    // The worker knows the versions from 1 to this one.
    known: u8,
    domains: Vec<Box<dyn Domain>>,
    // Their numbers.
    kinds: Items<u8>,
    course: Course,
    // The worker has stopped. What it wrote before is still given.
    stopped: bool,
    sent: Vec<u8>,
    written: Written,
    // How many of the bytes that were written it gave.
    given: usize,
    dies_at: Option<u64>,
    ended: bool,
    faults: u64,
}

impl Model for HonestLink {
    ghost use Rattle.std.specs.Prelude.{take};
    ghost use Rattle.px_honest.specs.HonestLinks.{HonestParts, IsKept};

    ghost Value = { HonestParts };

    ghost view = { λ l. record { known = l.known; kinds = l.kinds; talk = record { sent = l.sent.items; given = take l.given l.written.bytes.items; ended = l.ended }; written = l.written.bytes.items; dies_at = l.dies_at; faults = l.faults } };

    ghost invariant = { λ l. IsKept l.known l.kinds l.sent.items l.written.bytes.items l.course l.stopped l.given l.dies_at };
}

impl HonestLink {
    /// A link to a worker that knows the versions from 1 to this one, which is 1 or 2, with these domains, which stand by
    /// rising kinds. Over it so many bytes are given at most: after them it is dead.
    pub fn new(
        alloc: Global,
        domains: Vec<Box<dyn Domain>>,
        known: u8,
        dies_at: Option<u64>,
    ) -> Result<HonestLink, NoMemory>
        requires { 0 ≤ length domains.items }
        ensures { IfOk result (λ l. l ≡ new_link known (map (λ b. number b) domains.items) dies_at) }
    {
        let kinds = kinds_of(alloc, &domains)?;
        Ok(HonestLink {
            alloc,
            known,
            domains,
            kinds,
            course: Course::new(alloc),
            stopped: false,
            sent: Vec::new(alloc),
            written: Written::new(alloc),
            given: 0,
            dies_at,
            ended: false,
            faults: 0,
        })
    }

    /// The bytes that it gave: a beginning of what its worker owes for what it was sent. Takes no memory.
    pub fn given(&self) -> &[u8]
        ensures bytes { result.now ≡ self.now.talk.given }
        ensures begun { IsBegun self.now.known self.now.kinds self.now.talk.sent result.now }
    {
        &self.written.bytes[..self.given]
    }

    /// Its worker dies: after what it gave comes the end. Takes no memory.
    pub fn die(&mut self)
        requires { 0 ≤ length self.old.talk.given }
        ensures talk { self.new.talk ≡ self.old.talk }
        ensures faults { self.new.faults ≡ self.old.faults }
    {
        self.dies_at = Some(self.given as u64);
    }

    // How many bytes it can give now.
    fn ready(&self) -> usize
        ensures { result ≡ ready self.now }
    {
        if self.ended {
            return 0;
        }
        at_most(self.dies_at, self.written.bytes.len()) - self.given
    }

    /// Hands bytes to the worker. Without memory to note them, none is sent.
    pub fn put(&mut self, bytes: &[u8]) -> Result<(), Failed>
        requires { 0 ≤ length bytes.now }
        ensures sent { OnOk result (self.new.talk ≡ followed_by self.old.talk (sends bytes.now)) }
        ensures part { OnErr result (SendsPart (Some self.old.talk) (Some self.new.talk) bytes.now) }
        ensures cause { HasCause self.old.faults self.new.faults result }
    {
        if self.sent.extend_from_slice(bytes).is_err() {
            self.faults = self.faults.saturating_add(1);
            return Err(Failed);
        }
        if self.stopped {
            return Ok(());
        }
        self.stopped = hand_on(
            self.alloc,
            self.known,
            self.kinds.as_slice(),
            &mut self.course,
            bytes,
            &mut self.written,
            &mut self.domains,
        );
        Ok(())
    }

    /// Puts the next bytes at the front of the slice, and says how many. None, where there is room, is the end.
    pub fn give(&mut self, into: &mut [u8]) -> usize
        requires { 0 ≤ length into.old }
        ensures count { result ≡ min (length into.old) (ready self.old) }
        ensures room { length into.new ≡ length into.old }
        ensures given { self.new.talk ≡ followed_by self.old.talk (gives result into.new) }
        ensures word { IsWordKept IsTable (Some self.new.talk) }
        ensures faults { self.new.faults ≡ self.old.faults }
    {
        replies_are_analyses();
        let count = into.len().min(self.ready());
        into[..count].copy_from_slice(&self.written.bytes[self.given..self.given + count]);
        self.given += count;
        self.ended |= is_end(count, into.len());
        count
    }
}

// Whether so many bytes are the end, where there was room for so many.
fn is_end(count: usize, room: usize) -> bool
    ensures { result ≡ (nat_eq count 0 && nat_lt 0 room) }
{
    count == 0 && room > 0
}

// A length, or the most where that is less.
fn at_most(most: Option<u64>, length: usize) -> usize
    ensures { result ≡ at_most most length }
{
    match most {
        Some(most) => length.min(most as usize),
        None => length,
    }
}

impl Link for HonestLink {
    type Word = Honest;

    ghost told = { λ l. Some l.talk };

    ghost takes = { λ l bytes answer m. ⊤ };

    ghost answers = { λ l room answer m. ⊤ };

    ghost count = { λ l. l.faults };

    fn faults(&self) -> u64 {
        self.faults
    }

    fn send<R: Wait>(&mut self, _rt: &R, bytes: &[u8]) -> Result<(), Failed> {
        self.put(bytes)
    }

    fn receive<R: Wait>(&mut self, _rt: &R, into: &mut [u8]) -> Result<usize, Failed> {
        Ok(self.give(into))
    }
}

ghost use Rattle.std.specs.Prelude.{◌≡◌, IfNone, IfSome};
ghost use Rattle.px_wire.specs.Messages.{said_tree, message_bytes};
ghost use Rattle.px_wire.specs.Versions.{message_tree, bytes_in};
ghost use Rattle.px_wire.specs.Mentions.{terms_of};

use px_callgraph::Job;
use px_entry::{Derivation, Table};
use px_spelling::TermList;
use px_terms::Items;
use std::alloc::Global;
use std::marker::Model;

/// The version of the bytes in which each polynomial is spelled in full.
pub const VERSION: u8 = 1;
/// The version in which each polynomial is sent once.
pub const SHARED: u8 = 2;

/// What the parent and a worker say to each other.
#[derive(Drop)]
pub enum Said {
    /// A procedure to analyse.
    Request {
        job: Job,
    },
    /// What a worker found.
    Reply {
        /// That of the job.
        ticket: u64,
        /// The kinds of the worker's own domains, in order.
        kinds: Items<u8>,
        table: Table,
        /// One for each entry of the table, in order.
        derivations: Items<Derivation>,
    },
    /// A reply that is too long for a frame.
    Large {
        /// That of the job.
        ticket: u64,
    },
}

/// What is said, and in which version of the bytes.
///
/// In version 2 it has the list of its terms: each polynomial that it mentions, once, in the order of their first mentions.
#[derive(Drop)]
pub struct Message {
    alloc: Global,
    said: Said,
    terms: Option<TermList>,
}

impl Model for Message {
    ghost use Rattle.px_wire.specs.Versions.{Sent, sent, HasTerms};

    ghost Value = { Sent };

    ghost use Rattle.px_core.specs.contracts.command.Command as command;
    ghost use Rattle.std.specs.Coded.{codes};

    ghost coded = { Prim.hlevel (codes, command.the_row.coded) };

    ghost view = { λ m. sent m.said m.terms };

    ghost invariant = { λ m. HasTerms m.said m.terms };
}

impl Message {
    /// A message in version 1. Takes no memory.
    pub fn new(alloc: Global, said: Said) -> Message
        ensures same { result ≡ record { version = 1; said = said } }
        ensures bytes { bytes_in result.version (message_tree result) ≡ message_bytes (said_tree said) }
    {
        Message {
            alloc,
            said,
            terms: None,
        }
    }

    /// A message in version 2, with its terms. Takes no memory.
    pub(crate) fn with_terms(alloc: Global, said: Said, terms: TermList) -> Message
        requires { terms ≡ terms_of (said_tree said) }
        ensures { result ≡ record { version = 2; said = said } }
    {
        Message {
            alloc,
            said,
            terms: Some(terms),
        }
    }

    /// The version of its bytes. Takes no memory.
    pub fn version(&self) -> u8
        ensures { result ≡ self.now.version }
    {
        match &self.terms {
            None => VERSION,
            Some(_) => SHARED,
        }
    }

    /// Its terms, in version 2. Takes no memory.
    pub fn terms(&self) -> Option<&TermList>
        ensures full { IfNone result (self.now.version ≡ 1) }
        ensures shared { IfSome result (λ ts. (self.now.version ≡ 2) × (ts.now ≡ terms_of (said_tree self.now.said))) }
    {
        self.terms.as_ref()
    }

    /// Its allocator. Takes no memory.
    pub(crate) fn alloc(&self) -> Global {
        self.alloc
    }

    /// What it says. Takes no memory.
    pub fn said(&self) -> &Said
        ensures { result.now ≡ self.now.said }
    {
        &self.said
    }

    /// What it says. Takes no memory.
    pub fn into_said(self) -> Said
        ensures { result ≡ self.said }
    {
        let Message {
            alloc: _,
            said,
            terms: _,
        } = self;
        said
    }
}

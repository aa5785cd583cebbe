ghost use Rattle.std.specs.Prelude.{◌≡◌, []};
ghost use Rattle.px_frames.specs.Feeding.{holds, IsFed};

use crate::FeedFault;
use crate::stages::{Stage, start, step};
use std::alloc::Global;
use std::marker::Model;
use std::mem;

/// What a piece gave.
#[derive(Drop)]
pub enum Fed {
    /// A message, and how many bytes of the piece were used for it. The others are to be fed again.
    Whole { message: Vec<u8>, taken: u64 },
    /// Nothing yet: all bytes of the piece are kept.
    Held,
}

/// Finds the messages in bytes that come in pieces, one after another.
///
/// The room of a message is taken when its length is known; until it is whole, nothing more is.
#[derive(Drop)]
pub struct Feeder {
    alloc: Global,
    stage: Stage,
}

impl Model for Feeder {
    ghost use Rattle.px_frames.specs.Feeding.{Feeding};
    ghost use Rattle.px_frames.specs.Stages.{feeding_of, IsKept};

    ghost Value = { Feeding };

    ghost view = { λ f. feeding_of f.stage };

    ghost invariant = { λ f. IsKept f.stage };
}

impl Feeder {
    /// A feeder that was fed nothing. Takes no memory.
    pub fn new(alloc: Global) -> Feeder
        ensures { result ≡ holds [] }
    {
        Feeder {
            alloc,
            stage: start(),
        }
    }

    /// Takes a piece up to the end of the first message.
    ///
    /// `Held` comes exactly where the bytes so far are fewer than the frame needs. `TooLong` comes exactly where
    /// four length bytes are there and name more than 16,777,216, and from then on. After `NoMemory`, which comes
    /// only where the length was not known before, the feeder is as it was.
    pub fn feed(&mut self, piece: &[u8]) -> Result<Fed, FeedFault>
        ensures { IsFed self.old piece.now result self.new }
    {
        let stage = mem::replace(&mut self.stage, start());
        let (stage, answer) = step(self.alloc, stage, piece);
        self.stage = stage;
        answer
    }
}

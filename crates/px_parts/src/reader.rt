ghost use Rattle.std.specs.Prelude.{◌≡◌, []};
ghost use Rattle.px_parts.specs.Places.{Start};
ghost use Rattle.px_parts.specs.Taking.{waits, IsTaken};

use crate::Taken;
use crate::next::Next;
use crate::skim::Skim;
use crate::unread::{Unread, take_piece};
use px_spelling::WireFault;
use std::alloc::Global;
use std::marker::Model;

/// Reads the parts of one message of a worker, whose bytes come in pieces.
///
/// It keeps the bytes of one unfinished part and of a piece, and, in version 2, the terms of the message. An unfinished part is passed
/// over as its bytes come, without a look at what they say, and read when all are there: so the time is as the number of bytes, however they
/// are cut. The list of terms belongs to the head, and each polynomial behind it is looked up there.
#[derive(Drop)]
pub struct Reader {
    alloc: Global,
    unread: Unread,
    refused: bool,
}

impl Model for Reader {
    ghost use Rattle.std.specs.Prelude.{◌≤◌, length};
    ghost use Rattle.px_parts.specs.Taking.{Waiting};
    ghost use Rattle.px_parts.specs.Kept.{place_in, held_in, kept_by};
    ghost use Rattle.px_parts.specs.Skims.{IsSkim};

    ghost Value = { Waiting };

    ghost view = { λ r. kept_by r.refused r.unread };

    ghost invariant = { λ r. (r.unread.start ≤ length r.unread.held.items) × IsSkim (place_in r.unread) (held_in r.unread) r.unread.skim };
}

impl Reader {
    /// A reader of a message of so many bytes, of which none was taken. Takes no memory.
    pub fn new(alloc: Global, length: u32) -> Reader
        ensures { result ≡ waits Start [] length }
    {
        Reader {
            alloc,
            unread: Unread {
                next: Next::Start,
                terms: None,
                held: Vec::new(alloc),
                start: 0,
                left: length,
                skim: Skim::new(alloc),
                expected: 0,
            },
            refused: false,
        }
    }

    /// Takes a piece, as far as it belongs to the message, and gives the next part that is whole.
    ///
    /// `End` comes exactly where no byte of the message is missing, they are a message, and all its parts were given.
    /// `NotAMessage` comes only where no reply and no word that one is too long begins with the bytes taken and is as long, at the
    /// latest where none is missing, and from then on. `Held` comes exactly where no further part is whole and neither of these
    /// comes. After `NoMemory` the reader is as it was.
    pub fn take(&mut self, piece: &[u8]) -> Result<Taken, WireFault>
        ensures { IsTaken self.old piece.now result self.new }
    {
        if self.refused {
            return Err(WireFault::NotAMessage);
        }
        match take_piece(self.alloc, &mut self.unread, piece) {
            Ok(taken) => Ok(taken),
            Err(WireFault::NotAMessage) => {
                self.refused = true;
                Err(WireFault::NotAMessage)
            }
            Err(WireFault::NoMemory) => Err(WireFault::NoMemory),
        }
    }
}

use px_entry::{Derivation, Entry, Gap};
use px_terms::Items;

/// What a piece of a message gave.
#[derive(Drop)]
pub enum Part {
    /// Nothing yet: all bytes of the piece are taken, and no further part is whole.
    Held,
    /// What stands before the table of a reply.
    Head {
        version: u8,
        ticket: u64,
        kinds: Items<u8>,
    },
    Entry(Entry),
    Drop(Gap),
    Derivation(Derivation),
    /// The reply under this ticket is too long for a frame.
    Large {
        version: u8,
        ticket: u64,
    },
    /// All bytes were taken, and are a message, of which all other parts were given.
    End,
}

/// What a piece gave, and how many of its bytes were taken. The others are to be handed in again.
#[derive(Drop)]
pub struct Taken {
    pub part: Part,
    pub taken: u64,
}

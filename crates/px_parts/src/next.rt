/// What comes next in a message.
#[derive(Clone, Copy)]
pub(crate) enum Next {
    /// Which message it is, and its version.
    Start,
    /// The ticket and kinds of a reply.
    Head,
    /// The list of its terms, and then these.
    ListedHead,
    /// The ticket of a reply that is too long.
    Large { version: u8 },
    /// How many entries there are.
    EntryCount,
    /// So many entries, where so many terms were named. Then there are at most so many drops.
    Entries { left: u32, rows: u32, named: usize },
    /// How many drops there are, at most so many.
    DropCount { rows: u32, named: usize },
    /// So many drops.
    Drops { left: u32, named: usize },
    /// How many derivations there are.
    DerivationCount,
    /// So many derivations.
    Derivations { left: u32 },
    /// Nothing.
    Over,
}

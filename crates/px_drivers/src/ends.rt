use px_book::Receipt;
use px_terms::Items;
use std::sync::ledger::Ledger;

/// Why a worker was left, though there may be work to do.
#[derive(Clone, Copy, Debug, PartialEq, Eq)]
pub enum Leaving {
    /// Its link could not be started.
    Start,
    /// It lost its fourth link.
    Losses,
    /// A claim for it found no memory.
    NoMemory,
}

/// What rounds come to.
#[derive(Drop)]
pub struct Rounds<L: Ledger> {
    /// Of each worker that published, its receipts, joined into one.
    pub receipts: Items<Receipt<L>>,
    /// The numbers of the workers that were left, and why.
    pub left: Items<(u32, Leaving)>,
}

use px_base::{Limits, ProcId};
use px_core::Body;
use px_entry::Table;
use px_terms::{BlockType, Items};

/// What is known of a procedure that a body calls.
pub enum Callee {
    Table(Table),
    /// It leads back to the caller.
    Cycle,
    /// It was left out.
    LeftOut,
    /// Nothing is known of it.
    Unknown,
}

/// A procedure to analyse, with all that its table depends on.
#[derive(Drop)]
pub struct Job {
    pub proc: ProcId,
    pub body: Body,
    pub types: Items<BlockType>,
    /// What the body calls, in the order of the numbers.
    pub callees: Items<(ProcId, Callee)>,
    pub limits: Limits,
    /// The kinds of the domains, in order.
    pub kinds: Items<u8>,
    /// Says which claim this job is; the table doesn't depend on it.
    pub ticket: u64,
}

impl Drop for Callee {
    fn drop(self) {
        match self {
            Callee::Table(_) | Callee::Cycle | Callee::LeftOut | Callee::Unknown => {}
        }
    }
}

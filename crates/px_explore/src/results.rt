use px_entry::{Derivation, Entry, Gap, Table};
use px_terms::Items;

/// The table of a job, and for each entry, in order, the derivation of it.
#[derive(Drop)]
pub struct Analysis {
    pub table: Table,
    pub derivations: Items<Derivation>,
}

/// The same, and how many live prefixes were numbered, with the end where there is one.
#[derive(Drop)]
pub struct Counted {
    pub table: Table,
    pub derivations: Items<Derivation>,
    pub live: usize,
}

// What was found so far, with the numbers of live prefixes and of ended cases.
#[derive(Drop)]
pub(crate) struct SearchResult {
    pub(crate) entries: Items<Entry>,
    pub(crate) derivations: Items<Derivation>,
    pub(crate) drops: Items<Gap>,
    pub(crate) live: u32,
    pub(crate) ended: u32,
}

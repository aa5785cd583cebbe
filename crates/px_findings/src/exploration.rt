use px_entry::Derivation;
use px_pieces::{Findings, Part};
use px_terms::Items;

/// How the table of a procedure was found.
#[derive(Drop)]
pub struct Exploration {
    /// For each entry, in order, the steps that derive it.
    pub derivations: Items<Derivation>,
    /// How many live prefixes were numbered, with the end where there is one.
    pub live: usize,
}

/// What is found out of a program, and beside each part, in order, how its table was found. Beside a part without a table
/// there is nothing.
#[derive(Drop)]
pub struct Analyses {
    pub findings: Findings,
    pub explorations: Items<Option<Exploration>>,
}

/// A part with a table, and how this was found.
#[derive(Drop)]
pub(crate) struct Analysed {
    pub(crate) part: Part,
    pub(crate) exploration: Exploration,
}

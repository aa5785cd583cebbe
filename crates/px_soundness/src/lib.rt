//! No code: laws by which what derives from a job is true of executions. Such an entry is regular, a valid triple and
//! true of its own values, where the tables of the called are, or were built so from below.
#![tactic(auto)]

mod laws;

pub use laws::{built_entries_are_valid, checked_are_valid, entries_are_valid, worked_triples};

//! Entries that every calling state can take, and the bugs among them, as an entry alone shows. `asks_nothing` and
//! `looks_manifest` are exact; what asks nothing is taken from every calling state, and what looks manifest is manifest, where
//! the entry is regular, valid and true of its own values.
#![tactic(auto)]

mod laws;
mod looks;

pub use laws::{asking_nothing_is_taken, looks_are_right, tests_decide};
pub use looks::{asks_nothing, looks_manifest};

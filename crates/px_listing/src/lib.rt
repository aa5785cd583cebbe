//! Lists what was inferred of each procedure of files, its entries and drops, for people who want to look. It is proved
//! safe, and promises no more.
#![tactic(auto)]

mod entries;
mod listing;
mod program;
mod terms;

pub use program::run;

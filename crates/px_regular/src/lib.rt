//! Regular entries: what can be said of any path of a procedure, whoever claims to have found it. `is_regular` is
//! exact; a call asks it of the entry that it goes by.
#![tactic(auto)]

mod blocks;
mod regular;
mod uses;
mod variables;

pub use regular::is_regular;

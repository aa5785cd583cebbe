//! No code: laws of what is found out of the program that files say, whatever the files. Entries are true, reported
//! bugs are manifest and none that looks so is missing, tables cover executions, no function goes without a line, and
//! one thing is found.
#![tactic(auto)]

mod laws;

pub use laws::{findings_are_sound_and_cover, one_is_found};

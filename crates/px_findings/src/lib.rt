//! What is found out of a program: each kept procedure is lowered and analysed, what it calls outside its cycles first,
//! and each entry is checked by its derivation. `findings` gives the tables that one process makes of the program, and
//! `analyses` also the derivations. `desk_parts` are what a book of the program is made of.
#![tactic(auto)]

mod bodies;
mod checks;
mod desk;
mod exploration;
mod jobs;
mod kinds;
mod order;
mod plan;
mod planning;
mod program;
mod progress;

pub use checks::check_all;
pub use desk::{DeskParts, desk_parts};
pub use exploration::{Analyses, Exploration};
pub use jobs::piece_of;
pub use kinds::kinds_of;
pub use order::{Turn, turns_of};
pub use program::{analyses, findings};

//! Leaks: blocks that a path of a procedure gets and that are live when it returns, and that neither its result nor its caller reaches.
//! `leaks` is exactly the definition's list, of those that every calling state can take, and the laws say that each is one;
//! `render` is their text, byte for byte.
#![tactic(auto)]

mod got;
mod laws;
mod losses;
mod pointers;
mod reach;
mod texts;
mod told;

pub use laws::{leaks_are_of_entries, leaks_are_right, losses_are_exact, worked_leaks};
pub use texts::render;
pub use told::{Leak, leaks};

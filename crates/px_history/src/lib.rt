//! What was put somewhere, one item after another, for proofs alone: a history takes no memory and nothing is done for it
//! when the program runs. `and` gives the history with one item more.
#![tactic(auto)]

mod history;

pub use history::History;

//! Plain conjuncts, exactly: what equates or tells apart a variable, or the difference of two, and a constant, or two
//! places. `sat` gives the least valuation that fits and makes them true, or the answer that there is none.
//!
//! `Stack` is the same answer for a list that is pushed and popped, without the valuation.
#![tactic(auto)]

mod changes;
mod claims;
mod classes;
mod exclusions;
mod forest;
mod marks;
mod merging;
mod nodes;
mod places;
mod plain;
mod reading;
mod solve;
mod stack;
mod trees;
mod values;
mod words;

pub use classes::word_classes;
pub use forest::{flatten, join, roots};
pub use nodes::Node;
pub use plain::{Plain, Values, sat};
pub use reading::is_plain;
pub use stack::Stack;

//! The strongly connected components of a directed graph. Two nodes have the same number exactly where each reaches the
//! other; the numbers are dense, and each edge leads to the same or a lower one.
#![tactic(auto)]

mod components;
mod graph;
mod search;

pub use components::Components;
pub use graph::Graph;

//! What a C program does: values, heaps, calling states, executions of typed trees and of the core, and when a bug is
//! manifest. Every other promise is stated over these definitions, and laws show that they mean something.
//!
//! The definitions stand in `specs/`; docs/MEANING.md explains them one by one. The code here is the laws: each is the
//! contract of a function with an empty body.
#![tactic(auto)]

mod fuller;
mod laws;

pub use fuller::Fuller;
pub use laws::{
    bounds_widen, events_determine, events_have_marks, fuller_meanings, heaps_grow,
    traces_are_whole, tree_bounds_widen, tree_events_determine, tree_events_have_marks,
    tree_heaps_grow, tree_traces_are_whole, tree_types_stay, types_stay, worked_cuts,
    worked_divisions, worked_executions, worked_list_execution, worked_tree_executions,
};

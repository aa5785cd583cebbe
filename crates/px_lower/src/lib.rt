//! Lowering: the core's commands for the typed tree of a procedure. `lower` gives exactly the body of the definition;
//! bodies do what the trees do, both ways, and are typed and well-formed, with constants in range.
//!
//! `specs/` has the definition, a function on plain trees.
#![tactic(auto)]

mod bodies;
mod commands;
mod expressions;
mod fault;
mod laws;
mod put;
mod simple;
mod statements;

pub use bodies::{MOST_COMMANDS, lower};
pub use fault::LowerFault;
pub use laws::{bodies_keep, lowering_keeps, worked_bodies};

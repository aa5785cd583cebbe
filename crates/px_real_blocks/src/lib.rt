//! Reads the bodies of functions of real C: their statements, whose declarations and expressions are held. What is read is what the
//! grammar of px_real_statements says of exactly these tokens.
#![tactic(auto)]

mod bodies;
mod labels;
pub mod phrases;
mod simple;
mod statements;
mod tree;

pub use bodies::{BodyFault, body_of};
pub use tree::{Label, Statement};

//! Reads the expressions of real C. What is read is the tree that the grammar gives exactly these tokens; where they have none,
//! it stops at a stated token.
//!
//! The code follows px_real_expressions' `specs/Reading.antt`, which reads from left to right; that this reads exactly what the
//! grammar says is proved there.
#![tactic(auto)]

mod expressions;
mod heads;
mod laws;
mod reading;
mod tree;

pub use laws::worked_expressions;
pub use reading::{ExpressionFault, expression_of};
pub use tree::{Expression, Link, Suffix};

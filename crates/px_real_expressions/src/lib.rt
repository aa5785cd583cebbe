//! No code: the grammar of real C's expressions, C11's with the forms of GNU C, and the law that tokens are one expression at
//! most. Type names, initialisers, bodies of statement expressions and arguments of built-in forms are held as their tokens.
#![tactic(auto)]

mod laws;
mod operators;
mod terminal;

pub use laws::one_expression;
pub use operators::{Measure, Operator, Prefix, Step};
pub use terminal::Terminal;

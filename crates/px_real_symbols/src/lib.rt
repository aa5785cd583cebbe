//! What the readers of real C's grammar look at: tokens as the grammar sees them, each with the terminal that a stated table and a
//! given table of the names of types say that it is; what stands at a number; and what is held up to a closing bracket.
#![tactic(auto)]

pub mod fault;
pub mod fronts;
pub mod held;
pub mod operators;
pub mod symbol;
mod words;

pub use held::Span;
pub use symbol::TypeNames;

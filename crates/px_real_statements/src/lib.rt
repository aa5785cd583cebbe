//! No code: the grammar of real C's statements, C11's with the forms of GNU C, and the laws that what stands between the braces of
//! a function is read in one way. Declarations and expressions are held as their tokens, and so is what is no statement.
#![tactic(auto)]

mod laws;

pub use laws::{one_body, some_body, worked_statements};

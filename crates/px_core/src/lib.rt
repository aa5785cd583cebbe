//! The core: the eighteen commands to which the procedures of a C program are lowered, and what is still to be done of a
//! body. Sizes, copies and equality are exact, and `specs/` says what lowered bodies keep.
//!
//! `specs/` sees commands and bodies as plain data, in which a list of commands is a list and nothing
//! else, so that equal bodies are equal data: `command_tree` and `body_tree`. What the commands do
//! stands in the crate px_meaning.
#![tactic(auto)]

mod body;
mod command;
mod copy;
mod count;
mod equal;

pub use body::Body;
pub use command::{Command, Comparison, Operand, Operator};
pub use copy::copy_body;
pub use count::size;
pub use equal::{equal_bodies, equal_commands};

//! The typing rules of C inside one function: names resolved, and types agreed. `typed_function` is these rules, both
//! ways, and whether there is a tree doesn't depend on numbers.
//!
//! `specs/` has the rules as a definition on plain data, one case for each kind of expression and
//! statement: `Types`, `Environment` and `Typed` are the words, `Expressions`, `Locals`, `Statements` and
//! `Functions` the rules.
#![tactic(auto)]

mod declarations;
mod environment;
mod expressions;
mod fields;
mod function;
mod laws;
mod locals;
mod operand;
mod operators;
mod refusal;
mod simple;
mod statements;
mod types;

pub use environment::{Environment, Prototype};
pub use function::typed_function;
pub use laws::numbers_dont_matter;
pub use types::CType;

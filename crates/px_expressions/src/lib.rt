//! What each token is to the grammar of C, and the grammar of types and expressions. A reader gives exactly the tree
//! that the grammar has, and there is one at most.
//!
//! `specs/Terminals.antt` says what each token is to the grammar, and `specs/Grammar.antt` has the productions.
//! The code follows `specs/Reading.antt`, which reads from left to right; that this reads exactly what the
//! grammar says is proved once, in `proofs/`.
#![tactic(auto)]

mod constants;
mod expressions;
mod fault;
mod fronts;
mod operators;
mod symbol;
mod terminal;
mod types;
mod words;

pub use expressions::{expression, members, primary, unary};
pub use fault::Fault;
pub use fronts::front;
pub use symbol::{Input, Symbol, name, text};
pub use terminal::Terminal;
pub use types::{base, begins_type, stars, type_name};
pub use words::{is_outside, is_outside_punctuator, terminal_of};

//! The clauses of a list of conjuncts on words, by circuits of their bits: assignments that meet them give words that make
//! the conjuncts true, and all words that do come from one. Once the words are assigned, unit clauses do the rest.
#![tactic(auto)]

mod circuit;
mod cnf;
mod limits;
mod literal;
mod names;
mod reading;
mod requiring;
mod terms;
mod words;

pub use cnf::{Cnf, CnfFault, translate};
pub use literal::Literal;

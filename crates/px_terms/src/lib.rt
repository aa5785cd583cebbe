//! The terms that symbolic execution and its solver speak of, the types and values of C below them, and the trait of
//! domains. Sums, differences, products and substitutions are in normal form, `eval` is truth under a valuation, and
//! equality and copies are by value.
#![tactic(auto)]

mod by_value;
mod conjuncts;
mod domain;
mod faults;
mod fitting;
mod items;
mod laws;
mod merge;
mod monomial;
mod parts;
mod poly;
mod product;
mod quotients;
mod sizes;
mod truth;
mod types;
mod variables;
mod wide;

pub use by_value::{ByValue, same_items};
pub use conjuncts::{Conj, Content, Place};
pub use domain::{Domain, some_refutes};
pub use faults::{NoMemory, PartsFault, TermFault};
pub use fitting::fits;
pub use items::Items;
pub use laws::{normal_forms, signed_order, words_are_ring, words_are_signed};
pub use monomial::Monomial;
pub use poly::Poly;
pub use quotients::{is_quotient, quotient};
pub use truth::eval;
pub use types::{BlockType, TypeId, Value, ValueType, ValueTypes};
pub use variables::{Sort, Var, VarInfo};

//! Entries and tables: what is known of a procedure, and what isn't; and the steps of derivations. Copies and equality
//! are by value; `specs/` says what is decided, which entries are regular, and the cases of a required atom.
//!
//! All are plain data for contracts: a list is a list and nothing else, so that equal entries are equal data.
#![tactic(auto)]

mod atoms;
mod by_value;
mod derivations;
mod entries;
mod laws;
mod rules;
mod tables;

pub use atoms::{Atom, AtomState, Case};
pub use by_value::{equal_marks, equal_results};
pub use derivations::{Derivation, Rule, Step};
pub use entries::{Entry, Exit};
pub use laws::{regular_entries_are_scoped, tests_decide};
pub use rules::{rule_number, rule_of};
pub use tables::{Cause, Gap, LongKind, Table};

//! What acts on symbolic states ask and are made of: the ways to meet a block that a callee requires, open conjuncts,
//! what operators and comparisons make of contents, what a callee's terms are to its caller, and the limits of a path.
//! Each is exactly as px_entry and px_callgraph define it.
//!
//! The definitions stand in px_entry and px_callgraph. A substitution is a slice of pairs; the first pair of a variable counts.
#![tactic(auto)]

mod claims;
mod conditions;
mod contents;
mod decisions;
mod matching;
mod operations;
mod path_limits;
mod results;
mod substitution;
mod variables;
mod words;

pub use claims::{Claimed, claim_through, is_claim_open};
pub use conditions::{Compared, condition, contrary};
pub use contents::{content_through, place_through, state_through};
pub use decisions::{
    is_int_polynomial, is_open, is_well_sorted, keep_short, may_be_other, may_be_zero, stands,
    word_of,
};
pub use matching::{cases, is_match};
pub use operations::{Operated, operand_content, operation};
pub use path_limits::{Growth, NOTHING, cut, limit_of_long, limit_passed};
pub use substitution::{count_new, put_cells, put_from, put_new, put_new_variables};
pub use variables::{is_made, is_pointer, may_be_missing, may_be_same};

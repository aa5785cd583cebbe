//! The items of a C source: where each begins and ends, and whether it has the shape of a function. Both are exactly
//! the cutting rule, by which all tokens are cut in one way.
//!
//! `specs/Cutting.antt` says how a file is cut. The code scans the tokens once; that the scan gives the
//! cutting of the definition is proved in `proofs/`.
#![tactic(auto)]

mod brackets;
mod cutting;
mod roles;
mod shapes;

pub use cutting::{ItemFault, Span, items, one_cutting, some_cutting};
pub use shapes::{is_function_shaped, items_stand_alone};

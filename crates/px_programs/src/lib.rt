//! No code: laws of the program that files say. It keeps the typing rules, which is what lowering asks for, and its
//! numbers are those of what it has; what its lowered bodies keep holds without a condition, and their valid triples
//! are those of the trees.
//!
//! `specs/` has the laws, which join the definition of that program (px_typing) to what executions ask of one
//! (px_meaning), and to the bodies that it is lowered to (px_lower).
#![tactic(auto)]

mod laws;

pub use laws::{
    bodies_have_their_numbers, bodies_of_files_keep, programs_have_their_numbers,
    programs_keep_typing, triples_are_of_trees,
};

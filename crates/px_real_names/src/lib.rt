//! The names that are in scope behind a declaration of real C, and which of them are types'. What is in scope is what px_real_declarations
//! says of the declaration and of the names before it.
#![tactic(auto)]

pub mod enumerated;
pub mod names;
pub mod slices;

pub use names::Names;

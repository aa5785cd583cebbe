//! Reads what the declarations of real C hold between brackets, members, enumerators and parameters, and the heads of functions. What is
//! read is what the grammar of px_real_declarations says of exactly these tokens, where these words are names of types.
#![tactic(auto)]

mod commas;
mod enumerators;
mod heads;
mod lines;
mod parameters;
mod reading;
mod tree;

pub use reading::{enumerators_of, head_of, members_of, parameters_of};
pub use tree::{Enumerator, Head, Parameters};

//! The domain of parity, of kind 2. It rules a list of conjuncts out exactly where its linear equalities have no
//! solution modulo 2.
#![tactic(auto)]

mod elimination;
mod equations;
mod laws;
mod parity;
mod row;

pub use laws::ruled_out_have_no_model;
pub use parity::Parity;

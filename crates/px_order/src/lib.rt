//! The domain of order, of kind 3. It rules a list of conjuncts out exactly where its orders and equalities between
//! variables have no solution in the integers.
#![tactic(auto)]

mod comparisons;
mod kept;
mod laws;
mod links;
mod order;
mod search;

pub use laws::ruled_out_have_no_model;
pub use order::Order;

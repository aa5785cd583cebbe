//! The domain of intervals, of kind 1. It rules a list of conjuncts out exactly where the bounds of some variable leave
//! it no word.
#![tactic(auto)]

mod bounds;
mod gaps;
mod interval;
mod kept;
mod laws;

pub use interval::Interval;
pub use laws::ruled_out_have_no_model;

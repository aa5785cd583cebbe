//! A stack of places with keys. Each place is linked to the one before it of the same key, so that those of one key are
//! found, from the last to the first, without a look at the others.
#![tactic(auto)]

mod chains;

pub use chains::Chains;

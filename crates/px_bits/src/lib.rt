//! Looks at the bits of conjuncts: whether some words make them true. And what the conjuncts that a list is undecided for say of
//! the whole list: they are among it, and where no words make them true, nothing makes the list true.
#![tactic(auto)]

mod laws;
mod looking;
mod looks;

pub use laws::{no_words_no_model, refuted_looks, undecided_are_among};
pub use looking::look_at;
pub use looks::Look;

//! What bits say of paths that the solver left undecided: for each procedure that has some, how many of them no words can
//! take, how many some words make true, and how many are left open. `look_counts` looks at each of them, and `render` is the
//! text of the counts, byte for byte.
#![tactic(auto)]

mod counting;
mod laws;
mod texts;

pub use counting::{LookCounts, look_counts};
pub use laws::refuted_drops;
pub use texts::{bits_asked, render};

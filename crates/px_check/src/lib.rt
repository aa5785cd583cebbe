//! The checker of derivations: what a derivation shows of an entry is found out without asking whoever made it. An
//! entry is checked exactly where its steps derive it from its job, and else the step that fails first is named. Of the entries
//! of a table the same is found out, and what their derivations share is followed once.
#![tactic(auto)]

mod checked;
mod checking;
mod ends;
mod forks;
mod laws;
mod listed;
mod named;
mod plans;
mod separate;
mod steps;
mod taken;
mod turns;
mod values;

pub use checked::{CheckFault, Checked, TableFault};
pub use checking::{check, check_each};
pub use laws::one_outcome;

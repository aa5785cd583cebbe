//! How a run ends: its status, and the line on standard error that says why it ended early. `tell` is the one function
//! from a cause to both: it writes the line of the definition, or a beginning of it where the write fails.
//!
//! A line is told up to the first piece whose write fails: there is nobody left to tell of that.
#![tactic(auto)]

mod cause;
mod lines;
mod status;

pub use cause::{Cause, status_of};
pub use lines::{tell, tell_line, told};
pub use status::{Status, number_of};

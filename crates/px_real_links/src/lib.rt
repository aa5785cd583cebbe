//! Which functions of the files of a run are kept, and which one a call of a name goes to: its own file's, or the one external function
//! of that name. Each is as stated of what the files define.
#![tactic(auto)]

mod callee;
mod definition;
mod fate;

pub use callee::{Callee, callee_of};
pub use definition::{Definition, FileLinks};
pub use fate::{Fate, fate_of};

//! Checks with the help of kept summaries, whole, and the keeping of them: from the names of files to what is written, the line and
//! the status. A procedure whose job a kept item answers isn't analysed again, and nothing that an item says is taken on trust.
#![tactic(auto)]

mod checking;
mod files;
mod found;
mod keeping;
mod lines;

pub use files::{KeptCheck, check_with_kept};
pub use keeping::keep_files;

//! Kept summaries: what was found out of a program's procedures, as bytes, and its use when the program is analysed again.
//! `Kept::read` gives exactly the items of bytes, or the byte where they are bad; `keep` writes those of a program; and `reuse`
//! gives each procedure the table of the first item that is good for its job, or the job's own.
//!
//! An item is the request to analyse a job and a reply to it, each in a frame. Nothing is taken on trust: an item is good
//! where each of its entries is checked by its derivation.
#![tactic(auto)]

mod faults;
mod keeping;
mod kept;
mod laws;
mod lent;
mod looking;
mod ordering;
mod progress;
mod reusing;
mod writing;

pub use faults::KeepFault;
pub use keeping::keep;
pub use kept::Kept;
pub use laws::{kept_is_honest, kept_is_read, one_reading, reused_tables};
pub use reusing::{Reused, reuse};

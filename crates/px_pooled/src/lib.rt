//! What is found out of a program by workers and the program itself, over one book: first rounds of the workers, if there are
//! some; then the parent analyses what isn't settled. Where the book isn't the program's own, where the receipts don't
//! count as many publications as it has of workers, or where something is still held, it counts as no work, and the
//! parent analyses all anew. Each table is its job's own or one that the links' word says of it.
#![tactic(auto)]

mod parent;
mod parts;
mod pooled;
mod shared;
mod tally;

pub use parts::{Parts, parts_of};
pub use pooled::{Pool, pooled_findings};
pub use tally::{Tally, tally_of};

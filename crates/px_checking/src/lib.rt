//! A check of files, whole: from their names to the report, the line and the status. What `check_files` writes is the
//! report on the only program of the files, with all that is true of it, or the line and the status say why there is
//! none.
#![tactic(auto)]

mod after;
mod asked;
mod checking;
mod files;
mod kinds;
mod stats;

pub use asked::{Check, More};
pub use checking::{Rendered, render_found};
pub use files::{check_files, write_rendered};
pub use kinds::{Places, put_back, sort_by_kind};

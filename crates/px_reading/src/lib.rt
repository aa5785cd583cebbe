//! From the bytes of a source file to its items. `read_file` is tokens, cutting and grammar one after another; a
//! source has one reading or one first fault, and not both.
//!
//! `specs/Sources.antt` puts the tokens, the cutting and the grammar together.
#![tactic(auto)]

mod laws;
mod reading;

pub use laws::{one_file, some_file};
pub use reading::{ReadFault, SourceFault, read_file};

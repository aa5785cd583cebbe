//! Bodies and their commands, each a byte for its kind and then its parts, as bytes that another process reads again.
//! `write_body` and `read_body` are exactly the definition's spelling; what is written is read again, and as nothing else.
//!
//! Commands stand in commands, so a body is read by functions that call each other. How deep they go is at most how many
//! commands a body may have, whatever the bytes say, and room is taken command by command. `specs/` says the spelling
//! twice, as the crate px_spelling does for what a body is made of. `is_body_in_range` says exactly whether a body is in
//! range, and takes no memory.
#![tactic(auto)]

mod commands;
mod laws;
mod plain;
mod ranges;
mod read;
mod write;

pub use laws::written_body_is_read;
pub use ranges::is_body_in_range;
pub use read::read_body;
pub use write::write_body;

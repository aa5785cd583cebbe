//! The items of a file of real C in order, each read where the names in scope before it are known. What is read is what the grammar says of
//! exactly its tokens; what isn't is no declaration or definition of a function, and declares nothing.
#![tactic(auto)]

mod ends;
mod externals;
mod reading;
mod tree;

pub use reading::{file_items, read_items};
pub use tree::{External, FileItem, Unread};

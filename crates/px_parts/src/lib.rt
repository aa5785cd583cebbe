//! Parts: a reply, or the word that it is too long, read as its bytes come, in each version. A `Reader` gives the parts of the
//! message that the bytes spell, each as soon as its last byte is there, however the bytes are cut, and keeps no copy of what it
//! gave.
//!
//! `specs/` says what may come at each place of a message, and which parts bytes hold from one place to another. What a
//! reader answers to a piece is said by these, and laws say what a whole run of pieces gives.
#![tactic(auto)]

mod finding;
mod form;
mod heads;
mod laws;
mod named;
mod next;
mod part;
mod reader;
mod skim;
mod steps;
mod unread;

pub use laws::{parts_are_those, parts_follow};
pub use part::{Part, Taken};
pub use reader::Reader;

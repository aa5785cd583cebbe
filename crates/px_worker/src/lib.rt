//! A worker: it reads requests, and answers each in its version, with the table of its job, or that this is too long for a
//! frame. What `serve` wrote is the one answer of what it read, or a beginning of it, and each outcome has its cause and its
//! place.
//!
//! `specs/` says what it owes for the bytes that it was sent, and where it stops, by the versions that it knows. `serve` is the
//! loop over a source of one that knows both; `Course` is the same for who hands it its input piece by piece.
#![tactic(auto)]

mod course;
mod faults;
mod laws;
mod owed;
mod serving;

pub use course::Course;
pub use faults::ServeFault;
pub use laws::{answers_begin, one_answer, one_stop, replies_are_analyses, whole_inputs};
pub use owed::{are_clear, are_kinds};
pub use serving::serve;

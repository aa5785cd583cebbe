//! What is found out of a program; pieces of it, and whose word they rest on; and the desk: which procedure may be
//! claimed next, when one is settled or lost, and after how many losses it is the parent's alone. The laws say what every
//! legal history of these events keeps.
//!
//! `specs/` says what events do and when they may come; the laws hold over all histories of such events.
#![tactic(auto)]

mod desk;
mod findings;
mod honesty;
mod laws;
mod pieces;

pub use desk::{Event, Lost, Status, Who};
pub use findings::{Findings, Part};
pub use honesty::{Honest, Honesty, Unknown};
pub use laws::{desk_histories, worked_histories};
pub use pieces::Piece;

//! The book of a program that several work on: who claimed which procedure, the pieces that settle them, and receipts
//! that count publications. A piece is taken exactly where its job is the one that was claimed, and tables of honest
//! pieces are those of one process.
#![tactic(auto)]

mod book;
mod callers;
mod claims;
mod crossing;
mod faults;
mod flags;
mod held;
mod laws;
mod ready;
mod receipts;
mod roll;
mod statuses;

pub use book::Book;
pub use crossing::books_cross;
pub use faults::{NotHeld, PublishFault};
pub use laws::{
    books_go_on, calls_move_one, claimed_jobs_stay, desk_tallies, honest_books_are_one,
};
pub use receipts::Receipt;
pub use roll::Roll;

use crate::{Book, Receipt};
use px_callgraph::Job;
use px_pieces::{Honesty, Piece};
use std::sync::ledger::Ledger;

// A type whose values may go to another thread.
fn moves<T: Send>() {}

/// Jobs, pieces, receipts and books may go to another thread, so a book may stand under a lock that threads share.
pub fn books_cross<H: Honesty + Send, L: Ledger + Send>() {
    moves::<Job>();
    moves::<Receipt<L>>();
    moves::<Book<H, L>>();
    moves::<Piece<H>>();
}

use px_pieces::{Honesty, Piece, Status};

/// Why a piece isn't published. It is handed back, and nothing has changed.
#[derive(Drop)]
pub enum PublishFault<H: Honesty> {
    /// The piece's procedure isn't held under the ticket, or its job isn't the one that was claimed. Where the
    /// procedure stands is told: nowhere, if it isn't of the desk.
    Stranger {
        kept: Option<Status>,
        piece: Piece<H>,
    },
}

/// Nothing is held under the ticket.
#[derive(Clone, Copy, Debug, PartialEq, Eq)]
pub struct NotHeld;

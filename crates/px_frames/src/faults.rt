ghost use Rattle.std.specs.Prelude.{◌≡◌};
ghost use Rattle.px_frames.specs.declared.faults.FrameFault.TheVariants as frame;
ghost use Rattle.px_frames.specs.declared.faults.FeedFault.TheVariants as feed;

use std::alloc::AllocError;
use thiserror::Error;

/// Why there is no frame.
#[derive(Clone, Copy, Debug, PartialEq, Eq, Error)]
pub enum FrameFault {
    /// The message has so many bytes, which is more than a frame may have.
    #[error("a message of {0} bytes is too long for a frame")]
    TooLong(u64),
    #[error("out of memory")]
    NoMemory,
}

impl From<AllocError> for FrameFault {
    ghost from_gives = { λ _ e. e ≡ frame.NoMemory };

    fn from(_: AllocError) -> FrameFault {
        FrameFault::NoMemory
    }
}

/// Why a piece gave nothing.
#[derive(Clone, Copy, Debug, PartialEq, Eq, Error)]
pub enum FeedFault {
    /// A frame names this length, which is more than a frame may have. Nothing after it can be read.
    #[error("a frame of {0} bytes is too long")]
    TooLong(u32),
    #[error("out of memory")]
    NoMemory,
}

impl From<AllocError> for FeedFault {
    ghost from_gives = { λ _ e. e ≡ feed.NoMemory };

    fn from(_: AllocError) -> FeedFault {
        FeedFault::NoMemory
    }
}

use thiserror::Error;

/// Why a worker stops before its input ends. A place is the number of bytes before the frame, or 2^64 - 1 where there are
/// more.
#[derive(Clone, Copy, Debug, PartialEq, Eq, Error)]
pub enum ServeFault {
    /// A read failed.
    #[error("cannot read input")]
    Read,
    /// A write failed.
    #[error("cannot write")]
    Write,
    /// The frame that begins at this byte isn't the whole frame of a request of a known version.
    #[error("bad request at byte {0}")]
    Bad(u64),
    /// The request whose frame begins at this byte has other kinds than the domains.
    #[error("other domains at byte {0}")]
    Kinds(u64),
    #[error("out of memory")]
    NoMemory,
}

ghost use Rattle.std.specs.Prelude.{◌≡◌};
ghost use Rattle.px_gen.specs.declared.fault.GenFault.TheVariants as fault;

use std::alloc::AllocError;
use thiserror::Error;

/// Why there is no sample.
#[derive(Clone, Copy, Debug, PartialEq, Eq, Error)]
pub enum GenFault {
    /// So many procedures were asked for, and it isn't 1 to 1,000.
    #[error("{0} procedures are out of range")]
    OutOfRange(u32),
    #[error("out of memory")]
    NoMemory,
}

impl From<AllocError> for GenFault {
    ghost from_gives = { λ _ e. e ≡ fault.NoMemory };

    fn from(_: AllocError) -> GenFault {
        GenFault::NoMemory
    }
}

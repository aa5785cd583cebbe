ghost use Rattle.std.specs.Prelude.{◌≡◌};
ghost use Rattle.px_lower.specs.declared.fault.LowerFault.TheVariants as fault;

use px_terms::NoMemory;
use thiserror::Error;

/// Why a procedure has no body.
#[derive(Clone, Copy, Debug, PartialEq, Eq, Error)]
pub enum LowerFault {
    /// The body has more commands than a procedure may have: so many, those that stand in others counted.
    #[error("{0} commands are too many")]
    TooLarge(u64),
    #[error("out of memory")]
    NoMemory,
}

impl From<NoMemory> for LowerFault {
    ghost from_gives = { λ _ e. e ≡ fault.NoMemory };

    fn from(_: NoMemory) -> LowerFault {
        LowerFault::NoMemory
    }
}

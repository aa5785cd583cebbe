ghost use Rattle.std.specs.Prelude.{◌≡◌};
ghost use Rattle.px_real_cutting.specs.declared.fault.ItemFault.TheVariants.{NoMemory};

use px_base::Site;
use px_terms::NoMemory as OutOfMemory;
use std::alloc::AllocFailed;
use thiserror::Error;

/// Why a file isn't cut into items.
#[derive(Clone, Copy, Debug, PartialEq, Eq, Error)]
pub enum ItemFault {
    /// Brackets don't match, or the file ends in an item. The place is a closing bracket that doesn't
    /// match the last one open; where the file ends, the last bracket that is open, or else the first
    /// token of what belongs to no item.
    #[error("the brackets don't match")]
    Unbalanced(Site),
    #[error("out of memory")]
    NoMemory,
}

impl From<OutOfMemory> for ItemFault {
    ghost from_gives = { λ _ e. e ≡ NoMemory };

    fn from(_error: OutOfMemory) -> ItemFault {
        ItemFault::NoMemory
    }
}

impl<T: Drop> From<AllocFailed<T>> for ItemFault {
    ghost from_gives = { λ _ e. e ≡ NoMemory };

    fn from(_error: AllocFailed<T>) -> ItemFault {
        ItemFault::NoMemory
    }
}

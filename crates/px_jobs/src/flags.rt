ghost use Rattle.std.specs.Prelude.{◌≡◌, ◌<◌, ◌||◌, ℕ, length, false, nat_eq, slice_index_or, IfOk, OnOk};
ghost use Rattle.px_jobs.specs.Plans.{is_among};

use px_base::ProcId;
use px_terms::NoMemory;
use std::alloc::Global;

/// For each function, by its number, whether it is one of these. One beyond the flags isn't.
pub(crate) fn flags_of(alloc: Global, functions: &[ProcId]) -> Result<Vec<bool>, NoMemory>
    ensures { IfOk result (λ flags. (g : ℕ) → slice_index_or flags.items g false ≡ is_among g functions.now) }
{
    let mut flags = Vec::new(alloc);
    for function in functions {
        put_flag(&mut flags, function.0)?;
    }
    Ok(flags)
}

// Sets the flag with this number.
fn put_flag(flags: &mut Vec<bool>, number: u32) -> Result<(), NoMemory>
    ensures { OnOk result ((g : ℕ) → slice_index_or flags.new.items g false ≡ (slice_index_or flags.old.items g false || nat_eq number g)) }
{
    make_place(flags, number)?;
    flags[number as usize] = true;
    Ok(())
}

// Adds flags that aren't set, so that there is one with this number.
fn make_place(flags: &mut Vec<bool>, number: u32) -> Result<(), NoMemory>
    ensures place { OnOk result (number < length flags.new.items) }
    ensures same { OnOk result ((g : ℕ) → slice_index_or flags.new.items g false ≡ slice_index_or flags.old.items g false) }
{
    let place = number as usize;
    if place >= flags.len() {
        flags.resize(place + 1, false)?;
    }
    Ok(())
}

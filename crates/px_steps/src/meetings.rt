ghost use Rattle.std.specs.Prelude.{◌≡◌, ◌+◌, ◌≤◌, length, IfOk};
ghost use Rattle.px_base.specs.Bounds.{most_variables};
ghost use Rattle.px_callgraph.specs.Accesses as spec;
ghost use Rattle.px_callgraph.specs.Accesses.{block_cells};
ghost use Rattle.px_steps.specs.Led.{at_state};
ghost use Rattle.px_steps.specs.Accessing.{access_of, led_freely, missing_growth};

use crate::access_effects::use_atom;
use crate::accesses::Access;
use crate::led::Led;
use px_callgraph::State;
use px_terms::{BlockType, NoMemory, Place};
use px_ways::{cells_of, meet_freed, meet_live};
use std::alloc::Global;

/// A place is that of a live block that wasn't met yet, and is used so.
pub(crate) fn reach_live(
    alloc: Global,
    types: &[BlockType],
    state: &mut State,
    place: Place,
    access: Access,
) -> Result<Led, NoMemory>
    requires room { length state.old.vars + (missing_growth place (length (block_cells types.now access.block))).variables ≤ most_variables }
    ensures { IfOk result (λ r. at_state r state.new ≡ led_freely (spec.reach_missing (spec.meet_live types.now access.block) (access_of access) place state.old)) }
{
    match place {
        Place::Null => Ok(Led::Goes),
        Place::Var(x) => {
            let n = state.atoms.len();
            meet_live(alloc, cells_of(types, access.block), state, access.block, x)?;
            use_atom(alloc, state, n, access)
        }
    }
}

/// A place is that of a freed block that wasn't met yet, and is used so.
pub(crate) fn reach_freed(
    alloc: Global,
    state: &mut State,
    place: Place,
    access: Access,
) -> Result<Led, NoMemory>
    ensures { IfOk result (λ r. at_state r state.new ≡ led_freely (spec.reach_missing (spec.meet_freed access.block) (access_of access) place state.old)) }
{
    match place {
        Place::Null => Ok(Led::Goes),
        Place::Var(x) => {
            let n = state.atoms.len();
            meet_freed(state, access.block, x)?;
            use_atom(alloc, state, n, access)
        }
    }
}

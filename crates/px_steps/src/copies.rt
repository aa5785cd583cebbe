ghost use Rattle.std.specs.Prelude.{◌≡◌, IfOk};

use px_callgraph::State;
use px_terms::{Items, NoMemory};
use std::alloc::Global;

/// A state that equals this one.
pub fn copy_state(alloc: Global, state: &State) -> Result<State, NoMemory>
    ensures { IfOk result (λ copy. copy ≡ state.now) }
{
    Ok(State {
        slots: state.slots.copy(alloc)?,
        vars: Items::from_slice(alloc, state.vars.as_slice())?,
        pure: state.pure.copy(alloc)?,
        pre: state.pre.copy(alloc)?,
        atoms: state.atoms.copy(alloc)?,
        trace: Items::from_slice(alloc, state.trace.as_slice())?,
        loops: Items::from_slice(alloc, state.loops.as_slice())?,
        steps: state.steps,
    })
}

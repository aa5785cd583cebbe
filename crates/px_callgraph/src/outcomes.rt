ghost use Rattle.std.specs.Prelude.{◌≡◌, IfOk};
ghost use Rattle.px_callgraph.specs.Alternatives.{dropped};

use crate::State;
use px_entry::{Cause, Exit, Gap};
use px_terms::{Content, Items, NoMemory};
use std::alloc::Global;

/// Where a step of a path leads.
#[derive(Drop)]
pub enum StepOutcome<T> {
    /// The path goes on.
    Next(T),
    /// The procedure ends, with this result.
    Ends(State, Exit, Option<Content>),
    /// The path isn't followed. The state is the one before the step.
    Cut(State, Gap),
    /// A loop would begin its body once more than the bound allows.
    Past(State),
}

impl<T> StepOutcome<T> {
    /// The path isn't followed, for this cause.
    pub fn dropped(alloc: Global, state: State, cause: Cause) -> Result<Self, NoMemory>
        ensures { IfOk result (λ to. to ≡ dropped state cause) }
    {
        let trace = Items::from_slice(alloc, state.trace.as_slice())?;
        Ok(StepOutcome::Cut(state, Gap { trace, cause }))
    }
}

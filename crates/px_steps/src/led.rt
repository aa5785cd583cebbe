ghost use Rattle.std.specs.Prelude.{◌≡◌, IfOk};
ghost use Rattle.px_entry.specs.declared.tables.Cause.TheVariants.{Long};
ghost use Rattle.px_callgraph.specs.Alternatives.{dropped};
ghost use Rattle.px_steps.specs.Led.{at_state};

use px_callgraph::{State, StepOutcome};
use px_entry::{Cause, Exit, Gap, LongKind};
use px_terms::{Content, Items, NoMemory};
use std::alloc::Global;

/// Where an act leads that changes a state in its place.
#[derive(Drop)]
pub enum Led {
    /// The path goes on.
    Goes,
    /// The procedure ends, with this result.
    Ends(Exit, Option<Content>),
    /// The path isn't followed. The state is as it was.
    Cut(Gap),
}

impl Led {
    ghost use Rattle.std.specs.Prelude.{◌≡◌};
    ghost use Rattle.px_steps.specs.Led.{at_state};

    /// The same beside the state that is left.
    pub fn with_state(self, state: State) -> StepOutcome<State>
        ensures { result ≡ at_state self state }
    {
        match self {
            Led::Goes => StepOutcome::Next(state),
            Led::Ends(exit, result) => StepOutcome::Ends(state, exit, result),
            Led::Cut(gap) => StepOutcome::Cut(state, gap),
        }
    }
}

/// The path isn't followed, for this cause.
pub(crate) fn dropped(alloc: Global, state: &State, cause: Cause) -> Result<Led, NoMemory>
    ensures { IfOk result (λ led. at_state led state.now ≡ dropped state.now cause) }
{
    let trace = Items::from_slice(alloc, state.trace.as_slice())?;
    Ok(Led::Cut(Gap { trace, cause }))
}

/// The path isn't followed, since an act passes this limit.
pub(crate) fn cut(alloc: Global, state: &State, kind: LongKind) -> Result<Led, NoMemory>
    ensures { IfOk result (λ led. at_state led state.now ≡ dropped state.now (Long kind)) }
{
    dropped(alloc, state, Cause::Long(kind))
}

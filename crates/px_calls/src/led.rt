ghost use Rattle.std.specs.Prelude.{◌≡◌, IfOk};
ghost use Rattle.px_entry.specs.declared.tables.Cause.TheVariants.{Long};
ghost use Rattle.px_callgraph.specs.Alternatives as paths;
ghost use Rattle.px_calls.specs.Progress.{progress_at};

use crate::{Call, CallProgress};
use px_callgraph::{State, StepOutcome};
use px_entry::{Cause, Exit, Gap, LongKind};
use px_terms::{Content, Items, NoMemory};
use std::alloc::Global;

/// Where an act of a call leads that changes its caller's state in its place.
#[derive(Drop)]
pub enum CallLed<'a> {
    /// The path goes on, with the call unless it is over.
    Goes(Option<Call<'a>>),
    /// The caller ends, with this result.
    Ends(Exit, Option<Content>),
    /// The path isn't followed. The state is as it was.
    Cut(Gap),
    /// No way is named so.
    Past,
}

impl<'a> CallLed<'a> {
    ghost use Rattle.std.specs.Prelude.{◌≡◌};
    ghost use Rattle.px_calls.specs.Progress.{progress_at};

    /// The same beside the state that is left.
    pub(crate) fn with_state(self, state: State) -> StepOutcome<CallProgress<'a>>
        ensures { result ≡ progress_at self.entry state }
    {
        match self {
            CallLed::Goes(call) => StepOutcome::Next(CallProgress { state, call }),
            CallLed::Ends(exit, result) => StepOutcome::Ends(state, exit, result),
            CallLed::Cut(gap) => StepOutcome::Cut(state, gap),
            CallLed::Past => StepOutcome::Past(state),
        }
    }
}

/// The path isn't followed, for this cause.
pub(crate) fn dropped<'a>(
    alloc: Global,
    state: &State,
    cause: Cause,
) -> Result<CallLed<'a>, NoMemory>
    ensures { IfOk result (λ led. progress_at led state.now ≡ paths.dropped state.now cause) }
{
    let trace = Items::from_slice(alloc, state.trace.as_slice())?;
    Ok(CallLed::Cut(Gap { trace, cause }))
}

/// The path isn't followed, since an act passes this limit.
pub(crate) fn cut<'a>(alloc: Global, state: &State, kind: LongKind) -> Result<CallLed<'a>, NoMemory>
    ensures { IfOk result (λ led. progress_at led state.now ≡ paths.dropped state.now (Long kind)) }
{
    dropped(alloc, state, Cause::Long(kind))
}

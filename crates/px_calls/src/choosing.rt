ghost use Rattle.std.specs.Prelude.{◌≡◌, ◌<◌, ◌^◌, ◌&&◌, List, Some, length, IfOk};
ghost use Rattle.std.specs.Option.{option_copied};
ghost use Rattle.px_core.specs.Control.{Item};
ghost use Rattle.px_entry.specs.Regular.{is_regular as regular};
ghost use Rattle.px_callgraph.specs.declared.states.State.{State as StateOf};
ghost use Rattle.px_callgraph.specs.JobTree.{job_tree};
ghost use Rattle.px_callgraph.specs.Calls as spec;
ghost use Rattle.px_callgraph.specs.Alternatives as paths;
ghost use Rattle.px_calls.specs.Calls.{calling_of, stage_of, called, or_unknown, IsFewCalled};
ghost use Rattle.px_calls.specs.Progress.{progress_at};

use crate::arguments::fits_arguments;
use crate::callees::{drop_cause, entry_in, find_callee};
use crate::led::{self, CallLed};
use crate::{Call, Calling, Matching, Stage};
use px_base::ProcId;
use px_callgraph::{Callee, Job, State, Way};
use px_entry::Entry;
use px_match::put_from;
use px_regular::is_regular;
use px_terms::{BlockType, Content, NoMemory, VarInfo};
use std::alloc::Global;

/// A call takes an entry of its callee, or the path isn't followed.
pub(crate) fn choosing_act<'a>(
    alloc: Global,
    job: &'a Job,
    state: &State,
    calling: Calling,
    way: Way,
) -> Result<CallLed<'a>, NoMemory>
    requires { length state.now.atoms < 2 ^ 32 }
    ensures leads { IfOk result (λ led. (k : List Item) → called k (progress_at led state.now) ≡ paths.choosing_act (job_tree job.now) state.now (calling_of calling) k way) }
    ensures few { IfOk result (λ led. IsFewCalled (progress_at led state.now)) }
{
    let callee = find_callee(job.callees.as_slice(), calling.proc);
    match way {
        Way::Entry(n) => {
            let stage = choose(
                alloc,
                job.types.as_slice(),
                state.vars.as_slice(),
                calling.arguments.as_slice(),
                entry_in(callee, n),
            )?;
            Ok(CallLed::Goes(Some(Call { calling, stage })))
        }
        _ => drop_call(alloc, state, calling.proc, callee),
    }
}

// The path isn't followed, since an entry of the callee isn't known.
fn drop_call<'a>(
    alloc: Global,
    state: &State,
    proc: ProcId,
    callee: Option<&Callee>,
) -> Result<CallLed<'a>, NoMemory>
    ensures { IfOk result (λ led. progress_at led state.now ≡ paths.dropped state.now (spec.drop_cause proc (or_unknown (option_copied callee.entry)))) }
{
    led::dropped(alloc, state, drop_cause(proc, callee))
}

// How far a call is that chooses an entry, if there is one of its number.
fn choose<'a>(
    alloc: Global,
    types: &[BlockType],
    vars: &[VarInfo],
    arguments: &[Content],
    entry: Option<&'a Entry>,
) -> Result<Stage<'a>, NoMemory>
    ensures { IfOk result (λ stage. (s : StateOf) → s.vars ≡ vars.now → stage_of stage ≡ spec.choose_entry types.now s arguments.now (option_copied entry.entry)) }
{
    match entry {
        Some(entry) => choose_entry(alloc, types, vars, arguments, entry),
        None => Ok(Stage::Unfit),
    }
}

fn choose_entry<'a>(
    alloc: Global,
    types: &[BlockType],
    vars: &[VarInfo],
    arguments: &[Content],
    entry: &'a Entry,
) -> Result<Stage<'a>, NoMemory>
    ensures { IfOk result (λ stage. (s : StateOf) → s.vars ≡ vars.now → stage_of stage ≡ spec.choose_entry types.now s arguments.now (Some entry.now)) }
{
    if may_take(alloc, types, vars, arguments, entry)? {
        let mut substitution = Vec::new(alloc);
        put_from(&mut substitution, 0, arguments)?;
        Ok(Stage::Matching(Matching {
            entry,
            substitution,
            met: 0,
            used: Vec::new(alloc),
        }))
    } else {
        Ok(Stage::Unfit)
    }
}

// Whether an entry is regular and fits the arguments.
fn may_take(
    alloc: Global,
    types: &[BlockType],
    vars: &[VarInfo],
    arguments: &[Content],
    entry: &Entry,
) -> Result<bool, NoMemory>
    ensures { IfOk result (λ yes. yes ≡ (regular types.now (length arguments.now) entry.now && spec.fits_arguments vars.now arguments.now entry.now)) }
{
    let regular = is_regular(alloc, types, arguments.len(), entry)?;
    Ok(regular && fits_arguments(vars, arguments, entry))
}

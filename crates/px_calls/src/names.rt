ghost use Rattle.std.specs.Prelude.{◌≡◌, ◌<◌, ◌^◌, List, length, IfOk};
ghost use Rattle.px_entry.specs.declared.atoms.Atom.{Atom};
ghost use Rattle.px_callgraph.specs.declared.states.Way.TheVariants as variant;
ghost use Rattle.px_callgraph.specs.JobTree.{JobTree, job_tree};
ghost use Rattle.px_callgraph.specs.Accesses.{listed_if};
ghost use Rattle.px_callgraph.specs.Calls as calls;
ghost use Rattle.px_callgraph.specs.Alternatives as spec;
ghost use Rattle.px_callgraph.specs.Derivations as derivations;
ghost use Rattle.px_ways.specs.Listed.{lists};
ghost use Rattle.px_calls.specs.Calls.{call_of, stage_of, matching_stage};

use crate::callees::{callee_ways, find_callee, is_callee_way};
use crate::possible::is_possible;
use crate::required::{is_required_way, required_ways};
use crate::{Call, Matching, Stage};
use px_callgraph::{Job, State, Way};
use px_terms::NoMemory;
use std::alloc::Global;

/// The ways on from a place of a call, by name, in order.
pub fn call_ways(alloc: Global, job: &Job, state: &State, call: &Call) -> Result<Vec<Way>, NoMemory>
    requires { length state.now.atoms < 2 ^ 32 }
    ensures { IfOk result (λ listed. listed.items ≡ spec.stage_ways (job_tree job.now) state.now (call_of call.now).0 (call_of call.now).1) }
{
    match &call.stage {
        Stage::Choosing => callee_ways(
            alloc,
            find_callee(job.callees.as_slice(), call.calling.proc),
        ),
        Stage::Matching(matching) => matching_ways(alloc, state, matching),
        Stage::Unfit => Ok(Vec::new(alloc)),
    }
}

// The ways to meet the next block that an entry requires; where all are met, on, if the entry is possible.
fn matching_ways(alloc: Global, state: &State, matching: &Matching) -> Result<Vec<Way>, NoMemory>
    requires { length state.now.atoms < 2 ^ 32 }
    ensures { IfOk result (λ r. (j : JobTree) (c : calls.Calling) → r.items ≡ spec.stage_ways j state.now c (matching_stage matching.now)) }
{
    match matching.entry.pre.get(matching.met) {
        Some(required) => required_ways(
            alloc,
            state,
            &matching.substitution,
            &matching.used,
            required,
        ),
        None => on_if(alloc, is_possible(alloc, state, matching)?),
    }
}

// The only way, where it is listed.
fn on_if(alloc: Global, listed: bool) -> Result<Vec<Way>, NoMemory>
    ensures { IfOk result (λ r. r.items ≡ listed_if listed variant.On) }
{
    let mut found = Vec::new(alloc);
    if listed {
        found.push(Way::On)?;
    }
    Ok(found)
}

/// Whether a way is listed at a place of a call. The others aren't looked at, and no list is made.
pub fn is_call_way(
    alloc: Global,
    job: &Job,
    state: &State,
    call: &Call,
    way: Way,
) -> Result<bool, NoMemory>
    ensures { IfOk result (λ yes. yes ≡ lists (spec.stage_ways (job_tree job.now) state.now (call_of call.now).0 (call_of call.now).1) way) }
{
    match &call.stage {
        Stage::Choosing => Ok(is_callee_way(
            find_callee(job.callees.as_slice(), call.calling.proc),
            way,
        )),
        Stage::Matching(matching) => is_matching_way(alloc, state, matching, way),
        Stage::Unfit => Ok(false),
    }
}

// The same where an entry was chosen.
fn is_matching_way(
    alloc: Global,
    state: &State,
    matching: &Matching,
    way: Way,
) -> Result<bool, NoMemory>
    ensures { IfOk result (λ yes. (j : JobTree) (c : calls.Calling) → yes ≡ lists (spec.stage_ways j state.now c (matching_stage matching.now)) way) }
{
    match matching.entry.pre.get(matching.met) {
        Some(required) => Ok(is_required_way(
            state,
            &matching.substitution,
            &matching.used,
            required,
            way,
        )),
        None => is_on(alloc, state, matching, way),
    }
}

// Whether it is the only way where all blocks are met, and the entry is possible.
fn is_on(alloc: Global, state: &State, matching: &Matching, way: Way) -> Result<bool, NoMemory>
    ensures { IfOk result (λ yes. yes ≡ lists (listed_if (calls.is_possible matching.now.entry.now (calls.stand_all matching.now.entry.now matching.now.substitution.items state.now) state.now) variant.On) way) }
{
    match way {
        Way::On => is_possible(alloc, state, matching),
        _ => Ok(false),
    }
}

/// The way that a choice of a derivation's step names at a stage, where there are so many atoms.
pub fn stage_way(choice: u32, atoms: usize, stage: &Stage) -> Way
    ensures { (all : List Atom) → length all ≡ atoms → result ≡ derivations.stage_way choice all (stage_of stage.now) }
{
    match stage {
        Stage::Choosing => Way::Entry(choice),
        Stage::Matching(_) => {
            if choice as usize == atoms {
                Way::Missing
            } else {
                Way::Atom(choice)
            }
        }
        Stage::Unfit => Way::Missing,
    }
}

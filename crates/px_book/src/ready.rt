ghost use Rattle.std.specs.Prelude.{◌≡◌, ◌≢◌, ◌↔◌, ℕ, ◌<◌, ◌≤◌, ◌^◌, length, true, IfOk, Option as OptionOf, option_map, slice_index};
ghost use Rattle.px_core.specs.BodyTree.{BodyTree};
ghost use Rattle.px_callgraph.specs.CallGraphs.{IsGraphOf};
ghost use Rattle.px_book.specs.Ready as spec;
ghost use Rattle.px_book.specs.Ready.{Blocks, NoneBlocks, IsPast, IsFlagged, IsSized, SameOf, IsReady, callees_in};

use crate::flags::Flags;
use px_base::ProcId;
use px_callgraph::Graph;
use px_pieces::{Status, Who};
use px_terms::NoMemory;
use std::alloc::Global;

/// Which procedures may be claimed next.
#[derive(Drop)]
pub(crate) struct Ready {
    // For each procedure, how many of its callees, from the first on, needn't be awaited any more. The next must be.
    pub(crate) passed: Vec<usize>,
    // What any worker or the parent may claim.
    pub(crate) workers: Flags,
    // What the parent alone may claim, since it was lost too often.
    pub(crate) parent: Flags,
}

/// Whether a procedure of the desk is left to be settled.
pub(crate) fn is_unsettled(status: Option<Status>) -> bool
    ensures { result ≡ spec.is_unsettled status }
{
    match status {
        None => false,
        Some(Status::Waiting { .. }) => true,
        Some(Status::Held { .. }) => true,
        Some(Status::Settled { .. }) => false,
    }
}

fn for_workers(status: Option<Status>) -> bool
    ensures { result ≡ spec.for_workers status }
{
    match status {
        None => false,
        Some(Status::Waiting { losses }) => losses < 3,
        Some(Status::Held { .. }) => false,
        Some(Status::Settled { .. }) => false,
    }
}

fn for_parent(status: Option<Status>) -> bool
    ensures { result ≡ spec.for_parent status }
{
    match status {
        None => false,
        Some(Status::Waiting { losses }) => losses >= 3,
        Some(Status::Held { .. }) => false,
        Some(Status::Settled { .. }) => false,
    }
}

// Whether one is to be settled before the other is claimed, which calls it.
fn blocks(graph: &Graph, statuses: &[Option<Status>], caller: ProcId, callee: ProcId) -> bool
    requires caller { caller.0 < length graph.now }
    requires sized { length statuses.now ≡ length graph.now }
    ensures { (bodies : ℕ → OptionOf BodyTree) → IsGraphOf bodies graph.now → (result ≡ true) ↔ Blocks bodies statuses.now caller.0 callee.0 }
{
    let place = callee.0 as usize;
    if place >= statuses.len() {
        return false;
    }
    is_unsettled(statuses[place]) && !graph.together(caller, callee)
}

// How many callees of a procedure needn't be awaited, if as many as are given needn't be.
fn pass(graph: &Graph, statuses: &[Option<Status>], caller: ProcId, from: usize) -> usize
    requires caller { caller.0 < length graph.now }
    requires sized { length statuses.now ≡ length graph.now }
    requires from { from ≤ length (callees_in graph.now caller.0) }
    ensures inside { result ≤ length (callees_in graph.now caller.0) }
    ensures past { (bodies : ℕ → OptionOf BodyTree) → IsGraphOf bodies graph.now → NoneBlocks bodies statuses.now caller.0 (callees_in graph.now caller.0) from → IsPast bodies statuses.now caller.0 (callees_in graph.now caller.0) result }
{
    let callees = graph.callees(caller);
    for place in from..callees.len() {
        if blocks(graph, statuses, caller, callees[place]) {
            return place;
        }
    }
    callees.len()
}

/// Sets the flags of a procedure as its status and its callees say.
pub(crate) fn put_flags(graph: &Graph, statuses: &[Option<Status>], ready: &mut Ready, proc: ProcId)
    requires proc { proc.0 < length graph.now }
    requires statuses { length statuses.now ≡ length graph.now }
    requires sized { IsSized (length graph.now) ready.old }
    ensures sized { IsSized (length graph.now) ready.new }
    ensures flagged { IsFlagged graph.now statuses.now ready.new proc.0 }
    ensures passed { ready.new.passed.items ≡ ready.old.passed.items }
    ensures others { (g : ℕ) → g ≢ proc.0 → SameOf g ready.old ready.new }
{
    let place = proc.0 as usize;
    let status = statuses[place];
    let free = ready.passed[place] == graph.callees(proc).len();
    ready.workers.put(place, for_workers(status) && free);
    ready.parent.put(place, for_parent(status) && free);
}

/// Passes what of a procedure's callees needn't be awaited any more.
pub(crate) fn refresh(graph: &Graph, statuses: &[Option<Status>], ready: &mut Ready, proc: ProcId)
    requires proc { proc.0 < length graph.now }
    requires statuses { length statuses.now ≡ length graph.now }
    requires sized { IsSized (length graph.now) ready.old }
    requires inside { slice_index ready.old.passed.items proc.0 ≤ length (callees_in graph.now proc.0) }
    ensures sized { IsSized (length graph.now) ready.new }
    ensures flagged { IsFlagged graph.now statuses.now ready.new proc.0 }
    ensures inside { slice_index ready.new.passed.items proc.0 ≤ length (callees_in graph.now proc.0) }
    ensures passed { (bodies : ℕ → OptionOf BodyTree) → IsGraphOf bodies graph.now → NoneBlocks bodies statuses.now proc.0 (callees_in graph.now proc.0) (slice_index ready.old.passed.items proc.0) → IsPast bodies statuses.now proc.0 (callees_in graph.now proc.0) (slice_index ready.new.passed.items proc.0) }
    ensures others { (g : ℕ) → g ≢ proc.0 → SameOf g ready.old ready.new }
{
    let place = proc.0 as usize;
    let passed = pass(graph, statuses, proc, ready.passed[place]);
    ready.passed[place] = passed;
    put_flags(graph, statuses, ready, proc);
}

// The lesser of two places.
fn lesser(a: Option<usize>, b: Option<usize>) -> Option<usize>
    ensures { result ≡ spec.lesser a b }
{
    match (a, b) {
        (Some(a), Some(b)) => Some(if a < b { a } else { b }),
        (Some(a), None) => Some(a),
        (None, b) => b,
    }
}

impl Ready {
    /// What may be claimed where the procedures stand so.
    pub(crate) fn new(
        alloc: Global,
        graph: &Graph,
        kept: u32,
        statuses: &[Option<Status>],
    ) -> Result<Ready, NoMemory>
        requires kept { length graph.now ≡ kept }
        requires statuses { length statuses.now ≡ length graph.now }
        ensures { IfOk result (λ r. IsReady graph.now statuses.now r) }
    {
        let many = kept as usize;
        let mut ready = Ready {
            passed: vec![in alloc; 0; many]?,
            workers: Flags::new(alloc, many)?,
            parent: Flags::new(alloc, many)?,
        };
        for number in 0..kept {
            refresh(graph, statuses, &mut ready, ProcId(number));
        }
        Ok(ready)
    }

    /// The least that may be claimed. Takes no memory.
    pub(crate) fn least(&self, who: Who) -> Option<usize>
        ensures { spec.IsLeastOf who self.now result }
    {
        match who {
            Who::Worker(_) => self.workers.least(),
            Who::Parent => lesser(self.workers.least(), self.parent.least()),
        }
    }
}

/// The least that may be claimed. Takes no memory.
pub(crate) fn next_in(ready: &Ready, who: Who) -> Option<ProcId>
    requires workers { length ready.now.workers < 2 ^ 32 }
    requires parent { length ready.now.parent < 2 ^ 32 }
    ensures { spec.IsLeastOf who ready.now (option_map (λ p. p.0) result) }
{
    match ready.least(who) {
        Some(place) => Some(ProcId(place as u32)),
        None => None,
    }
}

ghost use Rattle.std.specs.Prelude.{◌≡◌, ℕ, ◌<◌, List, Option as OptionOf, Some, None, nat_eq, cond, false, true, length, slice_set, IfOk};
ghost use Rattle.px_pieces.specs.declared.desk.Status.{Status as StatusOf};
ghost use Rattle.px_pieces.specs.Desk.{start};
ghost use Rattle.px_book.specs.Ready.{status_at, is_unsettled, IsReady};
ghost use Rattle.px_book.specs.Rolls.{no_bodies};
ghost use Rattle.px_book.specs.RollKeeping.{AreCallers};

use crate::ready;
use crate::ready::{Ready, put_flags, refresh};
use px_base::ProcId;
use px_callgraph::Graph;
use px_components::Graph as Edges;
use px_pieces::Status;
use px_terms::NoMemory;
use std::alloc::Global;

/// Where the procedures stand at first: each waits, but those that are left out.
pub(crate) fn first_statuses(
    alloc: Global,
    kept: u32,
    out: &[ProcId],
) -> Result<Vec<Option<Status>>, NoMemory>
    ensures size { IfOk result (λ s. length s.items ≡ kept) }
    ensures start { IfOk result (λ s. (f : ℕ) → status_at s.items f ≡ start (record { bodies = no_bodies; kept = kept; out = out.now }) f) }
{
    let mut statuses = vec![in alloc; Some(Status::Waiting { losses: 0 }); kept as usize]?;
    for proc in out {
        leave_out(&mut statuses, *proc);
    }
    Ok(statuses)
}

// A procedure that is left out stands nowhere.
fn leave_out(statuses: &mut Vec<Option<Status>>, proc: ProcId)
    ensures size { length statuses.new.items ≡ length statuses.old.items }
    ensures out { (f : ℕ) → status_at statuses.new.items f ≡ cond (nat_eq proc.0 f) None (status_at statuses.old.items f) }
{
    let place = proc.0 as usize;
    if place < statuses.len() {
        statuses[place] = None;
    }
}

/// A procedure stands somewhere else, and isn't more or less settled than it was. Takes no memory.
pub(crate) fn move_to(
    graph: &Graph,
    statuses: &mut Vec<Option<Status>>,
    ready: &mut Ready,
    proc: ProcId,
    status: Status,
)
    requires proc { proc.0 < length graph.now }
    requires size { length statuses.old.items ≡ length graph.now }
    requires ready { IsReady graph.now statuses.old.items ready.old }
    requires same { is_unsettled (Some status) ≡ is_unsettled (status_at statuses.old.items proc.0) }
    ensures statuses { statuses.new.items ≡ slice_set statuses.old.items proc.0 (Some status) }
    ensures ready { IsReady graph.now statuses.new.items ready.new }
{
    statuses[proc.0 as usize] = Some(status);
    put_flags(graph, statuses, ready, proc);
}

/// A procedure is settled, and what awaited it alone is ready. Takes no memory.
pub(crate) fn settle(
    graph: &Graph,
    callers: &Edges,
    statuses: &mut Vec<Option<Status>>,
    ready: &mut Ready,
    proc: ProcId,
    status: Status,
)
    requires proc { proc.0 < length graph.now }
    requires callers { AreCallers graph.now callers.now }
    requires size { length statuses.old.items ≡ length graph.now }
    requires ready { IsReady graph.now statuses.old.items ready.old }
    requires settled { is_unsettled (Some status) ≡ false }
    ensures statuses { statuses.new.items ≡ slice_set statuses.old.items proc.0 (Some status) }
    ensures ready { IsReady graph.now statuses.new.items ready.new }
{
    statuses[proc.0 as usize] = Some(status);
    put_flags(graph, statuses, ready, proc);
    for caller in callers.targets(proc.0) {
        refresh(graph, statuses, ready, ProcId(*caller));
    }
}

/// Whether no procedure of the desk is left to be settled.
pub(crate) fn none_unsettled(statuses: &[Option<Status>]) -> bool
    ensures all { result ≡ true → (f : ℕ) → is_unsettled (status_at statuses.now f) ≡ false }
    ensures some { result ≡ false → (f : ℕ) × (is_unsettled (status_at statuses.now f) ≡ true) }
{
    for status in statuses {
        if ready::is_unsettled(*status) {
            return false;
        }
    }
    true
}

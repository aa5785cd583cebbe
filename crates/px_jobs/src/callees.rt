ghost use Rattle.std.specs.Prelude.{◌≡◌, ◌<◌, map, length, false, slice_index_or, IfOk};
ghost use Rattle.px_callgraph.specs.Callees.{IsCallee};
ghost use Rattle.px_symexec.specs.One.{Work, IsKnown};
ghost use Rattle.px_check.specs.Answers.{entry_of};
ghost use Rattle.px_pieces.specs.Found.{table_of};
ghost use Rattle.px_jobs.specs.Plans.{IsPlan, IsReady, AreCallees, tables_at};

use px_base::ProcId;
use px_callgraph::{Callee, Graph};
use px_check::Checked;
use px_entry::{Entry, Table};
use px_pieces::Part;
use px_terms::{ByValue, Items, NoMemory};
use std::alloc::Global;

/// What a kept procedure calls, in the order of the numbers, each with what is known of it, where all that it calls
/// below have their parts. `out` says by number which functions are left out.
pub fn callees_of(
    alloc: Global,
    graph: &Graph,
    out: &[bool],
    parts: &[Part],
    caller: ProcId,
) -> Result<Items<(ProcId, Callee)>, NoMemory>
    requires caller { caller.0 < length graph.now }
    requires parts { length parts.now ≡ length graph.now }
    ensures { IfOk result (λ cs. (w : Work) → IsPlan w graph.now out.now → IsReady w parts.now caller.0 → AreCallees w (tables_at parts.now) caller.0 cs) }
{
    let mut callees = Items::new(alloc);
    for callee in graph.callees(caller) {
        let known = what_is_known(alloc, graph, out, parts, caller, *callee)?;
        callees.push((*callee, known))?;
    }
    Ok(callees)
}

// What a kept procedure knows of one that it calls.
fn what_is_known(
    alloc: Global,
    graph: &Graph,
    out: &[bool],
    parts: &[Part],
    caller: ProcId,
    callee: ProcId,
) -> Result<Callee, NoMemory>
    requires caller { caller.0 < length graph.now }
    requires parts { length parts.now ≡ length graph.now }
    ensures { IfOk result (λ known. (w : Work) → IsPlan w graph.now out.now → IsReady w parts.now caller.0 → IsCallee w.bodies caller.0 callee.0 → IsKnown w (tables_at parts.now) caller.0 callee.0 known) }
{
    let place = callee.0 as usize;
    if is_out(out, place) {
        return Ok(Callee::LeftOut);
    }
    if place >= parts.len() {
        return Ok(Callee::Unknown);
    }
    if graph.together(caller, callee) {
        return Ok(Callee::Cycle);
    }
    match copy_of_table(alloc, &parts[place])? {
        Some(table) => Ok(Callee::Table(table)),
        // (of those that are called below, each that isn't left out has its table)
        None => Ok(Callee::LeftOut),
    }
}

// Whether the flag at this place is set.
pub(crate) fn is_out(out: &[bool], place: usize) -> bool
    ensures { result ≡ slice_index_or out.now place false }
{
    place < out.len() && out[place]
}

// A copy of the table of a part, if it has one.
fn copy_of_table(alloc: Global, part: &Part) -> Result<Option<Table>, NoMemory>
    ensures { IfOk result (λ table. table ≡ table_of part.now) }
{
    Ok(match part {
        Part::Tabled { checked, drops } => Some(Table {
            entries: entries_of(alloc, checked.as_slice())?,
            drops: drops.copy(alloc)?,
        }),
        Part::LeftOut => None,
    })
}

fn entries_of(alloc: Global, checked: &[Checked]) -> Result<Items<Entry>, NoMemory>
    ensures { IfOk result (λ entries. entries ≡ map entry_of checked.now) }
{
    let mut entries = Items::new(alloc);
    for entry in checked {
        entries.push(entry.entry().copy_in(alloc)?)?;
    }
    Ok(entries)
}

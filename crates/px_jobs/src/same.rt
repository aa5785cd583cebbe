ghost use Rattle.std.specs.Prelude.{◌≡◌, ◌↔◌, ◌<◌, map, length, true, Some};
ghost use Rattle.px_core.specs.BodyTree.{body_tree};
ghost use Rattle.px_callgraph.specs.Callees.{IsCallee};
ghost use Rattle.px_symexec.specs.One.{Work, IsKnown};
ghost use Rattle.px_check.specs.Answers.{entry_of};
ghost use Rattle.px_pieces.specs.Found.{table_of};
ghost use Rattle.px_jobs.specs.Plans.{IsPlan, IsReady, AreCallees, tables_at};

use crate::callees::is_out;
use px_base::ProcId;
use px_callgraph::{Callee, Graph};
use px_check::Checked;
use px_core::{Body, equal_bodies};
use px_entry::{Entry, Table};
use px_pieces::Part;
use px_terms::ByValue;

/// Whether these are what a kept procedure calls, each with what is known of it, where all that it calls below have
/// their parts.
pub(crate) fn are_callees(
    graph: &Graph,
    out: &[bool],
    parts: &[Part],
    caller: ProcId,
    callees: &[(ProcId, Callee)],
) -> bool
    requires caller { caller.0 < length graph.now }
    requires parts { length parts.now ≡ length graph.now }
    ensures { (w : Work) → IsPlan w graph.now out.now → IsReady w parts.now caller.0 → (result ≡ true) ↔ AreCallees w (tables_at parts.now) caller.0 callees.now }
{
    let called = graph.callees(caller);
    if called.len() != callees.len() {
        return false;
    }
    for place in 0..callees.len() {
        let expected = called[place];
        let (callee, known) = &callees[place];
        if callee.0 != expected.0 {
            return false;
        }
        if !is_known(graph, out, parts, caller, expected, known) {
            return false;
        }
    }
    true
}

// Whether a kept procedure knows this of one that it calls.
fn is_known(
    graph: &Graph,
    out: &[bool],
    parts: &[Part],
    caller: ProcId,
    callee: ProcId,
    known: &Callee,
) -> bool
    requires caller { caller.0 < length graph.now }
    requires parts { length parts.now ≡ length graph.now }
    ensures { (w : Work) → IsPlan w graph.now out.now → IsCallee w.bodies caller.0 callee.0 → (result ≡ true) ↔ IsKnown w (tables_at parts.now) caller.0 callee.0 known.now }
{
    let place = callee.0 as usize;
    if is_out(out, place) {
        return matches!(known, Callee::LeftOut);
    }
    if place >= parts.len() {
        return matches!(known, Callee::Unknown);
    }
    if graph.together(caller, callee) {
        return matches!(known, Callee::Cycle);
    }
    match known {
        Callee::Table(table) => is_table(&parts[place], table),
        Callee::Cycle | Callee::LeftOut | Callee::Unknown => false,
    }
}

// Whether this is the table of a part.
fn is_table(part: &Part, table: &Table) -> bool
    ensures { result ≡ true ↔ table_of part.now ≡ Some table.now }
{
    match part {
        Part::Tabled { checked, drops } => {
            are_entries(checked.as_slice(), table.entries.as_slice()) && drops.equals(&table.drops)
        }
        Part::LeftOut => false,
    }
}

// Whether these are the entries that were checked.
fn are_entries(checked: &[Checked], entries: &[Entry]) -> bool
    ensures { result ≡ true ↔ map entry_of checked.now ≡ entries.now }
{
    if checked.len() != entries.len() {
        return false;
    }
    for place in 0..entries.len() {
        if !checked[place].entry().equals(&entries[place]) {
            return false;
        }
    }
    true
}

/// Whether two lists have bodies that say the same.
pub(crate) fn same_bodies(left: &[Body], right: &[Body]) -> bool
    ensures { result ≡ true ↔ map body_tree left.now ≡ map body_tree right.now }
{
    if left.len() != right.len() {
        return false;
    }
    for place in 0..left.len() {
        if !equal_bodies(&left[place], &right[place]) {
            return false;
        }
    }
    true
}

/// Whether two lists have the same functions.
pub(crate) fn same_functions(left: &[ProcId], right: &[ProcId]) -> bool
    ensures { result ≡ true ↔ left.now ≡ right.now }
{
    left == right
}

/// Whether two lists have the same kinds.
pub(crate) fn same_kinds(left: &[u8], right: &[u8]) -> bool
    ensures { result ≡ true ↔ left.now ≡ right.now }
{
    left == right
}

ghost use Rattle.std.specs.Prelude.{◌≡◌, ◌++◌, ◌∷◌, [], IfOk, OnOk};
ghost use Rattle.std.specs.Option.{option_copied};
ghost use Rattle.px_callgraph.specs.Calls as spec;
ghost use Rattle.px_callgraph.specs.JobTree.{callee_in};
ghost use Rattle.px_callgraph.specs.declared.states.Way.TheVariants as way;
ghost use Rattle.px_ways.specs.Listed.{lists};
ghost use Rattle.px_calls.specs.Calls.{or_unknown};
ghost use Rattle.px_calls.specs.Listed as listed;

use px_base::ProcId;
use px_callgraph::{Callee, Way};
use px_entry::{Cause, Entry, Gap, Table};
use px_terms::NoMemory;
use std::alloc::Global;

/// What is known of a procedure; none where the list doesn't name it.
pub(crate) fn find_callee(callees: &[(ProcId, Callee)], proc: ProcId) -> Option<&Callee>
    ensures { or_unknown (option_copied result) ≡ callee_in callees.now proc }
{
    for pair in callees {
        if pair.0.0 == proc.0 {
            return Some(&pair.1);
        }
    }
    None
}

/// The entry of a callee with a number.
pub(crate) fn entry_in(callee: Option<&Callee>, n: u32) -> Option<&Entry>
    ensures { option_copied result ≡ spec.entry_in (or_unknown (option_copied callee.entry)) n }
{
    match callee {
        Some(Callee::Table(table)) => table.entries.get(n as usize),
        _ => None,
    }
}

/// Why a path isn't followed where no entry of a callee is taken.
pub(crate) fn drop_cause(proc: ProcId, callee: Option<&Callee>) -> Cause
    ensures { result ≡ spec.drop_cause proc (or_unknown (option_copied callee.entry)) }
{
    match callee {
        Some(Callee::Table(_)) => Cause::Dropped(proc),
        Some(Callee::Cycle) => Cause::Cycle(proc),
        Some(Callee::LeftOut) => Cause::LeftOut(proc),
        Some(Callee::Unknown) | None => Cause::Unknown(proc),
    }
}

/// The ways to choose an entry of a callee, in order, and last a drop where there is one.
pub(crate) fn callee_ways(alloc: Global, callee: Option<&Callee>) -> Result<Vec<Way>, NoMemory>
    ensures { IfOk result (λ r. r.items ≡ spec.callee_ways (or_unknown (option_copied callee.entry))) }
{
    match callee {
        Some(Callee::Table(table)) => table_ways(alloc, table),
        _ => drop_alone(alloc),
    }
}

/// Whether a way is one to choose an entry of a callee, or a drop where there is one. No list is made.
pub(crate) fn is_callee_way(callee: Option<&Callee>, way: Way) -> bool
    ensures { result ≡ lists (spec.callee_ways (or_unknown (option_copied callee.entry))) way }
{
    match callee {
        Some(Callee::Table(table)) => is_table_way(table, way),
        _ => is_drop(way),
    }
}

fn is_drop(name: Way) -> bool
    ensures { result ≡ lists (way.Drop ∷ []) name }
{
    matches!(name, Way::Drop)
}

#[tactic(auto, using(crate::proofs::ListedLemmas::choices))]
fn is_table_way(table: &Table, way: Way) -> bool
    ensures { result ≡ lists (spec.entry_ways 0 table.now.entries ++ spec.drop_way table.now.drops) way }
{
    is_choice(table.entries.as_slice(), table.drops.as_slice(), way)
}

fn is_choice(entries: &[Entry], drops: &[Gap], way: Way) -> bool
    ensures { result ≡ listed.is_choice entries.now drops.now way }
{
    match way {
        Way::Entry(n) => (n as usize) < entries.len(),
        Way::Drop => has_drops(drops),
        _ => false,
    }
}

fn has_drops(drops: &[Gap]) -> bool
    ensures { result ≡ listed.is_choice [] drops.now way.Drop }
{
    match drops {
        [] => false,
        [_, ..] => true,
    }
}

fn drop_alone(alloc: Global) -> Result<Vec<Way>, NoMemory>
    ensures { IfOk result (λ r. r.items ≡ way.Drop ∷ []) }
{
    let mut found = Vec::new(alloc);
    found.push(Way::Drop)?;
    Ok(found)
}

fn table_ways(alloc: Global, table: &Table) -> Result<Vec<Way>, NoMemory>
    ensures { IfOk result (λ r. r.items ≡ spec.entry_ways 0 table.now.entries ++ spec.drop_way table.now.drops) }
{
    let mut found = Vec::new(alloc);
    put_entries(&mut found, table.entries.as_slice())?;
    put_drop(&mut found, table.drops.as_slice())?;
    Ok(found)
}

// Each entry, after other ways. `NoMemory` too where the numbers of entries don't suffice.
fn put_entries(found: &mut Vec<Way>, entries: &[Entry]) -> Result<(), NoMemory>
    ensures { OnOk result (found.new.items ≡ found.old.items ++ spec.entry_ways 0 entries.now) }
{
    for i in 0..entries.len() {
        put_entry(found, i)?;
    }
    Ok(())
}

fn put_entry(found: &mut Vec<Way>, n: usize) -> Result<(), NoMemory>
    ensures { OnOk result (found.new.items ≡ found.old.items ++ way.Entry n ∷ []) }
{
    if n > u32::MAX as usize {
        return Err(NoMemory);
    }
    found.push(Way::Entry(n as u32))?;
    Ok(())
}

// A drop, after other ways, where there are drops.
fn put_drop(found: &mut Vec<Way>, drops: &[Gap]) -> Result<(), NoMemory>
    ensures { OnOk result (found.new.items ≡ found.old.items ++ spec.drop_way drops.now) }
{
    match drops {
        [] => {}
        [_, ..] => found.push(Way::Drop)?,
    }
    Ok(())
}

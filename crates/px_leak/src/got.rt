ghost use Rattle.std.specs.Prelude.{◌≡◌, ◌+◌, ◌<◌, ◌≤◌, ◌++◌, ◌∷◌, ◌^◌, [], List, IfOk, OnOk};
ghost use Rattle.px_base.specs.declared.trace.ProcId.{ProcId as Called};
ghost use Rattle.px_text_report.specs.Calls.{open_after, without_innermost};
ghost use Rattle.px_entry.specs.Sorts as sorts;
ghost use Rattle.px_leak.specs.Losses as spec;
ghost use Rattle.px_leak.specs.OpenCalls.{Holds};

use px_base::{Mark, MarkKind, ProcId, Site};
use px_entry::Entry;
use px_terms::{NoMemory, Sort, VarInfo};
use std::alloc::Global;

/// Where a path got a block, and the outermost call that is open there.
#[derive(Clone, Copy)]
pub(crate) struct Spot {
    pub(crate) site: Site,
    pub(crate) call: Option<ProcId>,
}

/// A block that a path got: the variable of its place, and its spot.
#[derive(Clone, Copy)]
pub(crate) struct GotBlock {
    pub(crate) place: usize,
    pub(crate) site: Site,
    pub(crate) call: Option<ProcId>,
}

/// The calls that are open: how many, and the outermost.
#[derive(Clone, Copy)]
pub(crate) struct OpenCalls {
    pub(crate) depth: usize,
    pub(crate) first: Option<ProcId>,
}

/// The blocks that an entry got, in order.
pub(crate) fn got_blocks(alloc: Global, entry: &Entry) -> Result<Vec<GotBlock>, NoMemory>
    ensures { IfOk result (λ v. v.items ≡ spec.got_blocks entry.now) }
{
    let made = made_variables(alloc, entry.vars.as_slice())?;
    let spots = spots(alloc, entry.trace.as_slice())?;
    together(alloc, &made, &spots)
}

// The numbers of the made variables.
fn made_variables(alloc: Global, vars: &[VarInfo]) -> Result<Vec<usize>, NoMemory>
    ensures { IfOk result (λ v. v.items ≡ spec.made_from 0 vars.now) }
{
    let mut made = Vec::new(alloc);
    for number in 0..vars.len() {
        if is_made_sort(vars[number].sort) {
            made.push(number)?;
        }
    }
    Ok(made)
}

fn is_made_sort(sort: Sort) -> bool
    ensures { result ≡ sorts.is_made_sort sort }
{
    matches!(sort, Sort::Made)
}

// Where a trace got blocks.
fn spots(alloc: Global, trace: &[Mark]) -> Result<Vec<Spot>, NoMemory>
    ensures { IfOk result (λ v. v.items ≡ spec.spots [] trace.now) }
{
    let mut spots = Vec::new(alloc);
    let mut open = OpenCalls {
        depth: 0,
        first: None,
    };
    for mark in trace {
        put_spot(&mut spots, open.first, *mark)?;
        open = open.after(mark.kind);
    }
    Ok(spots)
}

// Adds the spot of a mark, if it got a block.
fn put_spot(spots: &mut Vec<Spot>, call: Option<ProcId>, mark: Mark) -> Result<(), NoMemory>
    ensures { OnOk result (spots.new.items ≡ spots.old.items ++ spec.spot_of call mark.site mark.kind) }
{
    if let MarkKind::Got = mark.kind {
        spots.push(Spot {
            site: mark.site,
            call,
        })?;
    }
    Ok(())
}

impl OpenCalls {
    // Those that are open after a mark.
    fn after(self, kind: MarkKind) -> OpenCalls
        requires { self.depth + 1 < 2 ^ 64 }
        ensures holds { (calls : List Called) → Holds calls self → Holds (open_after calls kind) result }
        ensures depth { result.depth ≤ self.depth + 1 }
    {
        match kind {
            MarkKind::Enter(callee) => self.with(callee),
            MarkKind::Leave => self.without(),
            _ => self,
        }
    }

    // And a call inside of them.
    fn with(self, callee: ProcId) -> OpenCalls
        requires { self.depth + 1 < 2 ^ 64 }
        ensures holds { (calls : List Called) → Holds calls self → Holds (callee ∷ calls) result }
        ensures depth { result.depth ≤ self.depth + 1 }
    {
        OpenCalls {
            depth: self.depth + 1,
            first: if self.depth == 0 {
                Some(callee)
            } else {
                self.first
            },
        }
    }

    // But for the innermost.
    fn without(self) -> OpenCalls
        ensures holds { (calls : List Called) → Holds calls self → Holds (without_innermost calls) result }
        ensures depth { result.depth ≤ self.depth }
    {
        if self.depth <= 1 {
            OpenCalls {
                depth: 0,
                first: None,
            }
        } else {
            OpenCalls {
                depth: self.depth - 1,
                first: self.first,
            }
        }
    }
}

// The n-th variable and the n-th spot as a block.
fn together(alloc: Global, made: &[usize], spots: &[Spot]) -> Result<Vec<GotBlock>, NoMemory>
    ensures { IfOk result (λ v. v.items ≡ spec.together made.now spots.now) }
{
    let mut blocks = Vec::new(alloc);
    for i in 0..made.len().min(spots.len()) {
        blocks.push(block_at(made[i], spots[i]))?;
    }
    Ok(blocks)
}

fn block_at(place: usize, spot: Spot) -> GotBlock
    ensures { result ≡ record { place = place; site = spot.site; call = spot.call } }
{
    GotBlock {
        place,
        site: spot.site,
        call: spot.call,
    }
}

ghost use Rattle.std.specs.Prelude.{◌≡◌, ◌≢◌, ℕ, ◌+◌, ◌-◌, ◌^◌, ◌<◌, ◌≤◌, ◌⊎◌, length, true, false};
ghost use Rattle.std.specs.Vec.{vec_len, vec_capacity};
ghost use Rattle.px_plain.specs.Differences.{AreInside};
ghost use Rattle.px_plain.specs.Trees.{IsRanked, parent_at, rank_at};
ghost use Rattle.px_plain.specs.Steps as steps;
ghost use Rattle.px_plain.specs.Changes as spec;
ghost use Rattle.px_plain.specs.Changes.{WordsChanged, PlacesChanged, ApartChanged, MayMark, CannotMark};

use crate::claims::{Change, Claim, Ends, Mark};
use crate::marks::is_cell;
use crate::merging::merge;
use crate::nodes::Difference;
use crate::trees::{Tree, are_one, find, join};
use px_terms::VarInfo;

// The lower end of a claim, the other one, and what they are once the claim holds.
fn from_of(claim: Claim) -> u32
    ensures { result ≡ spec.from_of claim }
{
    match claim {
        Claim::Nothing => 0,
        Claim::Words(d) | Claim::Places(d) => d.from,
        Claim::Written(u) | Claim::Unwritten(u) | Claim::Apart(u) => u,
    }
}

fn to_of(claim: Claim) -> u32
    ensures { result ≡ spec.to_of claim }
{
    match claim {
        Claim::Nothing | Claim::Apart(_) => 0,
        Claim::Words(d) | Claim::Places(d) => d.to,
        Claim::Written(u) | Claim::Unwritten(u) => u,
    }
}

pub(crate) fn mark_of(claim: Claim) -> Mark
    ensures { result ≡ spec.mark_of claim }
{
    match claim {
        Claim::Unwritten(_) => Mark::Unwritten,
        _ => Mark::Written,
    }
}

// The ends of a claim, and their marks.
pub(crate) fn ends_of(marks: &[Mark], claim: Claim) -> Ends
    requires from_inside { spec.from_of claim < length marks.now }
    requires to_inside { spec.to_of claim < length marks.now }
    ensures { result ≡ spec.ends_of marks.now claim }
{
    let from = from_of(claim);
    let to = to_of(claim);
    Ends {
        from,
        to,
        from_was: marks[from as usize],
        to_was: marks[to as usize],
    }
}

// Marks the ends.
pub(crate) fn put_marks(marks: &mut [Mark], ends: Ends, mark: Mark)
    requires from_inside { ends.from < length marks.old }
    requires to_inside { ends.to < length marks.old }
    ensures { marks.new ≡ steps.marked marks.old ends mark }
{
    marks[ends.from as usize] = mark;
    marks[ends.to as usize] = mark;
}

// Gives the ends the marks that they had.
pub(crate) fn take_marks(marks: &mut [Mark], ends: Ends)
    requires from_inside { ends.from < length marks.old }
    requires to_inside { ends.to < length marks.old }
    ensures { marks.new ≡ steps.unmarked marks.old ends }
{
    marks[ends.to as usize] = ends.to_was;
    marks[ends.from as usize] = ends.from_was;
}

// Whether two marks are one.
fn is_mark(a: Mark, b: Mark) -> bool
    ensures yes { result ≡ true → a ≡ b }
    ensures no { result ≡ false → a ≢ b }
{
    a == b
}

// Whether a node can be unwritten.
fn may_be_unwritten(vars: &[VarInfo], marks: &[Mark], node: u32) -> bool
    requires some { 0 < node }
    requires inside { node ≤ length vars.now }
    requires marks { node < length marks.now }
    ensures yes { result ≡ true → MayMark vars.now marks.now (Claim.Unwritten node) }
    ensures no { result ≡ false → CannotMark vars.now marks.now (Claim.Unwritten node) }
{
    if is_mark(marks[node as usize], Mark::Written) {
        return false;
    }
    is_cell(vars[node as usize - 1])
}

// Whether both ends can be written.
fn may_be_written(marks: &[Mark], from: u32, to: u32) -> bool
    requires from_inside { from < length marks.now }
    requires to_inside { to < length marks.now }
    ensures yes { result ≡ true → (steps.mark_at marks.now from ≢ Mark.Unwritten) × (steps.mark_at marks.now to ≢ Mark.Unwritten) }
    ensures no { result ≡ false → (steps.mark_at marks.now from ≡ Mark.Unwritten) ⊎ (steps.mark_at marks.now to ≡ Mark.Unwritten) }
{
    if is_mark(marks[from as usize], Mark::Unwritten) {
        return false;
    }
    !is_mark(marks[to as usize], Mark::Unwritten)
}

// Whether the ends can be what the claim says.
pub(crate) fn may_mark(vars: &[VarInfo], marks: &[Mark], claim: Claim) -> bool
    requires from_inside { spec.from_of claim < length marks.now }
    requires to_inside { spec.to_of claim < length marks.now }
    requires marks { length marks.now ≡ length vars.now + 1 }
    requires unwritten { (u : ℕ) → claim ≡ Claim.Unwritten u → 0 < u }
    ensures yes { result ≡ true → MayMark vars.now marks.now claim }
    ensures no { result ≡ false → CannotMark vars.now marks.now claim }
{
    match claim {
        Claim::Nothing => may_be_written(marks, 0, 0),
        Claim::Words(d) => may_be_written(marks, d.from, d.to),
        Claim::Places(d) => may_be_written(marks, d.from, d.to),
        Claim::Written(u) => may_be_written(marks, u, u),
        Claim::Unwritten(u) => may_be_unwritten(vars, marks, u),
        Claim::Apart(u) => may_be_written(marks, u, 0),
    }
}

// Adds an equality or a disequality of words. None, and nothing changed, where it can't hold.
pub(crate) fn change_words(
    table: &mut [Tree],
    unequal: &mut Vec<Difference>,
    difference: Difference,
) -> Option<Change>
    requires ranked { IsRanked table.old }
    requires ranks { (v : ℕ) → v < length table.old → rank_at table.old v < 2 ^ 32 - 1 }
    requires from_inside { difference.from < length table.old }
    requires to_inside { difference.to < length table.old }
    requires inside { AreInside (length table.old) unequal.old.items }
    requires room { vec_len unequal.old < vec_capacity unequal.old }
    ensures { WordsChanged table.old unequal.old.items difference table.new unequal.new.items result }
{
    if difference.equal {
        return join(table, unequal, difference);
    }
    if are_one(table, difference) {
        return None;
    }
    unequal.push_reserved(difference);
    Some(Change::UnequalWords)
}

// Adds an equality or a disequality of places. None, and nothing changed, where it can't hold.
pub(crate) fn change_places(
    vars: &[VarInfo],
    table: &mut [Tree],
    unequal: &mut Vec<Difference>,
    owners: &[bool],
    difference: Difference,
) -> Option<Change>
    requires ranked { IsRanked table.old }
    requires ranks { (v : ℕ) → v < length table.old → rank_at table.old v < 2 ^ 32 - 1 }
    requires null { parent_at table.old 0 ≡ 0 }
    requires from_inside { difference.from < length table.old }
    requires to_inside { difference.to < length table.old }
    requires inside { AreInside (length table.old) unequal.old.items }
    requires vars { length table.old ≡ length vars.now + 1 }
    requires owners { length owners.now ≡ length vars.now + 1 }
    requires room { vec_len unequal.old < vec_capacity unequal.old }
    ensures { PlacesChanged vars.now owners.now table.old unequal.old.items difference table.new unequal.new.items result }
{
    if difference.equal {
        return merge(vars, table, unequal, owners, difference);
    }
    if are_one(table, difference) {
        return None;
    }
    unequal.push_reserved(difference);
    Some(Change::UnequalPlaces)
}

// Says that the place of a node is apart. None, and nothing changed, where it is null or another one's that is.
pub(crate) fn change_apart(table: &[Tree], owners: &mut [bool], node: u32) -> Option<Change>
    requires ranked { IsRanked table.now }
    requires inside { node < length table.now }
    requires owners { length owners.old ≡ length table.now }
    ensures { ApartChanged table.now owners.old node owners.new result }
{
    let root = find(table, node as usize).parent;
    if root == 0 {
        return None;
    }
    if owners[root as usize] {
        return None;
    }
    owners[root as usize] = true;
    Some(Change::Owner(root))
}

ghost use Rattle.std.specs.Prelude.{◌≡◌, ◌≢◌, ℕ, ◌+◌, ◌-◌, ◌^◌, ◌<◌, ◌≤◌, length, true, false};
ghost use Rattle.px_plain.specs.Differences.{AreInside};
ghost use Rattle.px_plain.specs.Trees.{IsRanked, parent_at, rank_at};
ghost use Rattle.px_plain.specs.Joins.{JoinsPlaces, IsMadeNode, HaveTwoTypes, HaveOneType, Meets, MeetsNull, MeetsOwned, IsMeetingOf, MergesBelow, MergesNull};

use crate::claims::Change;
use crate::nodes::Difference;
use crate::places::{is_made, is_same_type};
use crate::trees::{Tree, find, link_apart, link_of, put_link, take_link};
use px_terms::VarInfo;

// What an equality of two places asks of their roots.
#[derive(Clone, Copy)]
pub(crate) enum Meeting {
    // It can't hold.
    Clash,
    // They are one.
    Same,
    // The first comes below the second.
    Below(u32, u32),
    // Both come below null.
    Null(u32, u32),
}

// Whether a node is that of a made variable.
fn is_made_node(vars: &[VarInfo], node: u32) -> bool
    requires { node ≤ length vars.now }
    ensures yes { result ≡ true → IsMadeNode vars.now node }
    ensures no { result ≡ false → ¬ IsMadeNode vars.now node }
{
    node > 0 && is_made(vars[node as usize - 1])
}

// Whether the variables of two nodes have one type.
fn have_one_type(vars: &[VarInfo], a: u32, b: u32) -> bool
    requires first_some { 0 < a }
    requires second_some { 0 < b }
    requires first { a ≤ length vars.now }
    requires second { b ≤ length vars.now }
    ensures yes { result ≡ true → HaveOneType vars.now a b }
    ensures no { result ≡ false → HaveTwoTypes vars.now a b }
{
    is_same_type(vars[a as usize - 1].value, vars[b as usize - 1].value)
}

// Two places of which one is null, or that have two types, are null.
fn meet_null(owners: &[bool], a: u32, b: u32) -> Meeting
    requires first { a < length owners.now }
    requires second { b < length owners.now }
    requires two { a ≢ b }
    ensures { MeetsNull owners.now a b result }
{
    if owners[a as usize] || owners[b as usize] {
        return Meeting::Clash;
    }
    if a == 0 {
        return Meeting::Below(b, 0);
    }
    if b == 0 {
        return Meeting::Below(a, 0);
    }
    Meeting::Null(a, b)
}

// A root with a place apart stays a root; else the tree of lower rank comes below the other.
fn meet_owned(table: &[Tree], owners: &[bool], a: u32, b: u32) -> Meeting
    requires first { a < length table.now }
    requires second { b < length table.now }
    requires first_owner { a < length owners.now }
    requires second_owner { b < length owners.now }
    ensures { MeetsOwned owners.now a b result }
{
    let first = owners[a as usize];
    let second = owners[b as usize];
    if first && second {
        return Meeting::Clash;
    }
    if first {
        return Meeting::Below(b, a);
    }
    if second {
        return Meeting::Below(a, b);
    }
    if table[a as usize].rank < table[b as usize].rank {
        return Meeting::Below(a, b);
    }
    Meeting::Below(b, a)
}

// What the equality of two roots asks.
fn meet(vars: &[VarInfo], table: &[Tree], owners: &[bool], a: u32, b: u32) -> Meeting
    requires first { a < length table.now }
    requires second { b < length table.now }
    requires vars { length table.now ≡ length vars.now + 1 }
    requires owners { length owners.now ≡ length vars.now + 1 }
    ensures { Meets vars.now owners.now a b result }
{
    if a == b {
        return Meeting::Same;
    }
    if is_made_node(vars, a) {
        return Meeting::Clash;
    }
    if is_made_node(vars, b) {
        return Meeting::Clash;
    }
    if a == 0 {
        return meet_null(owners, a, b);
    }
    if b == 0 {
        return meet_null(owners, a, b);
    }
    if have_one_type(vars, a, b) {
        return meet_owned(table, owners, a, b);
    }
    meet_null(owners, a, b)
}

// Puts a root of places below another. None, and nothing changed, where a disequality can't hold then.
fn merge_below(table: &mut [Tree], unequal: &[Difference], root: u32, parent: u32) -> Option<Change>
    requires ranked { IsRanked table.old }
    requires ranks { (v : ℕ) → v < length table.old → rank_at table.old v < 2 ^ 32 - 1 }
    requires meeting { IsMeetingOf table.old root parent }
    requires inside { AreInside (length table.old) unequal.now }
    ensures { MergesBelow table.old unequal.now root parent table.new result }
{
    let link = link_of(table, root, parent, 0);
    if link_apart(table, unequal, link) {
        return Some(Change::Places(link));
    }
    None
}

// Puts two roots of places below null. None, and nothing changed, where a disequality can't hold then.
fn merge_null(table: &mut [Tree], unequal: &[Difference], a: u32, b: u32) -> Option<Change>
    requires ranked { IsRanked table.old }
    requires ranks { (v : ℕ) → v < length table.old → rank_at table.old v < 2 ^ 32 - 1 }
    requires first { IsMeetingOf table.old a 0 }
    requires second { IsMeetingOf table.old b 0 }
    requires two { a ≢ b }
    requires inside { AreInside (length table.old) unequal.now }
    ensures { MergesNull table.old unequal.now a b table.new result }
{
    let first = link_of(table, a, 0, 0);
    put_link(table, first);
    let second = link_of(table, b, 0, 0);
    if link_apart(table, unequal, second) {
        return Some(Change::Null(first, second));
    }
    take_link(table, first);
    None
}

// Makes an equality of places hold. None, and nothing changed, where it can't hold.
pub(crate) fn merge(
    vars: &[VarInfo],
    table: &mut [Tree],
    unequal: &[Difference],
    owners: &[bool],
    difference: Difference,
) -> Option<Change>
    requires ranked { IsRanked table.old }
    requires ranks { (v : ℕ) → v < length table.old → rank_at table.old v < 2 ^ 32 - 1 }
    requires null { parent_at table.old 0 ≡ 0 }
    requires from_inside { difference.from < length table.old }
    requires to_inside { difference.to < length table.old }
    requires inside { AreInside (length table.old) unequal.now }
    requires vars { length table.old ≡ length vars.now + 1 }
    requires owners { length owners.now ≡ length vars.now + 1 }
    ensures { JoinsPlaces vars.now owners.now table.old unequal.now difference table.new result }
{
    let a = find(table, difference.from as usize).parent;
    let b = find(table, difference.to as usize).parent;
    match meet(vars, table, owners, a, b) {
        Meeting::Clash => None,
        Meeting::Same => Some(Change::Nothing),
        Meeting::Below(root, parent) => merge_below(table, unequal, root, parent),
        Meeting::Null(first, second) => merge_null(table, unequal, first, second),
    }
}

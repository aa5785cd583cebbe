ghost use Rattle.std.specs.Prelude.{◌≡◌, ◌≢◌, ℕ, ◌+◌, ◌^◌, ◌-◌, ◌<◌, length, true, false};
ghost use Rattle.px_plain.specs.Differences.{AreInside};
ghost use Rattle.px_plain.specs.Trees as spec;
ghost use Rattle.px_plain.specs.Trees.{Flat, IsRanked, IsLink, AreOne, IsSomeOne, AreApart, Joined, parent_at, rank_at};
ghost use Rattle.px_plain.specs.Joins.{JoinsWords};

use crate::claims::Change;
use crate::nodes::{Difference, Node};

// A node of a tree: its parent, how far its value is above the parent's, and more than the ranks of its children.
// A root is its own parent.
#[derive(Clone, Copy)]
pub(crate) struct Tree {
    pub(crate) parent: u32,
    pub(crate) offset: u32,
    pub(crate) rank: u32,
}

// A root comes below another, which had this rank before.
#[derive(Clone, Copy)]
pub(crate) struct Link {
    pub(crate) root: u32,
    pub(crate) parent: u32,
    pub(crate) offset: u32,
    pub(crate) rank: u32,
}

// What an equality asks of trees.
#[derive(Clone, Copy)]
pub(crate) enum Joining {
    // It can't hold.
    Clash,
    // It holds already.
    Held,
    // It holds where a root comes below another.
    By(Link),
}

// The root of a node, and how far the node's value is above the root's. Takes as many steps as the tree is
// high: the logarithm of its size.
pub(crate) fn find(table: &[Tree], node: usize) -> Node
    requires ranked { IsRanked table.now }
    requires inside { node < length table.now }
    ensures inside { result.parent < length table.now }
    ensures root { parent_at table.now result.parent ≡ result.parent }
    ensures found { (f : Flat table.now) → result.parent ≡ f.root node }
    ensures above { (f : Flat table.now) → result.offset ≡ f.above node }
{
    let mut at = node;
    let mut offset: u32 = 0;
    while table[at].parent as usize != at {
        offset = offset.wrapping_add(table[at].offset);
        at = table[at].parent as usize;
    }
    Node {
        parent: table[at].parent,
        offset,
    }
}

// Whether a difference holds since its ends have one root.
pub(crate) fn are_one(table: &[Tree], difference: Difference) -> bool
    requires ranked { IsRanked table.now }
    requires from_inside { difference.from < length table.now }
    requires to_inside { difference.to < length table.now }
    ensures yes { result ≡ true → (f : Flat table.now) → AreOne f difference }
    ensures no { result ≡ false → (f : Flat table.now) → ¬ AreOne f difference }
{
    let a = find(table, difference.from as usize);
    let b = find(table, difference.to as usize);
    let above = a.offset.wrapping_add(difference.plus);
    a.parent == b.parent && above == b.offset
}

// Whether one of the differences holds. Looks at all of them.
pub(crate) fn is_some_one(table: &[Tree], differences: &[Difference]) -> bool
    requires ranked { IsRanked table.now }
    requires inside { AreInside (length table.now) differences.now }
    ensures yes { result ≡ true → IsSomeOne table.now differences.now }
    ensures no { result ≡ false → AreApart table.now differences.now }
{
    for j in 0..differences.len() {
        if are_one(table, differences[j]) {
            return true;
        }
    }
    false
}

// How a root comes below another.
pub(crate) fn link_of(table: &[Tree], root: u32, parent: u32, offset: u32) -> Link
    requires inside { parent < length table.now }
    ensures { result ≡ record { root = root; parent = parent; offset = offset; rank = rank_at table.now parent } }
{
    Link {
        root,
        parent,
        offset,
        rank: table[parent as usize].rank,
    }
}

// Puts a root below another.
pub(crate) fn put_link(table: &mut [Tree], link: Link)
    requires root_inside { link.root < length table.old }
    requires parent_inside { link.parent < length table.old }
    requires room { rank_at table.old link.root < 2 ^ 32 - 1 }
    ensures { table.new ≡ spec.linked table.old link }
{
    let rank = table[link.root as usize].rank;
    table[link.root as usize] = Tree {
        parent: link.parent,
        offset: link.offset,
        rank,
    };
    let above = table[link.parent as usize];
    table[link.parent as usize] = Tree {
        parent: above.parent,
        offset: above.offset,
        rank: above.rank.max(rank + 1),
    };
}

// Takes a root back from below another.
pub(crate) fn take_link(table: &mut [Tree], link: Link)
    requires root_inside { link.root < length table.old }
    requires parent_inside { link.parent < length table.old }
    ensures { table.new ≡ spec.unlinked table.old link }
{
    let above = table[link.parent as usize];
    table[link.parent as usize] = Tree {
        parent: above.parent,
        offset: above.offset,
        rank: link.rank,
    };
    let rank = table[link.root as usize].rank;
    table[link.root as usize] = Tree {
        parent: link.root,
        offset: 0,
        rank,
    };
}

// What an equality asks of the roots.
pub(crate) fn joining_of(table: &[Tree], difference: Difference) -> Joining
    requires ranked { IsRanked table.now }
    requires from_inside { difference.from < length table.now }
    requires to_inside { difference.to < length table.now }
    ensures { Joined table.now difference result }
{
    let a = find(table, difference.from as usize);
    let b = find(table, difference.to as usize);
    let above = a.offset.wrapping_add(difference.plus);
    if a.parent == b.parent {
        return if above == b.offset {
            Joining::Held
        } else {
            Joining::Clash
        };
    }
    if table[a.parent as usize].rank < table[b.parent as usize].rank {
        let offset = b.offset.wrapping_sub(above);
        return Joining::By(link_of(table, a.parent, b.parent, offset));
    }
    let offset = above.wrapping_sub(b.offset);
    Joining::By(link_of(table, b.parent, a.parent, offset))
}

// Puts a root below another. False, and nothing changed, where a disequality can't hold then.
//
// Looks through all disequalities.
pub(crate) fn link_apart(table: &mut [Tree], unequal: &[Difference], link: Link) -> bool
    requires ranked { IsRanked table.old }
    requires link { IsLink table.old link }
    requires room { rank_at table.old link.root < 2 ^ 32 - 1 }
    requires inside { AreInside (length table.old) unequal.now }
    ensures yes { result ≡ true → (table.new ≡ spec.linked table.old link) × AreApart table.new unequal.now }
    ensures no { result ≡ false → (table.new ≡ table.old) × IsSomeOne (spec.linked table.old link) unequal.now }
{
    put_link(table, link);
    if is_some_one(table, unequal) {
        take_link(table, link);
        return false;
    }
    true
}

// Makes an equality of words hold. None, and nothing changed, where it can't hold beside the disequalities.
pub(crate) fn join(
    table: &mut [Tree],
    unequal: &[Difference],
    difference: Difference,
) -> Option<Change>
    requires ranked { IsRanked table.old }
    requires ranks { (v : ℕ) → v < length table.old → rank_at table.old v < 2 ^ 32 - 1 }
    requires from_inside { difference.from < length table.old }
    requires to_inside { difference.to < length table.old }
    requires inside { AreInside (length table.old) unequal.now }
    ensures { JoinsWords table.old unequal.now difference table.new result }
{
    match joining_of(table, difference) {
        Joining::Clash => None,
        Joining::Held => Some(Change::Nothing),
        Joining::By(link) => {
            if link_apart(table, unequal, link) {
                Some(Change::Words(link))
            } else {
                None
            }
        }
    }
}

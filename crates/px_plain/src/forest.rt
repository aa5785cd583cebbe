ghost use Rattle.std.specs.Prelude.{◌≡◌, ◌≢◌, ℕ, ◌<◌, ◌≤◌, length, true, slice_set, IfOk};
ghost use Rattle.px_plain.specs.Forest.{node_at, parent_at, IsForest, IsAbove, Keeps, SameSolutions, RootsStay, IsFlat};
ghost use Rattle.px_plain.specs.Differences.{IfEqual, AllEqual, AreInside};

use crate::nodes::{Difference, Node};
use std::alloc::{AllocError, Global};

/// A forest of roots.
pub fn roots(alloc: Global, count: u32) -> Result<Vec<Node>, AllocError>
    ensures size { IfOk result (λ t. length t.items ≡ count) }
    ensures forest { IfOk result (λ t. IsForest t.items) }
    ensures free { IfOk result (λ t. (val : ℕ → ℕ) → Keeps val t.items) }
{
    let mut table = Vec::new(alloc);
    for parent in 0..count {
        table.push(Node { parent, offset: 0 })?;
    }
    Ok(table)
}

// Makes the parent of a node's parent its parent, and gives the node as it then is.
fn halve(table: &mut [Node], at: usize) -> Node
    requires forest { IsForest table.old }
    requires inside { at < length table.old }
    requires inner { parent_at table.old at ≢ at }
    ensures lower { result.parent < at }
    ensures grandparent { result.parent ≡ parent_at table.old (parent_at table.old at) }
    ensures written { table.new ≡ slice_set table.old at result }
    ensures above { (val : ℕ → ℕ) → Keeps val table.old → IsAbove val at result.parent result.offset }
    ensures forest { IsForest table.new }
    ensures same { SameSolutions table.old table.new }
    ensures roots { RootsStay table.old table.new }
{
    let node = table[at];
    let parent = table[node.parent as usize];
    let shorter = Node {
        parent: parent.parent,
        offset: node.offset.wrapping_add(parent.offset),
    };
    table[at] = shorter;
    shorter
}

// The root of a node, and how far the node's value is above the root's. Halves the path on the way.
fn find(table: &mut [Node], v: usize) -> Node
    requires forest { IsForest table.old }
    requires inside { v < length table.old }
    ensures below { result.parent ≤ v }
    ensures root { parent_at table.new result.parent ≡ result.parent }
    ensures above { (val : ℕ → ℕ) → Keeps val table.new → IsAbove val v result.parent result.offset }
    ensures forest { IsForest table.new }
    ensures same { SameSolutions table.old table.new }
    ensures roots { RootsStay table.old table.new }
{
    let mut at = v;
    let mut offset: u32 = 0;
    while table[at].parent as usize != at {
        let shorter = halve(table, at);
        offset = offset.wrapping_add(shorter.offset);
        at = shorter.parent as usize;
    }
    Node {
        parent: table[at].parent,
        offset,
    }
}

// Puts a root below a lower root.
fn put_below(table: &mut [Node], root: usize, node: Node)
    requires forest { IsForest table.old }
    requires inside { root < length table.old }
    requires is_root { parent_at table.old root ≡ root }
    requires lower { node.parent < root }
    ensures forest { IsForest table.new }
    ensures old { (val : ℕ → ℕ) → Keeps val table.new → Keeps val table.old }
    ensures above { (val : ℕ → ℕ) → Keeps val table.new → IsAbove val root node.parent node.offset }
    ensures new { (val : ℕ → ℕ) → Keeps val table.old → IsAbove val root node.parent node.offset → Keeps val table.new }
{
    table[root] = node;
}

/// Joins the trees of two nodes, so that `to` is `plus` above `from`. False where that can't be. Takes no memory.
pub fn join(table: &mut [Node], from: usize, to: usize, plus: u32) -> bool
    requires forest { IsForest table.old }
    requires from_inside { from < length table.old }
    requires to_inside { to < length table.old }
    ensures forest { IsForest table.new }
    ensures old { (val : ℕ → ℕ) → Keeps val table.new → Keeps val table.old }
    ensures joined { result ≡ true → (val : ℕ → ℕ) → Keeps val table.new → IsAbove val to from plus }
    ensures new { (val : ℕ → ℕ) → Keeps val table.old → IsAbove val to from plus → (result ≡ true) × Keeps val table.new }
{
    let a = find(table, from);
    let b = find(table, to);
    let above = a.offset.wrapping_add(plus);
    if a.parent == b.parent {
        return above == b.offset;
    }
    if a.parent < b.parent {
        let offset = above.wrapping_sub(b.offset);
        let parent = a.parent;
        put_below(table, b.parent as usize, Node { parent, offset });
    } else {
        let offset = b.offset.wrapping_sub(above);
        let parent = b.parent;
        put_below(table, a.parent as usize, Node { parent, offset });
    }
    true
}

// Joins what an equality joins. False where it can't hold.
fn join_equal(table: &mut [Node], difference: Difference) -> bool
    requires forest { IsForest table.old }
    requires from_inside { difference.from < length table.old }
    requires to_inside { difference.to < length table.old }
    ensures forest { IsForest table.new }
    ensures old { (val : ℕ → ℕ) → Keeps val table.new → Keeps val table.old }
    ensures joined { result ≡ true → (val : ℕ → ℕ) → Keeps val table.new → IfEqual val difference }
    ensures new { (val : ℕ → ℕ) → Keeps val table.old → IfEqual val difference → (result ≡ true) × Keeps val table.new }
{
    if difference.equal {
        return join(
            table,
            difference.from as usize,
            difference.to as usize,
            difference.plus,
        );
    }
    true
}

// Joins what the equalities join. False where no values that the forest keeps make them all true.
pub(crate) fn join_all(table: &mut [Node], differences: &[Difference]) -> bool
    requires forest { IsForest table.old }
    requires inside { AreInside (length table.old) differences.now }
    ensures forest { IsForest table.new }
    ensures joined { result ≡ true → (val : ℕ → ℕ) → Keeps val table.new → AllEqual val differences.now }
    ensures old { (val : ℕ → ℕ) → Keeps val table.new → Keeps val table.old }
    ensures new { (val : ℕ → ℕ) → Keeps val table.old → AllEqual val differences.now → (result ≡ true) × Keeps val table.new }
{
    for i in 0..differences.len() {
        if !join_equal(table, differences[i]) {
            return false;
        }
    }
    true
}

// Makes the parent of a node's parent its parent; a root stays as it is.
fn shorten(table: &mut [Node], at: usize)
    requires forest { IsForest table.old }
    requires inside { at < length table.old }
    ensures forest { IsForest table.new }
    ensures same { SameSolutions table.old table.new }
    ensures here { parent_at table.new at ≡ parent_at table.old (parent_at table.old at) }
    ensures others { (v : ℕ) → v ≢ at → parent_at table.new v ≡ parent_at table.old v }
{
    if table[at].parent as usize != at {
        let _shorter = halve(table, at);
    }
}

/// Makes the root of each node its parent. Takes no memory.
pub fn flatten(table: &mut [Node])
    requires { IsForest table.old }
    ensures forest { IsForest table.new }
    ensures same { SameSolutions table.old table.new }
    ensures flat { IsFlat table.new }
{
    for v in 0..table.len() {
        shorten(table, v);
    }
}

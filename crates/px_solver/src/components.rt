ghost use Rattle.std.specs.Prelude.{◌≡◌, ℕ, ◌+◌, ◌<◌, ◌≤◌, length, All, map, IfOk};
ghost use Rattle.std.specs.List.{AllZip};
ghost use Rattle.px_terms.specs.Variables.{mentioned};
ghost use Rattle.px_plain.specs.Forest.{parent_at, IsForest, IsFlat, Keeps};
ghost use Rattle.px_plain.specs.Readings.{HasSmallVariables};
ghost use Rattle.px_solver.specs.Tables as spec;
ghost use Rattle.px_solver.specs.Tables.{Joins, HasHome, AreNodeHomes, MarksHard};

use crate::touching::join_all_touched;
use px_plain::{Node, flatten, is_plain, roots};
use px_terms::Conj;
use std::alloc::{AllocError, Global};

// The roots of components: 0 for what is in none.
#[derive(Drop)]
pub(crate) struct Homes {
    // The home of each conjunct.
    pub(crate) conjuncts: Vec<u32>,
    // The home of each node of a representative.
    pub(crate) nodes: Vec<u32>,
}

// The components of a list of conjuncts.
#[derive(Drop)]
pub(crate) struct Components {
    // A forest that joins the nodes of representatives that share a component.
    pub(crate) joined: Vec<Node>,
    pub(crate) homes: Homes,
}

// The roots of the components of some nodes.
fn homes_of(alloc: Global, joined: &[Node], firsts: &[u32]) -> Result<Vec<u32>, AllocError>
    requires { All (λ u. u < length joined.now) firsts.now }
    ensures { IfOk result (λ homes. homes.items ≡ map (parent_at joined.now) firsts.now) }
{
    let mut homes = Vec::new(alloc);
    for first in firsts {
        homes.push(joined[*first as usize].parent)?;
    }
    Ok(homes)
}

// The home of a node.
fn home_of(table: &[Node], joined: &[Node], v: usize) -> u32
    requires size { length joined.now ≡ length table.now }
    requires inside { v < length table.now }
    ensures { result ≡ spec.home_of table.now joined.now v }
{
    if table[v].parent as usize == v {
        joined[v].parent
    } else {
        0
    }
}

// The home of each node.
fn node_homes(alloc: Global, table: &[Node], joined: &[Node]) -> Result<Vec<u32>, AllocError>
    requires { length joined.now ≡ length table.now }
    ensures { IfOk result (λ homes. AreNodeHomes table.now joined.now homes.items) }
{
    let mut homes = Vec::new(alloc);
    for v in 0..table.len() {
        homes.push(home_of(table, joined, v))?;
    }
    Ok(homes)
}

// Joins what the conjuncts touch, in a forest of roots, and gives the homes of conjuncts and nodes.
fn join_parts(
    alloc: Global,
    joined: &mut [Node],
    table: &[Node],
    conjuncts: &[Conj],
) -> Result<Homes, AllocError>
    requires some { 0 < length table.now }
    requires small { length table.now ≤ 65537 }
    requires forest { IsForest table.now }
    requires size { length joined.old ≡ length table.now }
    requires joined { IsForest joined.old }
    requires free { (val : ℕ → ℕ) → Keeps val joined.old }
    requires inside { All (λ c. All (λ x. x + 1 < length table.now) (mentioned c)) conjuncts.now }
    ensures joins { IfOk result (λ _. Joins table.now conjuncts.now joined.new) }
    ensures flat { IfOk result (λ _. IsFlat joined.new) }
    ensures homes { IfOk result (λ h. AllZip (HasHome table.now joined.new) conjuncts.now h.conjuncts.items) }
    ensures members { IfOk result (λ h. AreNodeHomes table.now joined.new h.nodes.items) }
{
    let firsts = join_all_touched(alloc, joined, table, conjuncts)?;
    flatten(joined);
    let conjuncts = homes_of(alloc, joined, &firsts)?;
    let nodes = node_homes(alloc, table, joined)?;
    Ok(Homes { conjuncts, nodes })
}

// The components of a list of conjuncts, whose variables have the representatives that the table says.
pub(crate) fn components_of(
    alloc: Global,
    table: &[Node],
    conjuncts: &[Conj],
) -> Result<Components, AllocError>
    requires some { 0 < length table.now }
    requires small { length table.now ≤ 65537 }
    requires forest { IsForest table.now }
    requires inside { All (λ c. All (λ x. x + 1 < length table.now) (mentioned c)) conjuncts.now }
    ensures joins { IfOk result (λ c. Joins table.now conjuncts.now c.joined.items) }
    ensures flat { IfOk result (λ c. IsFlat c.joined.items) }
    ensures homes { IfOk result (λ c. AllZip (HasHome table.now c.joined.items) conjuncts.now c.homes.conjuncts.items) }
    ensures members { IfOk result (λ c. AreNodeHomes table.now c.joined.items c.homes.nodes.items) }
{
    let mut joined = roots(alloc, table.len() as u32)?;
    let homes = join_parts(alloc, &mut joined, table, conjuncts)?;
    Ok(Components { joined, homes })
}

// Marks the homes of conjuncts that aren't plain.
pub(crate) fn hard_homes(
    alloc: Global,
    conjuncts: &[Conj],
    homes: &[u32],
    count: usize,
) -> Result<Vec<bool>, AllocError>
    requires small { All HasSmallVariables conjuncts.now }
    requires size { length homes.now ≡ length conjuncts.now }
    requires homes { All (λ h. h < count) homes.now }
    ensures size { IfOk result (λ marks. length marks.items ≡ count) }
    ensures marks { IfOk result (λ marks. MarksHard conjuncts.now homes.now (length conjuncts.now) marks.items) }
{
    let mut marks = vec![in alloc; false; count]?;
    for i in 0..conjuncts.len() {
        if !is_plain(&conjuncts[i]) {
            let home = homes[i] as usize;
            marks[home] = true;
        }
    }
    Ok(marks)
}

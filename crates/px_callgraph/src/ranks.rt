ghost use Rattle.std.specs.Prelude.{◌≡◌, ◌↔◌, ℕ, ◌<◌, ◌≤◌, List, [], ◌∷◌, ◌++◌, true, false, All, Contains, length, IfOk, slice_index, slice_index_or};
ghost use Rattle.px_components.specs.Graphs.{IsEdge, AreComponents};
ghost use Rattle.px_callgraph.specs.Working.{IsAbove, IsAboveOf, IsRanked, AreLow, IsOnCycle};

use crate::edges::grouped;
use px_components::Graph;
use px_terms::NoMemory;
use std::alloc::Global;

// The least number above the rank of one target more of a node, where it counts.
#[tactic(auto, using(crate::proofs::Ranking::above_beyond, crate::proofs::Ranking::above_within, crate::proofs::Ranking::above_more))]
fn rank_with(numbers: &[u32], ranks: &[u32], kept: u32, node: u32, target: u32, rank: u32) -> u32
    requires node { node < length numbers.now }
    requires target { target < length numbers.now }
    requires ranked { length ranks.now ≡ length numbers.now }
    requires falls { slice_index numbers.now target ≤ slice_index numbers.now node }
    requires below { AreLow numbers.now ranks.now }
    requires low { rank ≤ slice_index numbers.now node }
    ensures above { (ys : List ℕ) → IsAboveOf numbers.now kept ranks.now node ys rank → IsAboveOf numbers.now kept ranks.now node (ys ++ target ∷ []) result }
    ensures low { result ≤ slice_index numbers.now node }
{
    if target >= kept {
        return rank;
    }
    if numbers[target as usize] == numbers[node as usize] {
        return rank;
    }
    rank.max(ranks[target as usize] + 1)
}

// The rank of a node, where those of other components to which its edges lead have theirs.
fn rank_above(graph: &Graph, numbers: &[u32], ranks: &[u32], kept: u32, node: u32) -> u32
    requires inside { node < length graph.now }
    requires numbered { length numbers.now ≡ length graph.now }
    requires ranked { length ranks.now ≡ length graph.now }
    requires falls { (y : ℕ) → IsEdge graph.now node y → slice_index numbers.now y ≤ slice_index numbers.now node }
    requires low { AreLow numbers.now ranks.now }
    ensures above { IsAbove graph.now numbers.now kept ranks.now node result }
    ensures low { result ≤ slice_index numbers.now node }
{
    let mut rank = 0;
    for target in graph.targets(node) {
        rank = rank_with(numbers, ranks, kept, node, *target, rank);
    }
    rank
}

// Ranks the nodes of a component, where those of lower ones have their ranks.
fn rank_group(
    graph: &Graph,
    numbers: &[u32],
    ranks: &mut [u32],
    kept: u32,
    number: u32,
    nodes: &[u32],
)
    requires inside { All (λ x. x < length graph.now) nodes.now }
    requires here { All (λ x. slice_index numbers.now x ≡ number) nodes.now }
    requires numbered { length numbers.now ≡ length graph.now }
    requires ranked { length ranks.old ≡ length graph.now }
    requires falls { (x y : ℕ) → IsEdge graph.now x y → slice_index numbers.now y ≤ slice_index numbers.now x }
    requires low { AreLow numbers.now ranks.old }
    ensures size { length ranks.new ≡ length ranks.old }
    ensures low { AreLow numbers.now ranks.new }
    ensures before { (x : ℕ) → slice_index numbers.now x < number → IsRanked graph.now numbers.now kept ranks.old x → IsRanked graph.now numbers.now kept ranks.new x }
    ensures here { (x : ℕ) → Contains nodes.now x → IsRanked graph.now numbers.now kept ranks.new x }
{
    for node in nodes {
        let node = *node;
        ranks[node as usize] = rank_above(graph, numbers, ranks, kept, node);
    }
}

// The ranks of the nodes, one component after another: edges lead to components of lower numbers.
pub(crate) fn ranks_in(
    alloc: Global,
    graph: &Graph,
    numbers: &[u32],
    count: u32,
    kept: u32,
) -> Result<Vec<u32>, NoMemory>
    requires { AreComponents graph.now numbers.now count }
    ensures size { IfOk result (λ ranks. length ranks.items ≡ length graph.now) }
    ensures ranked { IfOk result (λ ranks. (x : ℕ) → x < length graph.now → IsRanked graph.now numbers.now kept ranks.items x) }
{
    let nodes = graph.nodes() as usize;
    let groups = grouped(alloc, numbers, count)?;
    let mut ranks = vec![in alloc; 0; nodes]?;
    for number in 0..count {
        let group = groups.targets(number);
        rank_group(graph, numbers, &mut ranks, kept, number, group);
    }
    Ok(ranks)
}

// Whether an edge of the node leads to its own component.
fn is_on_cycle(graph: &Graph, numbers: &[u32], node: u32) -> bool
    requires inside { node < length graph.now }
    requires numbered { length numbers.now ≡ length graph.now }
    ensures { result ≡ true ↔ IsOnCycle graph.now numbers.now node }
{
    for target in graph.targets(node) {
        if numbers[*target as usize] == numbers[node as usize] {
            return true;
        }
    }
    false
}

// Which nodes are on a cycle.
pub(crate) fn cycles_in(
    alloc: Global,
    graph: &Graph,
    numbers: &[u32],
) -> Result<Vec<bool>, NoMemory>
    requires { length numbers.now ≡ length graph.now }
    ensures size { IfOk result (λ cycles. length cycles.items ≡ length graph.now) }
    ensures each { IfOk result (λ cycles. (x : ℕ) → x < length graph.now → (slice_index_or cycles.items x false ≡ true ↔ IsOnCycle graph.now numbers.now x)) }
{
    let mut cycles = Vec::new(alloc);
    for node in 0..graph.nodes() {
        cycles.push(is_on_cycle(graph, numbers, node))?;
    }
    Ok(cycles)
}

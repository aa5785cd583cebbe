ghost use Rattle.std.specs.Prelude.{◌≡◌, ◌↔◌, ℕ, ◌<◌, ◌≤◌, ◌^◌, [], ◌∷◌, ◌++◌, true, false, All, AllPairs, Contains, length, IfOk, OnOk, slice_index, slice_index_or};
ghost use Rattle.px_components.specs.Graphs.{IsEdge};
ghost use Rattle.px_core.specs.BodyTree.{body_tree};
ghost use Rattle.px_callgraph.specs.Callees.{IsCallee, NamedIn};
ghost use Rattle.px_callgraph.specs.CallGraphs.{bodies_in};
ghost use Rattle.px_callgraph.specs.Working.{Gains, GainsCalls, GainsFrom, RisesTo, AllRiseTo};

use crate::names::names_called;
use px_components::Graph;
use px_core::Body;
use px_terms::NoMemory;
use std::alloc::Global;

// Adds an edge to each of these nodes.
fn add_edges(graph: &mut Graph, from: u32, targets: &[u32]) -> Result<(), NoMemory>
    requires from { from < length graph.old }
    requires inside { All (λ y. y < length graph.old) targets.now }
    ensures { OnOk result (Gains graph.old from targets.now graph.new) }
{
    for target in targets {
        graph.add(from, *target)?;
    }
    Ok(())
}

// Adds an edge from a procedure to each that its body calls, as often as it is called.
fn add_calls(alloc: Global, graph: &mut Graph, proc: u32, body: &Body) -> Result<(), NoMemory>
    requires proc { proc < length graph.old }
    requires names { (g : ℕ) → NamedIn g (body_tree body.now).commands → g < length graph.old }
    ensures { OnOk result (GainsCalls graph.old proc (body_tree body.now) graph.new) }
{
    let names = names_called(alloc, body)?;
    add_edges(graph, proc, &names)?;
    Ok(())
}

// An edge from each procedure to each that its body calls, as often as it is called.
fn calls(alloc: Global, bodies: &[Body], nodes: u32) -> Result<Graph, NoMemory>
    requires size { length bodies.now ≤ nodes }
    requires names { (f g : ℕ) → IsCallee (bodies_in bodies.now) f g → g < nodes }
    ensures size { IfOk result (λ g. length g ≡ nodes) }
    ensures edges { IfOk result (λ g. (x y : ℕ) → IsEdge g x y ↔ IsCallee (bodies_in bodies.now) x y) }
{
    let mut graph = Graph::new(alloc, nodes)?;
    for i in 0..bodies.len() {
        add_calls(alloc, &mut graph, i as u32, &bodies[i])?;
    }
    Ok(graph)
}

// Whether a node is the last of these. Where it isn't, and is no lower than any of them, they rise to it.
fn is_last(nodes: &[u32], node: u32) -> bool
    ensures last { result ≡ true → Contains nodes.now node }
    ensures other { result ≡ false → RisesTo node nodes.now → RisesTo node (nodes.now ++ node ∷ []) }
{
    !nodes.is_empty() && nodes[nodes.len() - 1] == node
}

// Adds an edge, unless it is the last one from its node.
fn add_once(graph: &mut Graph, from: u32, to: u32) -> Result<(), NoMemory>
    requires from { from < length graph.old }
    requires to { to < length graph.old }
    requires rising { AllRiseTo to graph.old }
    ensures gains { OnOk result (Gains graph.old from (to ∷ []) graph.new) }
    ensures rising { OnOk result (AllRiseTo to graph.new) }
{
    if is_last(graph.targets(from), to) {
        return Ok(());
    }
    graph.add(from, to)?;
    Ok(())
}

// Adds an edge from each of these nodes.
fn add_sources(graph: &mut Graph, sources: &[u32], to: u32) -> Result<(), NoMemory>
    requires inside { All (λ x. x < length graph.old) sources.now }
    requires to { to < length graph.old }
    requires rising { AllRiseTo to graph.old }
    ensures gains { OnOk result (GainsFrom graph.old sources.now to graph.new) }
    ensures rising { OnOk result (AllRiseTo to graph.new) }
{
    for source in sources {
        add_once(graph, *source, to)?;
    }
    Ok(())
}

// The edges turned round. The targets of each node rise.
fn reversed(alloc: Global, graph: &Graph) -> Result<Graph, NoMemory>
    ensures size { IfOk result (λ r. length r ≡ length graph.now) }
    ensures edges { IfOk result (λ r. (x y : ℕ) → IsEdge r x y ↔ IsEdge graph.now y x) }
    ensures rising { IfOk result (λ r. (x : ℕ) → AllPairs (λ a b. a < b) (slice_index_or r x [])) }
{
    let mut turned = Graph::new(alloc, graph.nodes())?;
    for node in 0..graph.nodes() {
        add_sources(&mut turned, graph.targets(node), node)?;
    }
    Ok(turned)
}

// An edge from each procedure to each that its body calls. The targets of each node rise.
pub(crate) fn call_edges(alloc: Global, bodies: &[Body], nodes: u32) -> Result<Graph, NoMemory>
    requires size { length bodies.now ≤ nodes }
    requires names { (f g : ℕ) → IsCallee (bodies_in bodies.now) f g → g < nodes }
    ensures size { IfOk result (λ g. length g ≡ nodes) }
    ensures edges { IfOk result (λ g. (x y : ℕ) → IsEdge g x y ↔ IsCallee (bodies_in bodies.now) x y) }
    ensures rising { IfOk result (λ g. (x : ℕ) → AllPairs (λ a b. a < b) (slice_index_or g x [])) }
{
    let callers = reversed(alloc, &calls(alloc, bodies, nodes)?)?;
    let edges = reversed(alloc, &callers)?;
    Ok(edges)
}

// An edge from each number to each node that has it.
pub(crate) fn grouped(alloc: Global, numbers: &[u32], count: u32) -> Result<Graph, NoMemory>
    requires few { length numbers.now < 2 ^ 32 }
    requires inside { All (λ n. n < count) numbers.now }
    ensures size { IfOk result (λ g. count ≤ length g) }
    ensures edges { IfOk result (λ g. (n x : ℕ) → IsEdge g n x ↔ ((x < length numbers.now) × (slice_index numbers.now x ≡ n))) }
{
    let mut groups = Graph::new(alloc, count.max(numbers.len() as u32))?;
    for node in 0..numbers.len() {
        groups.add(numbers[node], node as u32)?;
    }
    Ok(groups)
}

ghost use Rattle.std.specs.Prelude.{◌≡◌, ℕ, ◌<◌, Contains, length, IfOk, OnOk};
ghost use Rattle.px_components.specs.Graphs.{IsEdge};
ghost use Rattle.px_callgraph.specs.Working.{numbers_of};
ghost use Rattle.px_book.specs.RollKeeping.{AreCallers};

use px_base::ProcId;
use px_callgraph::Graph;
use px_components::Graph as Edges;
use px_terms::NoMemory;
use std::alloc::Global;

/// The calls turned round: from each kept procedure to those that call it.
pub(crate) fn callers_in(alloc: Global, graph: &Graph, kept: u32) -> Result<Edges, NoMemory>
    requires { length graph.now ≡ kept }
    ensures { IfOk result (λ callers. AreCallers graph.now callers) }
{
    let mut callers = Edges::new(alloc, kept)?;
    for number in 0..kept {
        add_caller(&mut callers, graph.callees(ProcId(number)), number)?;
    }
    Ok(callers)
}

// Adds an edge from each of these to one that calls them.
fn add_caller(callers: &mut Edges, callees: &[ProcId], caller: u32) -> Result<(), NoMemory>
    requires { caller < length callers.old }
    ensures size { OnOk result (length callers.new ≡ length callers.old) }
    ensures old { OnOk result ((x y : ℕ) → IsEdge callers.old x y → IsEdge callers.new x y) }
    ensures added { OnOk result ((g : ℕ) → Contains (numbers_of callees.now) g → g < length callers.old → IsEdge callers.new g caller) }
{
    for callee in callees {
        add_edge(callers, *callee, caller)?;
    }
    Ok(())
}

// Adds an edge, if it begins inside.
fn add_edge(callers: &mut Edges, callee: ProcId, caller: u32) -> Result<(), NoMemory>
    requires { caller < length callers.old }
    ensures size { OnOk result (length callers.new ≡ length callers.old) }
    ensures old { OnOk result ((x y : ℕ) → IsEdge callers.old x y → IsEdge callers.new x y) }
    ensures added { OnOk result (callee.0 < length callers.old → IsEdge callers.new callee.0 caller) }
{
    if callee.0 < callers.nodes() {
        callers.add(callee.0, caller)?;
    }
    Ok(())
}

ghost use Rattle.std.specs.Prelude.{◌≡◌, ◌+◌, ◌<◌, length, IfOk, OnOk};
ghost use Rattle.px_findings.specs.Orders.{AreTurns, AreRising, RiseInRanks};

use crate::plan::Plan;
use px_base::ProcId;
use px_callgraph::Graph;
use px_terms::NoMemory;
use std::alloc::Global;

/// A kept procedure, and its rank among all: what it calls outside its recursion component has a lower one.
#[derive(Clone, Copy)]
pub struct Turn {
    pub number: u32,
    pub rank: u32,
}

/// The kept procedures that aren't too large: by rank, and then by number.
pub(crate) fn turns(alloc: Global, plan: &Plan, large: &[bool]) -> Result<Vec<Turn>, NoMemory>
    requires { length large.now ≡ plan.now.kept }
    ensures { IfOk result (λ order. AreTurns plan.now.graph large.now order.items) }
{
    turns_of(alloc, &plan.graph, plan.kept, large)
}

/// The kept procedures that aren't marked: by rank, and then by number. So many are kept.
pub fn turns_of(
    alloc: Global,
    graph: &Graph,
    kept: u32,
    marked: &[bool],
) -> Result<Vec<Turn>, NoMemory>
    requires kept { length graph.now ≡ kept }
    requires marks { length marked.now ≡ kept }
    ensures turns { IfOk result (λ order. AreTurns graph.now marked.now order.items) }
    ensures rising { IfOk result (λ order. RiseInRanks order.items) }
{
    let mut order = by_number(alloc, graph, kept, marked)?;
    order.sort_by_key(|turn| turn.rank)?;
    Ok(order)
}

fn by_number(
    alloc: Global,
    graph: &Graph,
    kept: u32,
    marked: &[bool],
) -> Result<Vec<Turn>, NoMemory>
    requires kept { length graph.now ≡ kept }
    requires marks { length marked.now ≡ kept }
    ensures { IfOk result (λ order. AreRising graph.now marked.now kept order.items) }
{
    let mut order = Vec::new(alloc);
    for number in 0..kept {
        put_turn(&mut order, graph, marked, number)?;
    }
    Ok(order)
}

// Puts the turn of a procedure after the others, unless it is marked.
fn put_turn(
    order: &mut Vec<Turn>,
    graph: &Graph,
    marked: &[bool],
    number: u32,
) -> Result<(), NoMemory>
    requires kept { number < length graph.now }
    requires marks { length marked.now ≡ length graph.now }
    ensures { OnOk result (AreRising graph.now marked.now number order.old.items → AreRising graph.now marked.now (number + 1) order.new.items) }
{
    if marked[number as usize] {
        return Ok(());
    }
    let rank = graph.rank(ProcId(number));
    order.push(Turn { number, rank })?;
    Ok(())
}

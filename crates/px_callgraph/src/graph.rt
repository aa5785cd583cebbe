ghost use Rattle.std.specs.Prelude.{◌≡◌, ◌↔◌, ℕ, ◌<◌, ◌≤◌, [], map, length, take, Option, true, IfOk, slice_index_or};
ghost use Rattle.px_core.specs.BodyTree.{BodyTree};
ghost use Rattle.px_callgraph.specs.Callees.{IsCallee, AreTogether};
ghost use Rattle.px_callgraph.specs.CallGraphs.{bodies_in, IsGraphOf};
ghost use Rattle.px_callgraph.specs.Ranks.{IsRank};
ghost use Rattle.px_callgraph.specs.Working.{numbers_of};

use crate::edges::call_edges;
use crate::ranks::{cycles_in, ranks_in};
use px_base::ProcId;
use px_components::{Components, Graph as Edges};
use px_core::Body;
use px_terms::NoMemory;
use std::alloc::Global;
use std::marker::Model;

/// What each procedure of a program calls.
///
/// The procedures that are kept have the numbers from 0 on. What else is called is a name without a body, which
/// calls nobody: it stands among the callees, is in no recursion component, and counts for no rank.
#[derive(Drop)]
pub struct Graph {
    callees: Vec<Vec<ProcId>>,
    // The number of each procedure's component. Those without a body have one too.
    numbers: Vec<u32>,
    // Whether a procedure calls one of its own component.
    cycles: Vec<bool>,
    ranks: Vec<u32>,
}

impl Model for Graph {
    ghost use Rattle.std.specs.Prelude.{ℕ, List, map};
    ghost use Rattle.px_callgraph.specs.Working.{IsKnown, numbers_of};

    ghost Value = { List (List ℕ) };

    ghost view = { λ g. map (λ v. numbers_of v.items) g.callees.items };

    ghost invariant = { λ g. IsKnown (map (λ v. numbers_of v.items) g.callees.items) g.numbers.items g.cycles.items g.ranks.items };
}

impl Graph {
    /// The call graph of the bodies of all kept procedures. All that they call has numbers below `names`.
    ///
    /// The time is linear in the procedures, the names and the commands. No call is nested deeper than the commands are.
    pub fn new(alloc: Global, bodies: &[Body], kept: u32, names: u32) -> Result<Graph, NoMemory>
        requires kept { length bodies.now ≡ kept }
        requires names { (f g : ℕ) → IsCallee (bodies_in bodies.now) f g → g < names }
        ensures kept { IfOk result (λ g. length g ≡ kept) }
        ensures graph { IfOk result (λ g. IsGraphOf (bodies_in bodies.now) g) }
    {
        let edges = call_edges(alloc, bodies, kept.max(names))?;
        let components = Components::of(alloc, &edges)?;
        let cycles = cycles_in(alloc, &edges, &components.numbers)?;
        let ranks = ranks_in(alloc, &edges, &components.numbers, components.count, kept)?;
        let callees = callees_in(alloc, &edges, kept)?;
        Ok(Graph {
            callees,
            numbers: components.numbers,
            cycles,
            ranks,
        })
    }

    /// What a kept procedure calls, each once, in the order of the numbers. Takes no memory.
    pub fn callees(&self, proc: ProcId) -> &[ProcId]
        requires { proc.0 < length self.now }
        ensures { numbers_of result.now ≡ slice_index_or self.now proc.0 [] }
    {
        &self.callees[proc.0 as usize]
    }

    /// Whether two kept procedures are in one recursion component: each reaches the other by calls. A procedure is in one with itself where it calls
    /// itself, directly or through others. Takes no memory.
    pub fn together(&self, a: ProcId, b: ProcId) -> bool
        requires a { a.0 < length self.now }
        requires b { b.0 < length self.now }
        ensures { (bodies : ℕ → Option BodyTree) → IsGraphOf bodies self.now → (result ≡ true) ↔ AreTogether bodies a.0 b.0 }
    {
        self.numbers[a.0 as usize] == self.numbers[b.0 as usize] && self.cycles[a.0 as usize]
    }

    /// The least number above the ranks of all kept callees of a kept procedure outside its recursion component. Takes
    /// no memory.
    pub fn rank(&self, proc: ProcId) -> u32
        requires { proc.0 < length self.now }
        ensures { (bodies : ℕ → Option BodyTree) → IsGraphOf bodies self.now → IsRank bodies (length self.now) proc.0 result }
    {
        self.ranks[proc.0 as usize]
    }
}

// The procedures with these numbers.
fn procedures(alloc: Global, numbers: &[u32]) -> Result<Vec<ProcId>, NoMemory>
    ensures { IfOk result (λ ps. numbers_of ps.items ≡ numbers.now) }
{
    let mut procedures = Vec::with_capacity(alloc, numbers.len())?;
    for number in numbers {
        procedures.push(ProcId(*number))?;
    }
    Ok(procedures)
}

// What each kept procedure calls.
fn callees_in(alloc: Global, edges: &Edges, kept: u32) -> Result<Vec<Vec<ProcId>>, NoMemory>
    requires { kept ≤ length edges.now }
    ensures { IfOk result (λ callees. map (λ v. numbers_of v.items) callees.items ≡ take kept edges.now) }
{
    let mut callees = Vec::with_capacity(alloc, kept as usize)?;
    for proc in 0..kept {
        callees.push(procedures(alloc, edges.targets(proc))?)?;
    }
    Ok(callees)
}

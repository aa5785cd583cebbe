ghost use Rattle.std.specs.Prelude.{◌≡◌, ◌≤◌, ◌<◌, ◌+◌, ◌^◌, ◌∷◌, [], length, flat_map, IfOk, OnOk};
ghost use Rattle.px_entry.specs.Regular.{state_cells};
ghost use Rattle.px_callgraph.specs.Working.{Gains};
ghost use Rattle.px_leak.specs.Reached as reached;
ghost use Rattle.px_leak.specs.Pointers.{GainsCells, GainsBack, HasPointers};

use px_components::Graph;
use px_entry::{Atom, AtomState, Entry};
use px_terms::{Content, NoMemory, Place};
use std::alloc::Global;

/// The graph of what points to what in an entry, whose variables are so many. The node after them stands for the result.
pub(crate) fn pointers(alloc: Global, entry: &Entry, count: u32) -> Result<Graph, NoMemory>
    requires few { count + 1 < 2 ^ 32 }
    requires all { count ≡ length entry.now.vars }
    ensures { IfOk result (λ g. HasPointers entry.now g) }
{
    let mut graph = Graph::new(alloc, count + 1)?;
    add_result(&mut graph, count, &entry.result)?;
    add_atoms(&mut graph, count, entry.post.as_slice())?;
    add_back(&mut graph, count)?;
    Ok(graph)
}

// Adds the edge of the result.
fn add_result(graph: &mut Graph, count: u32, given: &Option<Content>) -> Result<(), NoMemory>
    requires { count < length graph.old }
    ensures { OnOk result (Gains graph.old count (reached.pointed_by_result count given.now) graph.new) }
{
    match given {
        Some(content) => add_content(graph, count, count, content),
        None => Ok(()),
    }
}

// Adds the edge of a content, if it points by a variable.
fn add_content(graph: &mut Graph, from: u32, count: u32, content: &Content) -> Result<(), NoMemory>
    requires from { from < length graph.old }
    requires few { count ≤ length graph.old }
    ensures { OnOk result (Gains graph.old from (reached.pointed count content.now) graph.new) }
{
    match content {
        Content::Place(Place::Var(x)) => add_within(graph, from, count, x.0),
        Content::Place(Place::Null) | Content::Unwritten | Content::Word(_) | Content::Cell(_) =>
            Ok(()),
    }
}

// Adds an edge to a variable, if it is one of the first.
fn add_within(graph: &mut Graph, from: u32, count: u32, to: u32) -> Result<(), NoMemory>
    requires from { from < length graph.old }
    requires few { count ≤ length graph.old }
    ensures { OnOk result (Gains graph.old from (reached.within count (to ∷ [])) graph.new) }
{
    if to < count {
        graph.add(from, to)?;
    }
    Ok(())
}

// Adds the edges of contents.
fn add_contents(
    graph: &mut Graph,
    from: u32,
    count: u32,
    contents: &[Content],
) -> Result<(), NoMemory>
    requires from { from < length graph.old }
    requires few { count ≤ length graph.old }
    ensures { OnOk result (Gains graph.old from (flat_map (reached.pointed count) contents.now) graph.new) }
{
    for content in contents {
        add_content(graph, from, count, content)?;
    }
    Ok(())
}

// Adds the edges of a block's cells, from its place.
fn add_state(graph: &mut Graph, from: u32, count: u32, state: &AtomState) -> Result<(), NoMemory>
    requires from { from < length graph.old }
    requires few { count ≤ length graph.old }
    ensures { OnOk result (Gains graph.old from (flat_map (reached.pointed count) (state_cells state.now)) graph.new) }
{
    match state {
        AtomState::Live(cells) => add_contents(graph, from, count, cells.as_slice()),
        AtomState::Freed => Ok(()),
    }
}

// Adds those of an atom, if its place is one of the first variables.
fn add_atom(graph: &mut Graph, count: u32, atom: &Atom) -> Result<(), NoMemory>
    requires { count ≤ length graph.old }
    ensures { OnOk result (GainsCells count graph.old (atom.now ∷ []) graph.new) }
{
    if atom.place.0 < count {
        add_state(graph, atom.place.0, count, &atom.state)?;
    }
    Ok(())
}

// Adds those of atoms.
fn add_atoms(graph: &mut Graph, count: u32, atoms: &[Atom]) -> Result<(), NoMemory>
    requires { count ≤ length graph.old }
    ensures { OnOk result (GainsCells count graph.old atoms.now graph.new) }
{
    for atom in atoms {
        add_atom(graph, count, atom)?;
    }
    Ok(())
}

// Adds an edge from each variable to the node after them.
fn add_back(graph: &mut Graph, count: u32) -> Result<(), NoMemory>
    requires { count < length graph.old }
    ensures { OnOk result (GainsBack count count graph.old graph.new) }
{
    for variable in 0..count {
        graph.add(variable, count)?;
    }
    Ok(())
}

ghost use Rattle.std.specs.Prelude.{IfOk};
ghost use Rattle.px_components.specs.Graphs.{AreComponents};

use crate::graph::Graph;
use crate::search::Search;
use std::alloc::{AllocError, Global};

/// The strongly connected components of a graph.
#[derive(Drop)]
pub struct Components {
    /// The number of each node's component.
    pub numbers: Vec<u32>,
    /// How many components there are.
    pub count: u32,
}

impl Components {
    /// Those of the graph. An edge leads to its own component or to one of a lower number.
    ///
    /// The time is linear in the nodes and edges, and no call is nested.
    pub fn of(alloc: Global, graph: &Graph) -> Result<Components, AllocError>
        ensures { IfOk result (λ c. AreComponents graph.now c.numbers.items c.count) }
    {
        let mut search = Search::new(alloc, graph)?;
        for node in 0..graph.nodes() {
            search.reach(graph, node)?;
        }
        Ok(Components {
            numbers: search.numbers,
            count: search.count,
        })
    }
}

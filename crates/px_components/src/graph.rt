ghost use Rattle.std.specs.Prelude.{◌≡◌, ◌<◌, ◌^◌, [], ◌∷◌, ◌++◌, All, length, replicate, slice_index_or, slice_set, IfOk, OnOk};

use std::alloc::{AllocError, Global};
use std::marker::Model;

/// A directed graph. Its nodes are the numbers from 0 on.
#[derive(Drop)]
pub struct Graph {
    alloc: Global,
    targets: Vec<Vec<u32>>,
}

impl Model for Graph {
    ghost use Rattle.std.specs.Prelude.{ℕ, ◌<◌, ◌^◌, List, map, length};
    ghost use Rattle.px_components.specs.Graphs.{IsGraph};

    ghost Value = { List (List ℕ) };

    ghost view = { λ g. map (λ v. v.items) g.targets.items };

    ghost invariant = { λ g. IsGraph (map (λ v. v.items) g.targets.items) × (length g.targets.items < 2 ^ 32) };
}

impl Graph {
    /// So many nodes, and no edge.
    pub fn new(alloc: Global, nodes: u32) -> Result<Graph, AllocError>
        ensures { IfOk result (λ g. g ≡ replicate nodes []) }
    {
        let mut targets = Vec::new(alloc);
        for _node in 0..nodes {
            targets.push(Vec::new(alloc))?;
        }
        Ok(Graph { alloc, targets })
    }

    /// Adds an edge, after the others from its node.
    pub fn add(&mut self, from: u32, to: u32) -> Result<(), AllocError>
        requires from { from < length self.old }
        requires to { to < length self.old }
        ensures { OnOk result (self.new ≡ slice_set self.old from (slice_index_or self.old from [] ++ to ∷ [])) }
    {
        self.targets[from as usize].push(to)?;
        Ok(())
    }

    /// How many nodes there are. Takes no memory.
    pub fn nodes(&self) -> u32
        ensures value { result ≡ length self.now }
        ensures few { length self.now < 2 ^ 32 }
    {
        self.targets.len() as u32
    }

    /// Where the edges from a node lead, in the order in which they were added. Takes no memory.
    pub fn targets(&self, node: u32) -> &[u32]
        requires { node < length self.now }
        ensures value { result.now ≡ slice_index_or self.now node [] }
        ensures inside { All (λ y. y < length self.now) result.now }
    {
        &self.targets[node as usize]
    }
}

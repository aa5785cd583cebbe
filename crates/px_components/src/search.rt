ghost use Rattle.std.specs.Prelude.{◌≡◌, ◌≢◌, ℕ, ◌+◌, ◌-◌, ◌<◌, ◌≤◌, ◌^◌, [], length, IfOk, OnOk, slice_index};
ghost use Rattle.px_components.specs.Graphs.{Reaches};
ghost use Rattle.px_components.specs.Searches.{state_of, node_at, group_at, IsSearch, KeepsKnown, Advances, AreJoined, IsMarked};
ghost use Rattle.px_components.specs.declared.search.Node.TheVariants as known;

use crate::graph::Graph;
use std::alloc::{AllocError, Global};

// What is known of a node.
#[derive(Clone, Copy)]
pub(crate) enum Node {
    New,
    // It stands at this place of the path.
    Open(usize),
    // It has the number of its component.
    Settled,
}

// Where a group of open nodes begins on the path, and where their targets begin.
#[derive(Clone, Copy)]
pub(crate) struct Group {
    pub(crate) node: usize,
    pub(crate) target: usize,
}

// A search for components that follows edges from a path of open nodes.
#[derive(Drop)]
pub(crate) struct Search {
    pub(crate) nodes: Vec<Node>,
    pub(crate) numbers: Vec<u32>,
    // How many components are settled.
    pub(crate) count: u32,
    pub(crate) path: Vec<u32>,
    pub(crate) groups: Vec<Group>,
    pub(crate) targets: Vec<u32>,
}

impl Search {
    // Each node is new.
    pub(crate) fn new(alloc: Global, graph: &Graph) -> Result<Search, AllocError>
        ensures search { IfOk result (λ s. IsSearch graph.now (state_of s)) }
        ensures idle { IfOk result (λ s. s.groups.items ≡ []) }
    {
        let nodes = graph.nodes() as usize;
        Ok(Search {
            nodes: vec![in alloc; Node::New; nodes]?,
            numbers: vec![in alloc; 0; nodes]?,
            count: 0,
            path: Vec::new(alloc),
            groups: Vec::new(alloc),
            targets: Vec::new(alloc),
        })
    }

    // Puts a new node at the end of the path, as a group of its own.
    fn open(&mut self, graph: &Graph, node: u32) -> Result<(), AllocError>
        requires search { IsSearch graph.now (state_of self.old) }
        requires inside { node < length graph.now }
        requires fresh { node_at self.old.nodes.items node ≡ known.New }
        requires reached { (p : ℕ) → p < length self.old.path.items → Reaches graph.now (slice_index self.old.path.items p) node }
        ensures search { OnOk result (IsSearch graph.now (state_of self.new)) }
        ensures advances { OnOk result (Advances graph.now (state_of self.old) (state_of self.new)) }
        ensures opened { OnOk result (node_at self.new.nodes.items node ≢ known.New) }
    {
        self.nodes[node as usize] = Node::Open(self.path.len());
        self.groups.push(Group {
            node: self.path.len(),
            target: self.targets.len(),
        })?;
        self.path.push(node)?;
        self.targets.extend_from_slice(graph.targets(node))?;
        Ok(())
    }

    // Settles the last group, all of whose targets were looked at: it is a component.
    fn settle(&mut self, graph: &Graph, group: Group)
        requires search { IsSearch graph.now (state_of self.old) }
        requires some { 0 < length self.old.groups.items }
        requires last { group ≡ group_at self.old.groups.items (length self.old.groups.items - 1) }
        requires done { length self.old.targets.items ≤ group.target }
        ensures search { IsSearch graph.now (state_of self.new) }
        ensures advances { Advances graph.now (state_of self.old) (state_of self.new) }
    {
        mark(
            &mut self.nodes,
            &mut self.numbers,
            self.count,
            &self.path,
            group.node,
        );
        self.path.truncate(group.node);
        self.groups.pop();
        self.count += 1;
    }

    // Looks at the last target of the last group. A new one stays to be looked at once more.
    fn look(&mut self, graph: &Graph, group: Group) -> Result<(), AllocError>
        requires search { IsSearch graph.now (state_of self.old) }
        requires some { 0 < length self.old.groups.items }
        requires last { group ≡ group_at self.old.groups.items (length self.old.groups.items - 1) }
        requires left { group.target < length self.old.targets.items }
        ensures search { OnOk result (IsSearch graph.now (state_of self.new)) }
        ensures advances { OnOk result (Advances graph.now (state_of self.old) (state_of self.new)) }
    {
        let target = self.targets[self.targets.len() - 1];
        match self.nodes[target as usize] {
            Node::New => self.open(graph, target),
            Node::Open(place) => {
                join(&mut self.groups, place);
                self.targets.pop();
                Ok(())
            }
            Node::Settled => {
                self.targets.pop();
                Ok(())
            }
        }
    }

    // Follows edges until no node is open.
    fn follow(&mut self, graph: &Graph) -> Result<(), AllocError>
        requires { IsSearch graph.now (state_of self.old) }
        ensures search { OnOk result (IsSearch graph.now (state_of self.new)) }
        ensures known { OnOk result (KeepsKnown self.old.nodes.items self.new.nodes.items) }
        ensures idle { OnOk result (self.new.groups.items ≡ []) }
    {
        while let Some(group) = self.groups.last() {
            let group = *group;
            if group.target < self.targets.len() {
                self.look(graph, group)?;
            } else {
                self.settle(graph, group);
            }
        }
        Ok(())
    }

    // Settles a node and all that it reaches.
    pub(crate) fn reach(&mut self, graph: &Graph, node: u32) -> Result<(), AllocError>
        requires search { IsSearch graph.now (state_of self.old) }
        requires inside { node < length graph.now }
        requires idle { self.old.groups.items ≡ [] }
        ensures search { OnOk result (IsSearch graph.now (state_of self.new)) }
        ensures idle { OnOk result (self.new.groups.items ≡ []) }
        ensures known { OnOk result (KeepsKnown self.old.nodes.items self.new.nodes.items) }
        ensures here { OnOk result (node_at self.new.nodes.items node ≢ known.New) }
    {
        if let Node::New = self.nodes[node as usize] {
            self.open(graph, node)?;
            self.follow(graph)?;
        }
        Ok(())
    }
}

// Joins the groups after that of a place of the path to it.
fn join(groups: &mut Vec<Group>, place: usize)
    ensures joined { AreJoined place groups.old.items groups.new.items }
    ensures last { 0 < length groups.new.items → (group_at groups.new.items (length groups.new.items - 1)).node ≤ place }
{
    while let Some(group) = groups.last() {
        if group.node <= place {
            return;
        }
        groups.pop();
    }
}

// Settles the nodes of the path from a place on, with a number.
fn mark(nodes: &mut [Node], numbers: &mut [u32], count: u32, path: &[u32], start: usize)
    requires place { start ≤ length path.now }
    requires inside { (p : ℕ) → p < length path.now → slice_index path.now p < length nodes.old }
    requires numbers { length numbers.old ≡ length nodes.old }
    requires known { (p : ℕ) → p < length path.now → node_at nodes.old (slice_index path.now p) ≢ known.New }
    ensures { IsMarked path.now start (length path.now) count nodes.old nodes.new numbers.old numbers.new }
{
    for i in start..path.len() {
        let node = path[i] as usize;
        nodes[node] = Node::Settled;
        numbers[node] = count;
    }
}

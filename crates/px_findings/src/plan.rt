ghost use Rattle.std.specs.Prelude.{◌≡◌, length};

use px_callgraph::Graph;

/// What doesn't change while a program's procedures are analysed.
#[derive(Drop)]
pub(crate) struct Plan {
    pub(crate) graph: Graph,
    /// How many procedures are kept.
    pub(crate) kept: u32,
    /// By number, whether a function is left out. Each that is called has its place.
    pub(crate) out: Vec<bool>,
    ghost all: { length graph ≡ kept },
}

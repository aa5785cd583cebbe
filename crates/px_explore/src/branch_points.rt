ghost use Rattle.std.specs.Prelude.{◌<◌, length};

use crate::stops::Fork;

// A point of choice whose ways from `next` on are still to be taken, and how many items are held of its state.
#[derive(Drop)]
pub(crate) struct BranchPoint<'a> {
    pub(crate) fork: Fork<'a>,
    pub(crate) next: usize,
    pub(crate) held: usize,
    ghost some: { next < length fork.ways.items },
}

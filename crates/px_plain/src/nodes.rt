/// A node of a forest: its parent, and how far its value is above its parent's.
///
/// Node 0 stands for the number 0, and for null; node x + 1 for the variable x.
#[derive(Clone, Copy)]
pub struct Node {
    pub parent: u32,
    pub offset: u32,
}

// The value of the node `to` is `plus` above that of the node `from`, or it isn't.
#[derive(Clone, Copy)]
pub(crate) struct Difference {
    pub(crate) from: u32,
    pub(crate) to: u32,
    pub(crate) plus: u32,
    pub(crate) equal: bool,
}

// The value of a root isn't `above` that of a lower root.
#[derive(Clone, Copy)]
pub(crate) struct Exclusion {
    pub(crate) high: u32,
    pub(crate) low: u32,
    pub(crate) above: u32,
}

// What a disequality asks of the roots of a forest.
#[derive(Clone, Copy)]
pub(crate) enum Separation {
    // It can't hold.
    Impossible,
    // It holds already.
    Certain,
    // It holds where the exclusion does.
    By(Exclusion),
}

// A variable, or the negation of one.
#[derive(Clone, Copy)]
pub(crate) enum SignedVar {
    Plus(u32),
    Minus(u32),
}

// What a list of plain conjuncts says of nodes.
#[derive(Drop)]
pub(crate) struct Parts {
    // Equalities and disequalities of words.
    pub(crate) words: Vec<Difference>,
    // Equalities and disequalities of places.
    pub(crate) places: Vec<Difference>,
    // Nodes that are unwritten.
    pub(crate) unwritten: Vec<u32>,
    // Nodes that are written.
    pub(crate) written: Vec<u32>,
}

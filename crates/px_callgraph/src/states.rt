use px_base::{Mark, Site};
use px_entry::{Atom, Exit, Gap};
use px_terms::{Conj, Content, Items, VarInfo};

/// What is known at a place of a path.
#[derive(Drop)]
pub struct State {
    pub slots: Items<Content>,
    pub vars: Items<VarInfo>,
    /// What is assumed of the variables.
    pub pure: Items<Conj>,
    /// The blocks that were there before the call and that the path has met, as it found them.
    pub pre: Items<Atom>,
    /// These and the blocks that the path made, as they are.
    pub atoms: Items<Atom>,
    pub trace: Items<Mark>,
    /// The open loops, the outermost first, each with how often its body was begun.
    pub loops: Items<(Site, u32)>,
    /// How many commands were begun.
    pub steps: u32,
}

/// One way on from a state.
#[derive(Drop)]
pub enum Alternative {
    Next(State),
    /// The procedure ends, with this result.
    Ends(State, Exit, Option<Content>),
    /// The path isn't followed.
    Cut(Gap),
    /// A loop would begin its body once more than the bound allows.
    Beyond,
}

/// The name of a way on from a state.
#[derive(Clone, Copy, Debug, PartialEq, Eq)]
pub enum Way {
    /// The only one.
    On,
    /// A condition is true.
    Then,
    /// A condition is false.
    Else,
    /// A pointer is null, or `malloc` gives null.
    Null,
    /// `malloc` gives a block.
    Made,
    /// What is read was written.
    Written,
    /// What is read was never written.
    Unwritten,
    /// A pointer leads to the block of the atom with this number.
    Atom(u32),
    /// A pointer leads to a live block that wasn't met yet.
    MissingLive,
    /// A pointer leads to a freed block that wasn't met yet.
    MissingFreed,
    /// A block that a callee requires wasn't met yet.
    Missing,
    /// A call goes by the callee's entry with this number.
    Entry(u32),
    /// A call goes where no entry of the callee says, or what isn't understood is reached.
    Drop,
    /// What is divided by is 0.
    ByZero,
    /// What is divided by isn't 0.
    Divided,
}

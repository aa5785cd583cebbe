use px_terms::{Content, Items, TypeId, Var};

/// What is known of a block.
pub enum AtomState {
    /// It is there, with one content for each cell.
    Live(Items<Content>),
    /// It was freed, and its number stays taken.
    Freed,
}

/// A block: the variable that stands for its base, its type, and what is known of it.
pub struct Atom {
    pub place: Var,
    pub block: TypeId,
    pub state: AtomState,
}

/// How a call meets a block that its callee requires.
#[derive(Clone, Copy, Debug, PartialEq, Eq)]
pub enum Case {
    /// It is the block of the caller's atom with this number.
    Atom(u32),
    /// It is a block that the caller hasn't met yet.
    Missing,
}

impl Drop for AtomState {
    fn drop(self) {
        match self {
            AtomState::Live(_) | AtomState::Freed => {}
        }
    }
}

impl Drop for Atom {
    fn drop(self) {
        let Atom {
            place: _,
            block: _,
            state: _,
        } = self;
    }
}

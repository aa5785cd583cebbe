use crate::Atom;
use px_base::{Kind, Mark, ProcId, Site};
use px_terms::{Conj, Content, Items, Value, VarInfo};

/// How a path through a procedure ends.
#[derive(Clone, Copy, Debug, PartialEq, Eq)]
pub enum Exit {
    /// The procedure returns.
    Ok,
    /// A memory error, at this place.
    Error(Kind, Site),
}

/// A path through a procedure: the blocks that it finds, what it assumes, and what it leaves.
pub struct Entry {
    pub proc: ProcId,
    pub trace: Items<Mark>,
    pub exit: Exit,
    /// None for a procedure that gives no value, and for an error.
    pub result: Option<Content>,
    /// The variables that stand for what the path doesn't determine; the first are the parameters.
    pub vars: Items<VarInfo>,
    /// What is assumed of the variables.
    pub pure: Items<Conj>,
    /// The blocks that the path finds.
    pub pre: Items<Atom>,
    /// The same blocks, and those that it makes, as it leaves them.
    pub post: Items<Atom>,
    /// Values of the variables that the path can be taken with.
    pub model: Items<Value>,
}

impl Drop for Entry {
    fn drop(self) {
        let Entry {
            proc: _,
            trace: _,
            exit: _,
            result: _,
            vars: _,
            pure: _,
            pre: _,
            post: _,
            model: _,
        } = self;
    }
}

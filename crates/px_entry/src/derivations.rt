use px_terms::Items;

/// What a step of a derivation does. In this order the rules have their numbers, from 0.
#[derive(Clone, Copy, Debug, PartialEq, Eq)]
pub enum Rule {
    /// A command with one way on and no other rule: an assignment, a declaration, a choice by an outcome, `break` or
    /// `continue`.
    Assign,
    /// What is read was written.
    ReadWritten,
    /// What is read was never written.
    ReadUnwritten,
    TestTrue,
    TestFalse,
    /// A loop begins its body once more.
    Unroll,
    /// A loop is left at its condition.
    LeaveLoop,
    /// A load from the block of an atom.
    Load,
    /// A store to the block of an atom.
    Store,
    /// A load or a store through null.
    NullAccess,
    /// A load or a store through a pointer to a freed block.
    FreedAccess,
    /// A live block that the path hasn't met. The next step uses it.
    MissingLive,
    /// A freed block that the path hasn't met. The next step uses it.
    MissingFreed,
    /// `malloc` gives a block.
    Alloc,
    /// `malloc` gives null.
    AllocNull,
    /// A block is freed.
    Free,
    /// A block is freed a second time.
    FreeTwice,
    /// Null is freed.
    FreeNull,
    Input,
    /// A call, by an entry of the callee's table.
    Call,
    /// The path has ended in the entry.
    End,
    /// A division by what isn't 0.
    Divide,
    /// A division by 0.
    DivideZero,
}

/// A step of a derivation.
pub struct Step {
    pub rule: Rule,
    /// `Load`, `Store`, `FreedAccess`, `Free` and `FreeTwice` have the number of an atom. `Call` has the number of an
    /// entry and then, for each block that the entry requires, the number of the atom that it is or, for one that
    /// wasn't met yet, the number of atoms that there are. The others have none.
    pub choices: Items<u32>,
}

/// How an entry comes of its procedure: the steps of one path, the last of them `End`.
pub struct Derivation {
    pub steps: Items<Step>,
}

impl Drop for Step {
    fn drop(self) {
        let Step {
            rule: _,
            choices: _,
        } = self;
    }
}

impl Drop for Derivation {
    fn drop(self) {
        let Derivation { steps: _ } = self;
    }
}

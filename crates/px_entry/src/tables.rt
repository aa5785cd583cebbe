use crate::Entry;
use px_base::{Mark, ProcId};
use px_terms::{Conj, Items};

/// The limits of a path, in the order in which they are looked at.
#[derive(Clone, Copy, Debug, PartialEq, Eq)]
pub enum LongKind {
    /// 256 marks.
    Trace,
    /// 4,000 commands.
    Steps,
    /// 200 conjuncts.
    Conjuncts,
    /// 64 blocks.
    Atoms,
    /// 8,192 variables.
    Variables,
    /// 16 monomials of degree 4 in one polynomial.
    Term,
}

/// Why a path isn't an entry.
pub enum Cause {
    /// The solver found no values for the path, nor that there are none; these conjuncts were too hard.
    Undecided(Items<Conj>),
    /// The search of the procedure has visited so many nodes.
    Nodes(u32),
    /// The search of the procedure has ended so many paths.
    Paths(u32),
    /// A limit of a path would be passed.
    Long(LongKind),
    /// A procedure is called of which nothing is known.
    Unknown(ProcId),
    /// A procedure is called that leads back to the caller.
    Cycle(ProcId),
    /// A procedure is called some of whose paths aren't entries.
    Dropped(ProcId),
    /// A procedure is called that was left out.
    LeftOut(ProcId),
    /// The path comes to what isn't understood, by the number of its word.
    Outside(u32),
}

/// The paths that begin with a trace and aren't entries.
pub struct Gap {
    pub trace: Items<Mark>,
    pub cause: Cause,
}

/// What is known of a procedure.
#[derive(Drop)]
pub struct Table {
    pub entries: Items<Entry>,
    pub drops: Items<Gap>,
}

impl Drop for Cause {
    fn drop(self) {
        match self {
            Cause::Undecided(_)
            | Cause::Nodes(_)
            | Cause::Paths(_)
            | Cause::Long(_)
            | Cause::Unknown(_)
            | Cause::Cycle(_)
            | Cause::Dropped(_)
            | Cause::LeftOut(_)
            | Cause::Outside(_) => {}
        }
    }
}

impl Drop for Gap {
    fn drop(self) {
        let Gap { trace: _, cause: _ } = self;
    }
}

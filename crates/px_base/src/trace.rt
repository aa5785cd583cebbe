/// A procedure, by its place in the program's list of names.
#[derive(Clone, Copy, Debug, PartialEq, Eq)]
pub struct ProcId(pub u32);

/// A field of a struct, by its place in the definition, from 0.
#[derive(Clone, Copy, Debug, PartialEq, Eq)]
pub struct FieldId(pub u32);

/// A place in the source: the number of the file, from 0, and the line and the column, from 1.
///
/// A line ends at a line feed. Columns count bytes.
#[derive(Clone, Copy, Debug, PartialEq, Eq)]
pub struct Site {
    pub file: u32,
    pub line: u32,
    pub column: u32,
}

/// What an execution does that a trace shows.
#[derive(Clone, Copy, Debug, PartialEq, Eq)]
pub enum MarkKind {
    /// A condition was true.
    Then,
    /// A condition was false.
    Else,
    /// A loop begins its body.
    Iter,
    /// A loop is left at its condition.
    Done,
    /// `malloc` gave a block.
    Got,
    /// `malloc` gave null.
    NoBlock,
    /// `getchar` gave a value.
    Input,
    /// A block is read or written.
    Access,
    /// `free` of a block.
    Freed,
    /// `free` of null, which does nothing (C17 7.22.3.3).
    FreeNull,
    /// A procedure is called.
    Enter(ProcId),
    /// A call returns.
    Leave,
}

/// One step of a trace.
#[derive(Clone, Copy, Debug, PartialEq, Eq)]
pub struct Mark {
    pub kind: MarkKind,
    pub site: Site,
}

/// An error that ends an execution. Each is undefined behaviour in C17: 6.5.3.2 for null and freed blocks, 7.22.3.3
/// for `free`, 6.3.2.1 for a read of what was never written, 6.5.5 for a division by zero.
#[derive(Clone, Copy, Debug, PartialEq, Eq)]
pub enum Kind {
    NullDereference,
    UseAfterFree,
    DoubleFree,
    UninitialisedRead,
    DivisionByZero,
}

use px_base::{FieldId, ProcId, Site};
use px_terms::TypeId;

/// What a command takes: the value of a slot, a word, or null.
#[derive(Clone, Copy, Debug, PartialEq, Eq)]
pub enum Operand {
    Slot(u32),
    Word(i32),
    Null,
}

/// How `Assign` makes a value of its operands. Words wrap.
#[derive(Clone, Copy, Debug, PartialEq, Eq)]
pub enum Operator {
    /// The first operand, which may be unwritten.
    Copy,
    /// Minus the first operand.
    Neg,
    Add,
    /// The first operand minus the second.
    Sub,
    Mul,
}

/// What `Test` asks of its operands. The first four compare words, with their sign; the last two compare
/// pointers.
#[derive(Clone, Copy, Debug, PartialEq, Eq)]
pub enum Comparison {
    Equal,
    Unequal,
    Less,
    AtMost,
    /// Both are null, or the same block.
    SamePlace,
    /// One is null and one isn't, or they are different blocks.
    OtherPlace,
}

/// A command. Slots are numbered from 0. A site is the place in the source that its marks and its
/// error have.
#[derive(Drop)]
pub enum Command {
    /// The slot `to` gets the operator's value. Copy and Neg don't look at `b`.
    Assign {
        to: u32,
        op: Operator,
        a: Operand,
        b: Operand,
    },
    /// The slot becomes unwritten: a declaration without a value (C17 6.2.4), or a value that isn't read.
    Unset {
        to: u32,
    },
    /// A value is used (C17 6.3.2.1): an unwritten slot is the error `UninitialisedRead`.
    Read {
        slot: u32,
        site: Site,
    },
    /// Marks `Then` and gives 1, or marks `Else` and gives 0.
    Test {
        to: u32,
        how: Comparison,
        a: Operand,
        b: Operand,
        site: Site,
    },
    /// Goes on with `then` where the slot is 1, and with `other` where it is 0. Marks nothing.
    If {
        slot: u32,
        then: Vec<Command>,
        other: Vec<Command>,
    },
    /// Again and again the head, a mark `Iter`, the body and the step.
    Loop {
        site: Site,
        head: Vec<Command>,
        body: Vec<Command>,
        step: Vec<Command>,
    },
    /// In the head of a loop: marks `Done` at the loop, which ends.
    Leave,
    /// The slot `to` gets a cell of the block to which `at` points.
    Load {
        to: u32,
        at: Operand,
        field: FieldId,
        block: TypeId,
        site: Site,
    },
    /// A cell of the block to which `at` points gets `from`.
    Store {
        at: Operand,
        field: FieldId,
        block: TypeId,
        from: Operand,
        site: Site,
    },
    /// A new block of this type, or null (C17 7.22.3.4).
    Malloc {
        to: u32,
        block: TypeId,
        site: Site,
    },
    /// Frees the block to which `at` points; does nothing with null (C17 7.22.3.3).
    Free {
        at: Operand,
        block: TypeId,
        site: Site,
    },
    /// A value from -1 to 255: `getchar` (C17 7.21.7.6).
    Input {
        to: u32,
        site: Site,
    },
    /// A call; its value is kept where `to` says so.
    Call {
        to: Option<u32>,
        proc: ProcId,
        arguments: Vec<Operand>,
        site: Site,
    },
    /// Ends the body, with a value where `from` says so.
    Return {
        from: Option<Operand>,
    },
    /// Ends the innermost loop whose body or step this is (C17 6.8.6.3).
    Break,
    /// Goes to the step of the innermost loop whose body this is (C17 6.8.6.2).
    Continue,
    /// What isn't understood: no execution goes on. The word is a number into the program's list of words.
    Stop {
        word: u32,
        site: Site,
    },
    /// The slot `to` gets the quotient of two words, truncated towards zero; a divisor 0 is the error
    /// `DivisionByZero` (C17 6.5.5). The quotient wraps, as words do.
    Divide {
        to: u32,
        a: Operand,
        b: Operand,
        site: Site,
    },
}

use crate::{Argument, Arithmetic, CellLink, Condition, TypedExpression};
use px_base::{FieldId, ProcId, Site};
use px_terms::TypeId;

/// What an assignment writes (C17 6.5.16).
#[derive(Drop)]
pub enum Place {
    /// A local. The site is its token.
    Local {
        local: u32,
        site: Site,
    },
    /// The cell that `*` or `->` names, at the operator's token.
    Cell {
        site: Site,
        field: FieldId,
        block: TypeId,
        pointer: Box<TypedExpression>,
    },
}

/// A statement whose names are resolved and whose types agree (C17 6.8). Expressions and conditions stand in boxes:
/// most statements are calls, and each has room for the largest.
#[derive(Drop)]
pub enum TypedStatement {
    /// Statements one after another: those of a block, the declarators of one declaration, or none.
    Block {
        statements: Vec<TypedStatement>,
    },
    /// The local's declaration is reached, with the value that it begins with.
    Declare {
        local: u32,
        value: Option<Box<TypedExpression>>,
    },
    Assign {
        place: Place,
        value: Box<TypedExpression>,
    },
    /// `place += value`, with `-=` and `*=`; `++` and `--` add and subtract 1.
    Update {
        operator: Arithmetic,
        place: Place,
        value: Box<TypedExpression>,
    },
    /// A call whose result isn't used. The site is the called word.
    Call {
        proc: ProcId,
        arguments: Vec<Argument>,
        site: Site,
    },
    /// `free ( pointer )` of a pointer to this block type, at the word `free`.
    Free {
        pointer: Box<TypedExpression>,
        block: TypeId,
        site: Site,
    },
    /// `getchar ( ) ;`, at that word.
    GetChar {
        site: Site,
    },
    /// Without an `else`, `other` is an empty block.
    If {
        condition: Box<Condition>,
        then: Box<TypedStatement>,
        other: Box<TypedStatement>,
    },
    /// `while`, or a `for` after its first part, at that word. A `while` has an empty block as its step.
    Loop {
        site: Site,
        condition: Option<Box<Condition>>,
        body: Box<TypedStatement>,
        step: Box<TypedStatement>,
    },
    Break,
    Continue,
    Return {
        value: Option<Box<TypedExpression>>,
    },
    /// An expression for its effects (C17 6.8.3): its value isn't read, those below it are.
    Evaluate {
        value: Box<TypedExpression>,
    },
    /// An assignment to a member that isn't known, of the block that `pointer` points to: the pointer is evaluated, and the
    /// parts of the value for their effects. Then the block is accessed, as for this cell, and nothing is stored.
    Access {
        pointer: Box<TypedExpression>,
        parts: Vec<TypedExpression>,
        cell: CellLink,
    },
}

/// What stands before an operand.
#[derive(Clone, Copy, PartialEq, Eq)]
pub enum Prefix {
    Address,
    Indirection,
    Plus,
    Minus,
    Complement,
    Not,
    Increment,
    Decrement,
    Extension,
    Real,
    Imaginary,
}

/// What stands between operands, and evaluates to their value.
#[derive(Clone, Copy, PartialEq, Eq)]
pub enum Operator {
    Multiply,
    Divide,
    Remainder,
    Add,
    Subtract,
    ShiftLeft,
    ShiftRight,
    Less,
    Greater,
    LessEqual,
    GreaterEqual,
    Equal,
    NotEqual,
    BitAnd,
    BitXor,
    BitOr,
    And,
    Or,
    Comma,
}

/// `++` or `--` after an operand.
#[derive(Clone, Copy, PartialEq, Eq)]
pub enum Step {
    Increment,
    Decrement,
}

/// `sizeof`, or `_Alignof` and GNU's words for it.
#[derive(Clone, Copy, PartialEq, Eq)]
pub enum Measure {
    Size,
    Alignment,
}

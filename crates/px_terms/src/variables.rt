use crate::ValueType;

/// A variable of symbolic execution, by its place in the list of variables.
#[derive(Clone, Copy, Debug, PartialEq, Eq)]
pub struct Var(pub u32);

/// What a variable stands for.
#[derive(Clone, Copy, Debug, PartialEq, Eq)]
pub enum Sort {
    /// A parameter of the procedure.
    Given,
    /// What stands in a cell that was there before the procedure was called; it may be unwritten.
    Cell,
    /// A value that was read from the input.
    Input,
    /// A block that `malloc` made.
    Made,
}

/// A variable's sort and the type of its value.
#[derive(Clone, Copy, Debug, PartialEq, Eq)]
pub struct VarInfo {
    pub sort: Sort,
    pub value: ValueType,
}

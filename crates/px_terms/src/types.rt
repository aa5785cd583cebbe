ghost use Rattle.std.specs.Prelude.{◌≡◌, ◌↔◌, true, IfOk};

use crate::{Items, NoMemory};
use std::alloc::Global;

/// A block type, by its place in the program's list of block types.
#[derive(Clone, Copy, Debug, PartialEq, Eq)]
pub struct TypeId(pub u32);

/// The type of a value: `int`, or a pointer to blocks of a type.
#[derive(Clone, Copy, Debug, PartialEq, Eq)]
pub enum ValueType {
    Int,
    Pointer(TypeId),
}

/// Types of values in order: those of a struct's fields.
pub type ValueTypes = Items<ValueType>;

/// What a block holds.
pub enum BlockType {
    /// One cell.
    One(ValueType),
    /// A cell for each field of a struct, in the order of its definition.
    Fields(ValueTypes),
    /// A struct without a definition: nothing is known of its cells.
    Opaque,
}

impl BlockType {
    /// The same block type.
    pub fn copy(&self, alloc: Global) -> Result<BlockType, NoMemory>
        ensures { IfOk result (λ t. t ≡ self.now) }
    {
        Ok(match self {
            BlockType::One(t) => BlockType::One(*t),
            BlockType::Fields(ts) => BlockType::Fields(ts.copy(alloc)?),
            BlockType::Opaque => BlockType::Opaque,
        })
    }

    /// Whether both are the same block type. Takes no memory.
    pub fn equals(&self, other: &BlockType) -> bool
        ensures { result ≡ true ↔ self.now ≡ other.now }
    {
        match (self, other) {
            (BlockType::One(t), BlockType::One(u)) => *t == *u,
            (BlockType::Fields(ts), BlockType::Fields(us)) => ts.equals(us),
            (BlockType::Opaque, BlockType::Opaque) => true,
            _ => false,
        }
    }
}

/// What a cell, a local or a variable can have.
#[derive(Clone, Copy, Debug, PartialEq, Eq)]
pub enum Value {
    /// An `int` of 32 bits.
    Word(i32),
    /// The null pointer (C17 6.3.2.3).
    Null,
    /// The base of the block with this number.
    Block(u32),
    /// Nothing was written since the object came to be; its value is indeterminate (C17 6.7.9).
    Unwritten,
}

impl Drop for BlockType {
    fn drop(self) {
        match self {
            BlockType::One(_) | BlockType::Fields(_) | BlockType::Opaque => {}
        }
    }
}

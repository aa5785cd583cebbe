ghost use Rattle.std.specs.Prelude.{◌≡◌, ◌↔◌, true, IfOk};

use crate::{
    BlockType, Conj, Content, Items, NoMemory, Poly, Sort, TypeId, Value, ValueType, Var, VarInfo,
};
use std::alloc::Global;

/// What is compared and copied by its value, as contracts see it.
pub trait ByValue: Drop {
    /// An equal value.
    fn copy_in(&self, alloc: Global) -> Result<Self, NoMemory>
        ensures { IfOk result (λ c. c ≡ self.now) };

    /// Whether both are equal. Takes no memory.
    fn equals(&self, other: &Self) -> bool
        ensures { result ≡ true ↔ self.now ≡ other.now };
}

/// Whether two slices have equal items. Takes no memory.
pub fn same_items<T: ByValue>(a: &[T], b: &[T]) -> bool
    ensures { result ≡ true ↔ a.now ≡ b.now }
{
    if a.len() != b.len() {
        return false;
    }
    for i in 0..a.len() {
        if !a[i].equals(&b[i]) {
            return false;
        }
    }
    true
}

impl<T: ByValue> Items<T> {
    /// A list of equal items.
    pub fn copy(&self, alloc: Global) -> Result<Items<T>, NoMemory>
        ensures { IfOk result (λ c. c ≡ self.now) }
    {
        let all = self.as_slice();
        let mut copies = Items::new(alloc);
        for i in 0..all.len() {
            copies.push(all[i].copy_in(alloc)?)?;
        }
        Ok(copies)
    }

    /// Whether both lists have equal items. Takes no memory.
    pub fn equals(&self, other: &Items<T>) -> bool
        ensures { result ≡ true ↔ self.now ≡ other.now }
    {
        same_items(self.as_slice(), other.as_slice())
    }
}

impl ByValue for Poly {
    fn copy_in(&self, _: Global) -> Result<Poly, NoMemory> {
        self.copy()
    }

    fn equals(&self, other: &Poly) -> bool {
        Poly::equals(self, other)
    }
}

impl ByValue for Content {
    fn copy_in(&self, _: Global) -> Result<Content, NoMemory> {
        self.copy()
    }

    fn equals(&self, other: &Content) -> bool {
        Content::equals(self, other)
    }
}

impl ByValue for Conj {
    fn copy_in(&self, _: Global) -> Result<Conj, NoMemory> {
        self.copy()
    }

    fn equals(&self, other: &Conj) -> bool {
        Conj::equals(self, other)
    }
}

impl ByValue for BlockType {
    fn copy_in(&self, alloc: Global) -> Result<BlockType, NoMemory> {
        self.copy(alloc)
    }

    fn equals(&self, other: &BlockType) -> bool {
        BlockType::equals(self, other)
    }
}

impl ByValue for Var {
    fn copy_in(&self, _: Global) -> Result<Var, NoMemory> {
        Ok(*self)
    }

    fn equals(&self, other: &Var) -> bool {
        *self == *other
    }
}

impl ByValue for VarInfo {
    fn copy_in(&self, _: Global) -> Result<VarInfo, NoMemory> {
        Ok(*self)
    }

    fn equals(&self, other: &VarInfo) -> bool {
        *self == *other
    }
}

impl ByValue for ValueType {
    fn copy_in(&self, _: Global) -> Result<ValueType, NoMemory> {
        Ok(*self)
    }

    fn equals(&self, other: &ValueType) -> bool {
        *self == *other
    }
}

impl ByValue for Value {
    fn copy_in(&self, _: Global) -> Result<Value, NoMemory> {
        Ok(*self)
    }

    fn equals(&self, other: &Value) -> bool {
        *self == *other
    }
}

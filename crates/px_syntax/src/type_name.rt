use crate::Name;

/// What stands before the stars of a type.
pub enum Base {
    Int,
    /// `struct` and its tag.
    Struct(Name),
}

/// A type of values or of blocks (C17 6.7.7): a base after at most two stars.
pub struct TypeName {
    pub base: Base,
    pub stars: u32,
}

/// What a declaration says of one name (C17 6.7.6): the name after at most two stars.
pub struct Declarator {
    pub stars: u32,
    pub name: Name,
}

impl Drop for Base {
    fn drop(self) {
        match self {
            Base::Int | Base::Struct(_) => {}
        }
    }
}

impl Drop for TypeName {
    fn drop(self) {
        let TypeName { base: _, stars: _ } = self;
    }
}

impl Drop for Declarator {
    fn drop(self) {
        let Declarator { stars: _, name: _ } = self;
    }
}

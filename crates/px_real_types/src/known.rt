use crate::shape::{ProfileType, Shape};

/// What is known of the type of an object, a member or an expression.
#[derive(Clone, Copy, Debug, PartialEq, Eq)]
pub enum Known {
    /// What the profile sees of it.
    Seen(Shape),
    /// A union, or a struct that the profile doesn't see, with the number under which its members are found.
    Record(u32),
    /// An array of what the profile doesn't see.
    Array,
}

/// A member of a struct or union.
#[derive(Clone, Copy, Debug, PartialEq, Eq)]
pub enum Member {
    /// The cell with this number, of a value of this type.
    Cell { number: u32, kind: ProfileType },
    /// One that is no cell.
    Other(Known),
}

/// What a keyword is to the grammar of declarations.
#[derive(Clone, Copy, PartialEq, Eq)]
pub enum Role {
    /// A storage class or a word of functions, as `static`, `typedef` and `inline`, or `__extension__`.
    Storage,
    /// `const` and its like.
    Qualifier,
    /// `_Atomic`: with parentheses it says a type, and without them it is a qualifier.
    Atomic,
    /// A word of a type's name, as `int` and `unsigned`.
    Basic,
    /// `struct` or `union`.
    Record,
    /// `enum`.
    Enumeration,
    /// A word that says a type with its parentheses, as `__typeof__`.
    Typeof,
    /// `_Alignas`, whose parentheses follow.
    Alignment,
    /// `__attribute__`, whose parentheses follow.
    Attribute,
    /// `__asm__`, whose parentheses follow.
    Assembler,
    /// `_Static_assert`, whose parentheses follow.
    Assertion,
    /// `...`
    Ellipsis,
    /// Anything else.
    Other,
}

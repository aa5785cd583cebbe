use px_base::Site;
use px_real_types::{Known, Member, ProfileType};
use px_syntax::Name;

/// The type of a function. Those of its parameters that aren't of the profile are erased, and so is what it takes beyond them, if it takes more.
/// It has a result where that is of the profile.
#[derive(Drop)]
pub struct Function {
    pub parameters: Vec<Option<ProfileType>>,
    pub takes_more: bool,
    pub result: Option<ProfileType>,
}

/// What a name means (C11 6.2.1).
#[derive(Drop)]
pub enum Meaning {
    /// A type.
    Type(Known),
    /// An enumerator, with its value where that is written as a constant or counted from one.
    Enumerator(Option<u32>),
    /// An object, with the first word of its type that is no qualifier.
    Object { known: Known, word: Name },
    /// A function, with the first word of its result's type.
    Function { function: Function, word: Name },
    /// A local of the profile.
    Local { number: u32, kind: ProfileType },
}

/// What a tag means (C11 6.7.2.3).
#[derive(Clone, Copy, Debug, PartialEq, Eq)]
pub enum Tag {
    /// The struct or union with this number.
    Record(u32),
    Enumeration,
}

/// What stands in scope.
#[derive(Drop)]
pub enum Binding {
    /// Here a block begins.
    Block,
    Name { name: Name, meaning: Meaning },
    Tag { name: Name, tag: Tag },
    /// A struct or union without a tag.
    Place { site: Site, number: u32 },
}

/// A member of a struct or union.
#[derive(Drop)]
pub struct NamedMember {
    pub name: Name,
    pub member: Member,
}

/// A struct or union that is defined.
#[derive(Drop)]
pub struct Definition {
    pub(crate) number: u32,
    pub(crate) members: Vec<NamedMember>,
}

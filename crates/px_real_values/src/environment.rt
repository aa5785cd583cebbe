ghost use Rattle.std.specs.Prelude.{◌≡◌, List, IfOk};
ghost use Rattle.px_real_expressions.specs.Lexemes.{Lexeme};
ghost use Rattle.px_real_symbols.specs.Symbols.{held_in};
ghost use Rattle.px_real_values.specs.Environment as Seen;
ghost use Rattle.px_real_values.specs.Views.{meaning_seen, spelled_seen};

use px_base::ProcId;
use px_real_symbols::Span;
use px_real_types::{Known, Member, ProfileType, Shape};
use px_terms::NoMemory;
use std::alloc::Global;

/// What a function of the library is to the rules, or a word of GNU C that is called like one.
#[derive(Clone, Copy, Debug, PartialEq, Eq)]
pub enum Library {
    Malloc,
    Calloc,
    Realloc,
    Free,
    GetChar,
    /// `__builtin_expect`: its first argument.
    Expect,
    /// `__builtin_constant_p`, which evaluates nothing.
    ConstantP,
    /// `__builtin_object_size`, which evaluates nothing.
    ObjectSize,
}

/// A function. Those of its parameters that aren't of the profile are erased, and so is what it takes beyond them, if it takes more. It has a
/// result where that is of the profile.
#[derive(Clone, Copy)]
pub struct Signature<'a> {
    pub proc: ProcId,
    pub parameters: &'a [Option<ProfileType>],
    pub takes_more: bool,
    pub result: Option<ProfileType>,
}

/// What a call of a name goes to.
#[derive(Clone, Copy)]
pub enum Callee<'a> {
    Function(Signature<'a>),
    /// A function of the library, where no file of the run defines it.
    Library(Library),
    NoFunction,
}

/// What a name means.
#[derive(Clone, Copy)]
pub enum Meaning<'a> {
    /// A local of the profile.
    Local {
        number: u32,
        kind: ProfileType,
    },
    /// An enumerator, with its value where that is written as a constant or counted from one.
    Enumerator {
        value: Option<u32>,
    },
    /// Any other name that is declared, with the number of the first word of its type that is no qualifier.
    Other {
        callee: Callee<'a>,
        known: Known,
        word: u32,
    },
    Undeclared,
}

/// The type that a type's name spells.
#[derive(Clone, Copy)]
pub struct TypeSpelled {
    pub shape: Shape,
    /// Whether it is written with a star behind what it points to, as `T *`.
    pub is_starred: bool,
}

/// What an expression's place sees of the program.
pub trait Environment {
    /// All of it.
    ghost sees: { Self → Seen.Environment };

    /// The tokens by whose numbers the expression holds its parts.
    ghost tokens: { Self → List Lexeme };

    /// What a name means.
    fn meaning(&self, name: &[u8]) -> Meaning<'_>
        ensures { meaning_seen result ≡ (sees self.now).meaning name.now };

    /// The member of this name of a struct or union.
    fn member(&self, number: u32, name: &[u8]) -> Option<Member>
        ensures { result ≡ (sees self.now).member number name.now };

    /// Whether a struct is defined.
    fn is_defined(&self, number: u32) -> bool
        ensures { result ≡ (sees self.now).is_defined number };

    /// The number of a block type.
    fn block_number(&self, block: ProfileType) -> u32
        ensures { result ≡ (sees self.now).block_number block };

    /// The number of a word.
    fn word_number(&self, word: &[u8]) -> u32
        ensures { result ≡ (sees self.now).word_number word.now };

    /// The type that a type's name spells.
    fn spelled(&self, alloc: Global, held: Span) -> Result<TypeSpelled, NoMemory>
        ensures { IfOk result (λ s. spelled_seen s ≡ Seen.spelled (sees self.now) (held_in (tokens self.now) held)) };
}

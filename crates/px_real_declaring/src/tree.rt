use px_base::Site;
use px_real_symbols::Span;
use px_syntax::Name;

/// A keyword with what stands in its parentheses, as an attribute. The site is the keyword's.
#[derive(Drop)]
pub struct Group {
    pub word: Name,
    pub site: Site,
    pub held: Span,
}

/// What stands before a declarator (C11 6.7). The sites are those of the words.
#[derive(Drop)]
pub enum Specifier {
    /// A keyword alone.
    Keyword {
        word: Name,
        site: Site,
    },
    /// The name of a type.
    TypeName {
        name: Name,
        site: Site,
    },
    Group(Group),
    /// `struct`, `union` or `enum`, with what stands between its braces, if it has some.
    Tagged {
        word: Name,
        site: Site,
        attributes: Vec<Group>,
        tag: Option<Name>,
        held: Option<Span>,
    },
}

/// What stands behind a declarator, in brackets or in parentheses, at the one that opens.
#[derive(Clone, Copy)]
pub enum Suffix {
    Array { site: Site, held: Span },
    Function { site: Site, held: Span },
}

/// What stands around a name (C11 6.7.6).
pub enum Declarator {
    NoName,
    Name {
        name: Name,
        site: Site,
    },
    /// In parentheses, at the `(`.
    Inner {
        site: Site,
        attributes: Vec<Group>,
        inner: Box<Declarator>,
    },
    /// At the star.
    Pointer {
        site: Site,
        qualifiers: Vec<Specifier>,
        target: Box<Declarator>,
    },
    /// A declarator and what stands behind it, from left to right.
    Suffixed {
        core: Box<Declarator>,
        suffixes: Vec<Suffix>,
    },
}

impl Drop for Declarator {
    #[cycle(letting_declarators_go)]
    fn drop(self) {
        match self {
            Declarator::NoName
            | Declarator::Name { name: _, site: _ }
            | Declarator::Inner {
                site: _,
                attributes: _,
                inner: _,
            }
            | Declarator::Pointer {
                site: _,
                qualifiers: _,
                target: _,
            }
            | Declarator::Suffixed {
                core: _,
                suffixes: _,
            } => {}
        }
    }
}

/// A declarator and what belongs to it.
#[derive(Drop)]
pub struct Declared {
    /// Attributes before it, where it isn't the first.
    pub before: Vec<Group>,
    pub declarator: Declarator,
    /// The name that the assembler has for it.
    pub label: Option<Group>,
    pub after: Vec<Group>,
    /// What stands behind the `=`, or in a member behind the `:`.
    pub value: Option<Span>,
}

/// A declaration (C11 6.7).
#[derive(Drop)]
pub enum Declaration {
    Declaration {
        specifiers: Vec<Specifier>,
        declared: Vec<Declared>,
    },
    /// `_Static_assert`.
    Assertion(Group),
}

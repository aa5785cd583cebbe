use px_base::Site;
use px_real_declaring::{Declaration, Declarator, Group, Specifier};
use px_real_symbols::Span;
use px_syntax::Name;

/// An enumerator (C11 6.7.2.2), at its name.
#[derive(Drop)]
pub struct Enumerator {
    pub name: Name,
    pub site: Site,
    pub attributes: Vec<Group>,
    /// What stands behind its `=`.
    pub value: Option<Span>,
}

/// What stands between the parentheses behind a declarator (C11 6.7.6.3).
#[derive(Drop)]
pub enum Parameters {
    /// Parameters, and whether `...` stands behind them.
    Declared {
        parameters: Vec<Declaration>,
        variadic: bool,
    },
    /// Names alone, or nothing.
    Names(Vec<Name>),
}

/// What stands before a function's body (C11 6.9.1).
#[derive(Drop)]
pub struct Head {
    pub specifiers: Vec<Specifier>,
    pub declarator: Declarator,
    /// In an old-style definition, the declarations of its parameters.
    pub declarations: Vec<Declaration>,
}

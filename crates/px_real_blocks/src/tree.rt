use px_base::Site;
use px_real_symbols::Span;
use px_syntax::Name;

/// What stands before a statement and names it (C11 6.8.1). The sites are those of the name and of the words.
pub enum Label {
    Named { name: Name, site: Site },
    /// A value, or with GNU's `...` two, held.
    Case { site: Site, value: Span },
    Default { site: Site },
}

/// A statement (C11 6.8), with the forms of GNU C. Declarations and expressions are held as their tokens. The sites are those of
/// the words.
pub enum Statement {
    /// A `;` alone.
    Empty,
    /// A declaration or an expression.
    Simple {
        tokens: Span,
    },
    Block {
        statements: Vec<Statement>,
    },
    If {
        site: Site,
        condition: Span,
        then: Box<Statement>,
    },
    IfElse {
        site: Site,
        condition: Span,
        then: Box<Statement>,
        other: Box<Statement>,
    },
    Switch {
        site: Site,
        value: Span,
        body: Box<Statement>,
    },
    While {
        site: Site,
        condition: Span,
        body: Box<Statement>,
    },
    /// `do body while ( condition ) ;`
    Do {
        site: Site,
        body: Box<Statement>,
        condition: Span,
    },
    /// `for ( first ; condition ; step ) body`, where each of the three may be nothing.
    For {
        site: Site,
        first: Span,
        condition: Span,
        step: Span,
        body: Box<Statement>,
    },
    /// To a label, or with GNU's `*` to an address.
    Goto {
        site: Site,
        target: Span,
    },
    Break {
        site: Site,
    },
    Continue {
        site: Site,
    },
    /// A value, or nothing.
    Return {
        site: Site,
        value: Span,
    },
    /// A statement with labels before it.
    Labelled {
        labels: Vec<Label>,
        statement: Box<Statement>,
    },
    /// What begins with no statement, up to the end of its block.
    Unread {
        tokens: Span,
    },
}

impl Drop for Label {
    fn drop(self) {
        match self {
            Label::Named { name: _, site: _ }
            | Label::Case { site: _, value: _ }
            | Label::Default { site: _ } => {}
        }
    }
}

impl Drop for Statement {
    #[cycle(letting_statements_go)]
    fn drop(self) {
        match self {
            Statement::Empty
            | Statement::Simple { tokens: _ }
            | Statement::Block { statements: _ }
            | Statement::If {
                site: _,
                condition: _,
                then: _,
            }
            | Statement::IfElse {
                site: _,
                condition: _,
                then: _,
                other: _,
            }
            | Statement::Switch {
                site: _,
                value: _,
                body: _,
            }
            | Statement::While {
                site: _,
                condition: _,
                body: _,
            }
            | Statement::Do {
                site: _,
                body: _,
                condition: _,
            }
            | Statement::For {
                site: _,
                first: _,
                condition: _,
                step: _,
                body: _,
            }
            | Statement::Goto { site: _, target: _ }
            | Statement::Break { site: _ }
            | Statement::Continue { site: _ }
            | Statement::Return { site: _, value: _ }
            | Statement::Labelled {
                labels: _,
                statement: _,
            }
            | Statement::Unread { tokens: _ } => {}
        }
    }
}

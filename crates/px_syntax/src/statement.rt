use crate::{Base, BinaryOperator, Declarator, Expression};
use px_base::Site;
use px_terms::Items;

/// A declared name and the value that it begins with (C17 6.7).
pub struct InitDeclarator {
    pub declarator: Declarator,
    pub value: Option<Expression>,
}

/// A declaration of locals of one base (C17 6.7).
pub struct Declaration {
    pub base: Base,
    pub declarators: Items<InitDeclarator>,
}

/// What an assignment writes, and what it is given.
pub struct Sides {
    pub place: Expression,
    pub value: Expression,
}

/// What stands alone before a `;` and changes something (C17 6.8.3). What has more than one expression has them in
/// a box, since most statements are calls, and each has room for the largest.
pub enum SimpleStatement {
    /// `place = value`.
    Assign {
        sides: Box<Sides>,
    },
    /// `place += value`, with `-=` and `*=`. The operator is the arithmetic one.
    Update {
        operator: BinaryOperator,
        sides: Box<Sides>,
    },
    /// `place ++` or `++ place`.
    Increment {
        place: Expression,
    },
    /// `place --` or `-- place`.
    Decrement {
        place: Expression,
    },
    /// A call.
    Call {
        call: Expression,
    },
}

/// What a `for` begins with (C17 6.8.5.3).
pub enum FirstClause {
    Declaration(Declaration),
    Simple(SimpleStatement),
}

/// What stands between the parentheses of a `for` (C17 6.8.5.3).
pub struct ForHead {
    pub first: Option<FirstClause>,
    pub condition: Option<Expression>,
    pub step: Option<SimpleStatement>,
}

/// A statement (C17 6.8). The sites of loops are those of the words `while` and `for`.
pub enum Statement {
    /// A `;` alone.
    Empty,
    Block {
        statements: Vec<Statement>,
    },
    Declare {
        declaration: Declaration,
    },
    Simple {
        simple: SimpleStatement,
    },
    If {
        condition: Box<Expression>,
        then: Box<Statement>,
    },
    IfElse {
        condition: Box<Expression>,
        then: Box<Statement>,
        other: Box<Statement>,
    },
    While {
        site: Site,
        condition: Box<Expression>,
        body: Box<Statement>,
    },
    For {
        site: Site,
        head: Box<ForHead>,
        body: Box<Statement>,
    },
    Break,
    Continue,
    Return {
        value: Option<Expression>,
    },
}

impl Drop for InitDeclarator {
    fn drop(self) {
        let InitDeclarator {
            declarator: _,
            value: _,
        } = self;
    }
}

impl Drop for Declaration {
    fn drop(self) {
        let Declaration {
            base: _,
            declarators: _,
        } = self;
    }
}

impl Drop for Sides {
    fn drop(self) {
        let Sides { place: _, value: _ } = self;
    }
}

impl Drop for SimpleStatement {
    fn drop(self) {
        match self {
            SimpleStatement::Assign { sides: _ }
            | SimpleStatement::Update {
                operator: _,
                sides: _,
            }
            | SimpleStatement::Increment { place: _ }
            | SimpleStatement::Decrement { place: _ }
            | SimpleStatement::Call { call: _ } => {}
        }
    }
}

impl Drop for FirstClause {
    fn drop(self) {
        match self {
            FirstClause::Declaration(_) | FirstClause::Simple(_) => {}
        }
    }
}

impl Drop for ForHead {
    fn drop(self) {
        let ForHead {
            first: _,
            condition: _,
            step: _,
        } = self;
    }
}

impl Drop for Statement {
    #[cycle(letting_statements_go)]
    fn drop(self) {
        match self {
            Statement::Empty
            | Statement::Block { statements: _ }
            | Statement::Declare { declaration: _ }
            | Statement::Simple { simple: _ }
            | Statement::If {
                condition: _,
                then: _,
            }
            | Statement::IfElse {
                condition: _,
                then: _,
                other: _,
            }
            | Statement::While {
                site: _,
                condition: _,
                body: _,
            }
            | Statement::For {
                site: _,
                head: _,
                body: _,
            }
            | Statement::Break
            | Statement::Continue
            | Statement::Return { value: _ } => {}
        }
    }
}

ghost use Rattle.std.specs.Prelude.{◌≡◌, map, IfOk};
ghost use Rattle.px_syntax.specs.ExpressionTree.{expression_tree, link_tree, chained, binary, member};

use crate::{Name, TypeName};
use px_base::Site;
use px_terms::NoMemory;
use std::alloc::Global;

/// An operator before its operand (C17 6.5.3).
#[derive(Clone, Copy, Debug, PartialEq, Eq)]
pub enum UnaryOperator {
    Minus,
    Not,
    Indirection,
}

/// An operator between its operands (C17 6.5.5 to 6.5.14).
#[derive(Clone, Copy, Debug, PartialEq, Eq)]
pub enum BinaryOperator {
    Multiply,
    Add,
    Subtract,
    Less,
    LessEqual,
    Greater,
    GreaterEqual,
    Equal,
    NotEqual,
    And,
    Or,
    Divide,
    Remainder,
}

/// An operator and the operand after it. The site is the operator's token.
#[cycle(expression)]
pub struct Link {
    pub operator: BinaryOperator,
    pub site: Site,
    pub operand: Expression,
}

/// `-> field`. The site is the arrow's token.
pub struct Arrow {
    pub field: Name,
    pub site: Site,
}

/// The types that a `malloc` names: that of the cast before it, and that of its block.
pub struct MallocTypes {
    pub cast: Option<TypeName>,
    pub size: TypeName,
}

/// An expression (C17 6.5). Parentheses leave no trace in it.
///
/// What associates to the left is a list, so that a tree is only as deep as parentheses and prefix operators
/// nest.
#[cycle(expression)]
pub enum Expression {
    /// A decimal constant, at most 2147483647. The site is its token.
    Constant {
        value: u32,
        site: Site,
    },
    /// The word `NULL`, at the site.
    Null {
        site: Site,
    },
    /// A variable. The site is its token.
    Variable {
        name: Name,
        site: Site,
    },
    /// The site is the operator's token.
    Unary {
        operator: UnaryOperator,
        site: Site,
        operand: Box<Expression>,
    },
    /// An operator and its right operand. Its left operand is a first one with the links of a chain after it,
    /// often none. The site is the operator's token.
    Binary {
        first: Box<Expression>,
        before: Vec<Link>,
        operator: BinaryOperator,
        site: Site,
        right: Box<Expression>,
    },
    /// `-> field` after a pointer, which has the arrows of a chain after it, often none. The site is the
    /// arrow's token.
    Member {
        site: Site,
        pointer: Box<Expression>,
        before: Vec<Arrow>,
        field: Name,
    },
    /// A call of a function by its name, other than `free` and `getchar`. The site is the name's token.
    Call {
        function: Name,
        site: Site,
        arguments: Vec<Expression>,
    },
    /// `free ( pointer )`. The site is that of the word `free`.
    Free {
        site: Site,
        pointer: Box<Expression>,
    },
    /// `getchar ( )`. The site is that of the word `getchar`.
    GetChar {
        site: Site,
    },
    /// `malloc ( sizeof ( size ) )`, with the type of a cast before it. The site is that of the word `malloc`.
    Malloc {
        site: Site,
        types: Box<MallocTypes>,
    },
}

impl Expression {
    /// An operator between two operands. Where the left one is such an expression itself, its chain grows.
    #[tactic(auto, using(crate::proofs::ExpressionEquations::trees))]
    pub fn binary(
        alloc: Global,
        operator: BinaryOperator,
        site: Site,
        left: Expression,
        right: Expression,
    ) -> Result<Expression, NoMemory>
        ensures { IfOk result (λ e. expression_tree e ≡ binary operator site (expression_tree left) (expression_tree right)) }
    {
        let (first, before) = left.into_links(alloc)?;
        Ok(Expression::Binary {
            first,
            before,
            operator,
            site,
            right: Box::new(alloc, right)?,
        })
    }

    // A first operand and the links after it.
    fn into_links(self, alloc: Global) -> Result<(Box<Expression>, Vec<Link>), NoMemory>
        ensures { IfOk result (λ x. chained (expression_tree x.0.value) (map link_tree x.1.items) ≡ expression_tree self) }
    {
        match self {
            Expression::Binary {
                first,
                mut before,
                operator,
                site,
                right,
            } => {
                let operand = Box::into_inner(right);
                before.push(Link {
                    operator,
                    site,
                    operand,
                })?;
                Ok((first, before))
            }
            other => Ok((Box::new(alloc, other)?, Vec::new(alloc))),
        }
    }

    /// `pointer -> field`. Where the pointer is such an expression itself, its chain grows.
    #[tactic(auto, using(crate::proofs::ExpressionChains::member_chains))]
    pub fn member(
        alloc: Global,
        pointer: Expression,
        field: Name,
        site: Site,
    ) -> Result<Expression, NoMemory>
        ensures { IfOk result (λ e. expression_tree e ≡ member (expression_tree pointer) field site) }
    {
        let (pointer, before) = match pointer {
            Expression::Member {
                site,
                pointer,
                mut before,
                field,
            } => {
                before.push(Arrow { field, site })?;
                (pointer, before)
            }
            other => (Box::new(alloc, other)?, Vec::new(alloc)),
        };
        Ok(Expression::Member {
            site,
            pointer,
            before,
            field,
        })
    }
}

impl Drop for Link {
    #[cycle(letting_expressions_go)]
    fn drop(self) {
        let Link {
            operator: _,
            site: _,
            operand: _,
        } = self;
    }
}

impl Drop for Arrow {
    fn drop(self) {
        let Arrow { field: _, site: _ } = self;
    }
}

impl Drop for MallocTypes {
    fn drop(self) {
        let MallocTypes { cast: _, size: _ } = self;
    }
}

impl Drop for Expression {
    #[cycle(letting_expressions_go)]
    fn drop(self) {
        match self {
            Expression::Constant { value: _, site: _ }
            | Expression::Null { site: _ }
            | Expression::Variable { name: _, site: _ }
            | Expression::Unary {
                operator: _,
                site: _,
                operand: _,
            }
            | Expression::Binary {
                first: _,
                before: _,
                operator: _,
                site: _,
                right: _,
            }
            | Expression::Member {
                site: _,
                pointer: _,
                before: _,
                field: _,
            }
            | Expression::Call {
                function: _,
                site: _,
                arguments: _,
            }
            | Expression::Free {
                site: _,
                pointer: _,
            }
            | Expression::GetChar { site: _ }
            | Expression::Malloc { site: _, types: _ } => {}
        }
    }
}

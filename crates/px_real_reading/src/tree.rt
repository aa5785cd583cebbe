ghost use Rattle.std.specs.Prelude.{◌≡◌, List, map, IfOk};
ghost use Rattle.px_real_expressions.specs.ExpressionTree.{binary, is_unary};
ghost use Rattle.px_real_expressions.specs.Lexemes.{Lexeme};
ghost use Rattle.px_real_reading.specs.Trees.{expression_tree, link_tree, suffix_tree, chained, suffixed, all_suffixed};

use px_base::Site;
use px_real_expressions::{Measure, Operator, Prefix, Step};
use px_real_symbols::Span;
use px_syntax::Name;
use px_terms::NoMemory;
use std::alloc::Global;

/// An operator and the operand after it. The site is the operator's token.
#[cycle(expression)]
pub struct Link {
    pub operator: Operator,
    pub site: Site,
    pub operand: Expression,
}

/// What stands after a postfix expression (C11 6.5.2). The sites are those of the bracket, the dot, the arrow and the operator.
#[cycle(expression)]
pub enum Suffix {
    Index {
        site: Site,
        index: Box<Expression>,
    },
    Call {
        site: Site,
        arguments: Vec<Expression>,
    },
    Member {
        site: Site,
        name: Name,
    },
    PointerMember {
        site: Site,
        name: Name,
    },
    Step {
        step: Step,
        site: Site,
    },
}

/// An expression (C11 6.5), with the forms of GNU C.
///
/// What associates to the left is a list, so that a tree is only as deep as the expression nests. Names of types, initialisers,
/// bodies of statement expressions and arguments of built-in forms are held as their tokens.
#[cycle(expression)]
pub enum Expression {
    Name {
        name: Name,
        site: Site,
    },
    /// A number or a character, with its value where the profile has it.
    Constant {
        value: Option<u32>,
        site: Site,
    },
    /// A string, or several side by side. The site is that of the first.
    String {
        site: Site,
    },
    /// An expression in parentheses, at the `(`.
    Parenthesised {
        site: Site,
        inner: Box<Expression>,
    },
    /// `({ .. })`, at the `(`: what stands between the braces.
    Statement {
        site: Site,
        body: Span,
    },
    /// `( type ) { .. }`, at the `(`.
    Literal {
        site: Site,
        type_name: Span,
        values: Span,
    },
    /// `_Generic ( .. )` and its like, at the word.
    Form {
        word: Name,
        site: Site,
        arguments: Span,
    },
    /// What stands after an operand. The operand is a first one with the suffixes of a chain after it, often none.
    Postfix {
        first: Box<Expression>,
        before: Vec<Suffix>,
        last: Suffix,
    },
    /// An operator before its operand, at the operator.
    Prefixed {
        operator: Prefix,
        site: Site,
        operand: Box<Expression>,
    },
    /// `&& name`, the address of a label, at the operator.
    Label {
        name: Name,
        site: Site,
    },
    /// `sizeof` and its like of an expression, at the word.
    Measure {
        measure: Measure,
        site: Site,
        operand: Box<Expression>,
    },
    /// `sizeof ( type )` and its like, at the word.
    MeasureType {
        measure: Measure,
        site: Site,
        type_name: Span,
    },
    /// `( type ) operand`, at the `(`.
    Cast {
        site: Site,
        type_name: Span,
        operand: Box<Expression>,
    },
    /// An operator and its right operand. Its left operand is a first one with the links of a chain after it,
    /// often none. The site is the operator's token.
    Binary {
        first: Box<Expression>,
        before: Vec<Link>,
        operator: Operator,
        site: Site,
        right: Box<Expression>,
    },
    /// `condition ? chosen : otherwise`, at the `?`.
    Choice {
        site: Site,
        condition: Box<Expression>,
        chosen: Box<Expression>,
        otherwise: Box<Expression>,
    },
    /// `condition ?: otherwise`, at the `?`.
    ChoiceOr {
        site: Site,
        condition: Box<Expression>,
        otherwise: Box<Expression>,
    },
    /// `left = right`, or with the operator that goes with it, at the operator.
    Assign {
        operator: Option<Operator>,
        site: Site,
        left: Box<Expression>,
        right: Box<Expression>,
    },
}

impl Expression {
    /// An operator between two operands. Where the left one is such an expression itself, its chain grows.
    pub fn binary(
        alloc: Global,
        operator: Operator,
        site: Site,
        left: Expression,
        right: Expression,
    ) -> Result<Expression, NoMemory>
        ensures { IfOk result (λ e. (all : List Lexeme) → expression_tree all e ≡ binary operator site (expression_tree all left) (expression_tree all right)) }
    {
        let (first, before) = left.into_links(alloc)?;
        Ok(Expression::Binary {
            first,
            before,
            operator,
            site,
            right: Box::new(alloc, right)?,
        })
    }

    // A first operand and the links after it.
    fn into_links(self, alloc: Global) -> Result<(Box<Expression>, Vec<Link>), NoMemory>
        ensures { IfOk result (λ x. (all : List Lexeme) → chained (expression_tree all x.0.value) (map (link_tree all) x.1.items) ≡ expression_tree all self) }
    {
        match self {
            Expression::Binary {
                first,
                mut before,
                operator,
                site,
                right,
            } => {
                let operand = Box::into_inner(right);
                before.push(Link {
                    operator,
                    site,
                    operand,
                })?;
                Ok((first, before))
            }
            other => Ok((Box::new(alloc, other)?, Vec::new(alloc))),
        }
    }

    /// A suffix after an operand. Where that has suffixes itself, they are one more.
    pub fn suffixed(alloc: Global, left: Expression, last: Suffix) -> Result<Expression, NoMemory>
        ensures { IfOk result (λ e. (all : List Lexeme) → expression_tree all e ≡ suffixed (expression_tree all left) (suffix_tree all last)) }
    {
        let (first, before) = left.into_suffixes(alloc)?;
        Ok(Expression::Postfix {
            first,
            before,
            last,
        })
    }

    // A first operand and the suffixes after it.
    fn into_suffixes(self, alloc: Global) -> Result<(Box<Expression>, Vec<Suffix>), NoMemory>
        ensures { IfOk result (λ x. (all : List Lexeme) → all_suffixed (expression_tree all x.0.value) (map (suffix_tree all) x.1.items) ≡ expression_tree all self) }
    {
        match self {
            Expression::Postfix {
                first,
                mut before,
                last,
            } => {
                before.push(last)?;
                Ok((first, before))
            }
            other => Ok((Box::new(alloc, other)?, Vec::new(alloc))),
        }
    }

    /// Whether it is a unary expression: no cast, and no operator between operands.
    pub fn is_unary(&self) -> bool
        ensures { (all : List Lexeme) → result ≡ is_unary (expression_tree all self.now) }
    {
        match self {
            Expression::Cast { .. }
            | Expression::Binary { .. }
            | Expression::Choice { .. }
            | Expression::ChoiceOr { .. }
            | Expression::Assign { .. } => false,
            _ => true,
        }
    }
}

impl Drop for Link {
    #[cycle(letting_expressions_go)]
    fn drop(self) {
        let Link {
            operator: _,
            site: _,
            operand: _,
        } = self;
    }
}

impl Drop for Suffix {
    #[cycle(letting_expressions_go)]
    fn drop(self) {
        match self {
            Suffix::Index { site: _, index: _ }
            | Suffix::Call {
                site: _,
                arguments: _,
            }
            | Suffix::Member { site: _, name: _ }
            | Suffix::PointerMember { site: _, name: _ }
            | Suffix::Step { step: _, site: _ } => {}
        }
    }
}

impl Drop for Expression {
    #[cycle(letting_expressions_go)]
    fn drop(self) {
        match self {
            Expression::Name { name: _, site: _ }
            | Expression::Constant { value: _, site: _ }
            | Expression::String { site: _ }
            | Expression::Parenthesised { site: _, inner: _ }
            | Expression::Statement { site: _, body: _ }
            | Expression::Literal {
                site: _,
                type_name: _,
                values: _,
            }
            | Expression::Form {
                word: _,
                site: _,
                arguments: _,
            }
            | Expression::Postfix {
                first: _,
                before: _,
                last: _,
            }
            | Expression::Prefixed {
                operator: _,
                site: _,
                operand: _,
            }
            | Expression::Label { name: _, site: _ }
            | Expression::Measure {
                measure: _,
                site: _,
                operand: _,
            }
            | Expression::MeasureType {
                measure: _,
                site: _,
                type_name: _,
            }
            | Expression::Cast {
                site: _,
                type_name: _,
                operand: _,
            }
            | Expression::Binary {
                first: _,
                before: _,
                operator: _,
                site: _,
                right: _,
            }
            | Expression::Choice {
                site: _,
                condition: _,
                chosen: _,
                otherwise: _,
            }
            | Expression::ChoiceOr {
                site: _,
                condition: _,
                otherwise: _,
            }
            | Expression::Assign {
                operator: _,
                site: _,
                left: _,
                right: _,
            } => {}
        }
    }
}

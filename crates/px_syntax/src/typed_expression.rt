ghost use Rattle.std.specs.Prelude.{◌≡◌, map, IfOk};
ghost use Rattle.px_syntax.specs.TypedTree as T;
ghost use Rattle.px_syntax.specs.TypedViews.{typed_expression, typed_condition, arithmetic_link, relation_link, calculated, compared, all_of, any_of};

use px_base::{FieldId, ProcId, Site};
use px_terms::{NoMemory, TypeId, ValueType};
use std::alloc::Global;

/// An operator of two ints that gives an int (C17 6.5.5, 6.5.6).
#[derive(Clone, Copy, Debug, PartialEq, Eq)]
pub enum Arithmetic {
    Add,
    Subtract,
    Multiply,
    /// The site is the operator's token, where a division by zero is an error.
    Divide { site: Site },
    /// What the quotient leaves of the first. The site is the operator's token, as that of a division.
    Remainder { site: Site },
}

/// A comparison (C17 6.5.8, 6.5.9). The first six compare ints, the last two pointers.
#[derive(Clone, Copy, Debug, PartialEq, Eq)]
pub enum Relation {
    Equal,
    Unequal,
    Less,
    Greater,
    AtMost,
    AtLeast,
    SamePlace,
    OtherPlace,
}

/// An arithmetic operator and the operand after it.
#[cycle(typed)]
#[derive(Drop)]
pub struct ArithmeticLink {
    pub operator: Arithmetic,
    pub operand: TypedExpression,
}

/// A comparison and the operand after it. The site is the operator's token.
#[cycle(typed)]
#[derive(Drop)]
pub struct RelationLink {
    pub relation: Relation,
    pub operand: TypedExpression,
    pub site: Site,
}

/// The cell that `*` or `->` names, at the operator's token: the field of a block of this type. The field of a
/// `*` is 0.
#[derive(Clone, Copy)]
pub struct CellLink {
    pub field: FieldId,
    pub block: TypeId,
    pub site: Site,
}

/// An expression whose names are resolved and whose types agree (C17 6.5).
///
/// Locals are numbered in the order of their declarations, the parameters first. A constant 0 that stands
/// for a pointer is `Null`. What associates to the left is a list, as in a source's expression.
#[cycle(typed)]
#[derive(Drop)]
pub enum TypedExpression {
    Constant {
        value: i32,
    },
    Null,
    /// The value of a local. The site is its token.
    Local {
        local: u32,
        site: Site,
    },
    /// Minus the operand.
    Negate {
        operand: Box<TypedExpression>,
    },
    /// An operator and its right operand. Its left operand is a first one with the links of a chain after it,
    /// often none.
    Arithmetic {
        first: Box<TypedExpression>,
        before: Vec<ArithmeticLink>,
        operator: Arithmetic,
        right: Box<TypedExpression>,
    },
    /// 1 or 0, by the outcome of a condition: the value of a comparison, `&&`, `||` or `!`.
    Truth {
        condition: Box<Condition>,
    },
    /// The cell that `*` or `->` names, as a `CellLink`. Its pointer has the cells of a chain after it, often
    /// none.
    Cell {
        pointer: Box<TypedExpression>,
        before: Vec<CellLink>,
        field: FieldId,
        block: TypeId,
        site: Site,
    },
    /// `malloc ( sizeof ( .. ) )` of this type, at the word `malloc`.
    Allocate {
        block: TypeId,
        site: Site,
    },
    /// `getchar ( )`, at that word.
    GetChar {
        site: Site,
    },
    /// The value of a call, and its type. The site is the called word.
    Call {
        proc: ProcId,
        arguments: Vec<Argument>,
        result: ValueType,
        site: Site,
    },
    /// What isn't understood, in the place of an expression of any type: its parts are evaluated in order, for their
    /// effects, and no execution goes on behind them. The word is a number into the program's list of words.
    Stop {
        word: u32,
        site: Site,
        parts: Vec<TypedExpression>,
    },
}

/// An argument of a call. Arguments are evaluated in order, whatever is passed of them.
#[cycle(typed)]
#[derive(Drop)]
pub enum Argument {
    /// The value of the next parameter.
    Passed { value: TypedExpression },
    /// The argument of a parameter that the procedure doesn't have, since it is of no type that is understood. Its parts are
    /// evaluated in order, for their effects, and nothing is passed.
    Erased { parts: Vec<TypedExpression> },
}

/// What is true or false: each condition of a statement, and what `&&`, `||`, `!` and comparisons give.
#[cycle(typed)]
#[derive(Drop)]
pub enum Condition {
    /// A comparison at the operator's token. What is to its left is a first operand with the links of a chain
    /// after it, often none: the next of them compares 1 or 0, by the outcome of those before it.
    Compare {
        first: Box<TypedExpression>,
        before: Vec<RelationLink>,
        relation: Relation,
        right: Box<TypedExpression>,
        site: Site,
    },
    /// An int that isn't 0. The site is that of the expression.
    Word {
        operand: Box<TypedExpression>,
        site: Site,
    },
    /// A pointer that isn't null. The site is that of the expression.
    Pointer {
        operand: Box<TypedExpression>,
        site: Site,
    },
    /// `&&` from left to right.
    And {
        first: Box<Condition>,
        before: Vec<Condition>,
        right: Box<Condition>,
    },
    /// `||` from left to right.
    Or {
        first: Box<Condition>,
        before: Vec<Condition>,
        right: Box<Condition>,
    },
    Not {
        condition: Box<Condition>,
    },
}

impl TypedExpression {
    /// An operator between two operands. Where the left one is such an expression itself, its chain grows.
    pub fn arithmetic(
        alloc: Global,
        operator: Arithmetic,
        left: TypedExpression,
        right: TypedExpression,
    ) -> Result<TypedExpression, NoMemory>
        ensures { IfOk result (λ e. typed_expression e ≡ T.arithmetic operator (typed_expression left) (typed_expression right)) }
    {
        let (first, before) = left.into_arithmetic(alloc)?;
        Ok(TypedExpression::Arithmetic {
            first,
            before,
            operator,
            right: Box::new(alloc, right)?,
        })
    }

    // A first operand and the links after it.
    fn into_arithmetic(
        self,
        alloc: Global,
    ) -> Result<(Box<TypedExpression>, Vec<ArithmeticLink>), NoMemory>
        ensures { IfOk result (λ x. calculated (typed_expression x.0.value) (map arithmetic_link x.1.items) ≡ typed_expression self) }
    {
        match self {
            TypedExpression::Arithmetic {
                first,
                mut before,
                operator,
                right,
            } => {
                let operand = Box::into_inner(right);
                before.push(ArithmeticLink { operator, operand })?;
                Ok((first, before))
            }
            other => Ok((Box::new(alloc, other)?, Vec::new(alloc))),
        }
    }

    /// The cell that a pointer names. Where the pointer is such an expression itself, its chain grows.
    #[tactic(auto, using(crate::proofs::TypedChains::cell_chains))]
    pub fn cell(
        alloc: Global,
        pointer: TypedExpression,
        link: CellLink,
    ) -> Result<TypedExpression, NoMemory>
        ensures { IfOk result (λ e. typed_expression e ≡ T.cell (typed_expression pointer) link.field link.block link.site) }
    {
        let (pointer, before) = match pointer {
            TypedExpression::Cell {
                pointer,
                mut before,
                field,
                block,
                site,
            } => {
                before.push(CellLink { field, block, site })?;
                (pointer, before)
            }
            other => (Box::new(alloc, other)?, Vec::new(alloc)),
        };
        Ok(TypedExpression::Cell {
            pointer,
            before,
            field: link.field,
            block: link.block,
            site: link.site,
        })
    }

    // A first operand and the comparisons after it.
    fn into_comparisons(
        self,
        alloc: Global,
    ) -> Result<(Box<TypedExpression>, Vec<RelationLink>), NoMemory>
        ensures { IfOk result (λ x. compared (typed_expression x.0.value) (map relation_link x.1.items) ≡ typed_expression self) }
    {
        match self {
            TypedExpression::Truth { condition } => {
                Box::into_inner(condition).into_comparisons(alloc)
            }
            other => Ok((Box::new(alloc, other)?, Vec::new(alloc))),
        }
    }
}

impl Condition {
    /// A comparison of two operands. Where the left one is the outcome of a comparison, its chain grows.
    pub fn compare(
        alloc: Global,
        relation: Relation,
        left: TypedExpression,
        right: TypedExpression,
        site: Site,
    ) -> Result<Condition, NoMemory>
        ensures { IfOk result (λ c. typed_condition c ≡ T.compare relation (typed_expression left) (typed_expression right) site) }
    {
        let (first, before) = left.into_comparisons(alloc)?;
        Ok(Condition::Compare {
            first,
            before,
            relation,
            right: Box::new(alloc, right)?,
            site,
        })
    }

    // A first operand and the comparisons after it, the outcome of which is that of the condition.
    fn into_comparisons(
        self,
        alloc: Global,
    ) -> Result<(Box<TypedExpression>, Vec<RelationLink>), NoMemory>
        ensures { IfOk result (λ x. compared (typed_expression x.0.value) (map relation_link x.1.items) ≡ T.truth (typed_condition self)) }
    {
        match self {
            Condition::Compare {
                first,
                mut before,
                relation,
                right,
                site,
            } => {
                let operand = Box::into_inner(right);
                before.push(RelationLink {
                    relation,
                    operand,
                    site,
                })?;
                Ok((first, before))
            }
            other => {
                let condition = Box::new(alloc, other)?;
                let first = Box::new(alloc, TypedExpression::Truth { condition })?;
                Ok((first, Vec::new(alloc)))
            }
        }
    }

    /// `left && right`. Where the left one is such a condition itself, its chain grows.
    pub fn both(alloc: Global, left: Condition, right: Condition) -> Result<Condition, NoMemory>
        ensures { IfOk result (λ c. typed_condition c ≡ T.both (typed_condition left) (typed_condition right)) }
    {
        let (first, before) = left.into_ands(alloc)?;
        Ok(Condition::And {
            first,
            before,
            right: Box::new(alloc, right)?,
        })
    }

    // A first condition and those after it.
    fn into_ands(self, alloc: Global) -> Result<(Box<Condition>, Vec<Condition>), NoMemory>
        ensures { IfOk result (λ x. all_of (typed_condition x.0.value) (map typed_condition x.1.items) ≡ typed_condition self) }
    {
        match self {
            Condition::And {
                first,
                mut before,
                right,
            } => {
                before.push(Box::into_inner(right))?;
                Ok((first, before))
            }
            other => Ok((Box::new(alloc, other)?, Vec::new(alloc))),
        }
    }

    /// `left || right`. Where the left one is such a condition itself, its chain grows.
    pub fn either(alloc: Global, left: Condition, right: Condition) -> Result<Condition, NoMemory>
        ensures { IfOk result (λ c. typed_condition c ≡ T.either (typed_condition left) (typed_condition right)) }
    {
        let (first, before) = left.into_ors(alloc)?;
        Ok(Condition::Or {
            first,
            before,
            right: Box::new(alloc, right)?,
        })
    }

    // A first condition and those after it.
    fn into_ors(self, alloc: Global) -> Result<(Box<Condition>, Vec<Condition>), NoMemory>
        ensures { IfOk result (λ x. any_of (typed_condition x.0.value) (map typed_condition x.1.items) ≡ typed_condition self) }
    {
        match self {
            Condition::Or {
                first,
                mut before,
                right,
            } => {
                before.push(Box::into_inner(right))?;
                Ok((first, before))
            }
            other => Ok((Box::new(alloc, other)?, Vec::new(alloc))),
        }
    }
}

//! The trees of C: those of a source, item by item, as the grammar gives them, and those of a program, in which names
//! are resolved and types agree. They are plain data to contracts, and equal data exactly where the trees are equal.
//!
//! `specs/` sees each tree as plain data, in which a list of children is a list and nothing else, so
//! that equal trees are equal data: `expression_tree`, `statement_tree` and `item_tree` of a source;
//! `typed_expression`, `typed_condition`, `typed_statement` and `program_tree` of a program.
#![tactic(auto)]

mod expression;
mod item;
mod name;
mod program;
mod statement;
mod type_name;
mod typed_expression;
mod typed_statement;

pub use expression::{Arrow, BinaryOperator, Expression, Link, MallocTypes, UnaryOperator};
pub use item::{FieldDeclaration, Item, Parameter, ResultType};
pub use name::Name;
pub use program::{Left, ParsedFile, ParsedItem, Procedure, Program, TypedBody};
pub use statement::{
    Declaration, FirstClause, ForHead, InitDeclarator, Sides, SimpleStatement, Statement,
};
pub use type_name::{Base, Declarator, TypeName};
pub use typed_expression::{
    Argument, Arithmetic, ArithmeticLink, CellLink, Condition, Relation, RelationLink,
    TypedExpression,
};
pub use typed_statement::{Place, TypedStatement};

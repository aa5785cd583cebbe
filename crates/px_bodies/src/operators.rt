ghost use Rattle.std.specs.Prelude.{◌≡◌, Some};
ghost use Rattle.px_syntax.specs.TypedTree as T;
ghost use Rattle.px_syntax.specs.TypedViews.{typed_expression};
ghost use Rattle.px_bodies.specs.Environment.{environment_of};
ghost use Rattle.px_bodies.specs.Lent.{type_of};
ghost use Rattle.px_bodies.specs.Typed as rules;
ghost use Rattle.px_bodies.specs.Expressions.{typed_unary, typed_binary};
ghost use Rattle.px_bodies.specs.Operands.{operand_seen};
ghost use Rattle.px_bodies.specs.Outcomes.{Yields};

use crate::operand::Operand;
use crate::refusal::Refusal;
use crate::{CType, Environment};
use px_base::{FieldId, Site};
use px_syntax::{
    Arithmetic, BinaryOperator, CellLink, Condition, Name, Relation, TypeName, TypedExpression,
    UnaryOperator,
};
use std::alloc::Global;

// A decimal constant.
pub fn constant<'a>(value: u32) -> Result<Operand<'a>, Refusal>
    ensures { Yields operand_seen result (rules.typed_constant value) }
{
    if value == 0 {
        return Ok(Operand::Zero);
    }
    match i32::try_from(value) {
        Ok(value) => Ok(Operand::OfType(CType::int(), TypedExpression::Constant { value })),
        Err(_) => Err(Refusal::Rule),
    }
}

fn minus<'a>(alloc: Global, operand: Operand<'a>) -> Result<Operand<'a>, Refusal>
    ensures { Yields operand_seen result (rules.typed_minus (operand_seen operand.entry)) }
{
    let operand = operand.as_type(alloc, CType::int())?;
    let operand = Box::new(alloc, operand)?;
    Ok(Operand::OfType(CType::int(), TypedExpression::Negate { operand }))
}

fn arithmetic<'a>(
    alloc: Global,
    operator: Arithmetic,
    left: Operand<'a>,
    right: Operand<'a>,
) -> Result<Operand<'a>, Refusal>
    ensures { Yields operand_seen result (rules.typed_arithmetic operator (operand_seen left.entry) (operand_seen right.entry)) }
{
    let left = left.as_type(alloc, CType::int())?;
    let right = right.as_type(alloc, CType::int())?;
    let value = TypedExpression::arithmetic(alloc, operator, left, right)?;
    Ok(Operand::OfType(CType::int(), value))
}

fn compared<'a>(
    alloc: Global,
    relation: Relation,
    site: Site,
    left: TypedExpression,
    right: TypedExpression,
) -> Result<Operand<'a>, Refusal>
    ensures { Yields operand_seen result (Some (rules.a_test (T.compare relation (typed_expression left) (typed_expression right) site))) }
{
    let condition = Condition::compare(alloc, relation, left, right, site)?;
    Ok(Operand::Test(condition))
}

fn order<'a>(
    alloc: Global,
    relation: Relation,
    site: Site,
    left: Operand<'a>,
    right: Operand<'a>,
) -> Result<Operand<'a>, Refusal>
    ensures { Yields operand_seen result (rules.typed_order relation site (operand_seen left.entry) (operand_seen right.entry)) }
{
    let left = left.as_type(alloc, CType::int())?;
    let right = right.as_type(alloc, CType::int())?;
    compared(alloc, relation, site, left, right)
}

// `==` and `!=`: the relation of ints, and that of places.
fn equality<'a>(
    alloc: Global,
    of_ints: Relation,
    of_places: Relation,
    site: Site,
    left: Operand<'a>,
    right: Operand<'a>,
) -> Result<Operand<'a>, Refusal>
    ensures { Yields operand_seen result (rules.typed_equality of_ints of_places site (operand_seen left.entry) (operand_seen right.entry)) }
{
    let common = left.common_type(&right)?;
    let left = left.as_type(alloc, common)?;
    let right = right.as_type(alloc, common)?;
    let relation = if common.is_pointer() {
        of_places
    } else {
        of_ints
    };
    compared(alloc, relation, site, left, right)
}

// The cell of a type that a pointer to a block names.
fn cell<'a>(
    alloc: Global,
    environment: &Environment<'a>,
    block: CType<'a>,
    field: u32,
    value: CType<'a>,
    site: Site,
    pointer: TypedExpression,
) -> Result<Operand<'a>, Refusal>
    ensures { Yields operand_seen result (rules.typed_cell (environment_of environment.now) (type_of block.entry) field (type_of value.entry) site (typed_expression pointer)) }
{
    if !value.is_value() {
        return Err(Refusal::Rule);
    }
    let link = CellLink {
        field: FieldId(field),
        block: environment.type_id(block),
        site,
    };
    let cell = TypedExpression::cell(alloc, pointer, link)?;
    Ok(Operand::OfType(value, cell))
}

fn indirection<'a>(
    alloc: Global,
    environment: &Environment<'a>,
    site: Site,
    operand: Operand<'a>,
) -> Result<Operand<'a>, Refusal>
    ensures { Yields operand_seen result (rules.typed_indirection (environment_of environment.now) site (operand_seen operand.entry)) }
{
    let Operand::OfType(own, pointer) = operand else {
        return Err(Refusal::Rule);
    };
    let Some(value) = own.pointee() else {
        return Err(Refusal::Rule);
    };
    cell(alloc, environment, value, 0, value, site, pointer)
}

// `->`.
pub fn arrow<'a>(
    alloc: Global,
    environment: &Environment<'a>,
    name: &Name,
    site: Site,
    operand: Operand<'a>,
) -> Result<Operand<'a>, Refusal>
    ensures { Yields operand_seen result (rules.typed_arrow (environment_of environment.now) name.now site (operand_seen operand.entry)) }
{
    let Operand::OfType(own, pointer) = operand else {
        return Err(Refusal::Rule);
    };
    let Some(block) = own.pointee() else {
        return Err(Refusal::Rule);
    };
    let field = environment.field(block, name)?;
    cell(
        alloc,
        environment,
        block,
        field.number,
        field.value,
        site,
        pointer,
    )
}

// A cast is to this type.
fn is_cast_to<'a>(pointer: CType<'a>, cast: &'a Option<TypeName>) -> bool
    ensures { result ≡ rules.is_cast_to (type_of pointer.entry) cast.now }
{
    match cast {
        Some(cast) => CType::of(cast).is_same(pointer),
        None => true,
    }
}

// `malloc ( sizeof ( size ) )`, after a cast.
pub fn malloc<'a>(
    environment: &Environment<'a>,
    cast: &'a Option<TypeName>,
    site: Site,
    size: &'a TypeName,
) -> Result<Operand<'a>, Refusal>
    ensures { Yields operand_seen result (rules.typed_malloc (environment_of environment.now) cast.now site size.now) }
{
    let size = CType::of(size);
    let pointer = size.pointer()?;
    if !environment.is_block(size) || !is_cast_to(pointer, cast) {
        return Err(Refusal::Rule);
    }
    let block = environment.type_id(size);
    Ok(Operand::OfType(pointer, TypedExpression::Allocate { block, site }))
}

// An operator before an operand, which stands at the second site.
pub fn unary<'a>(
    alloc: Global,
    environment: &Environment<'a>,
    operator: UnaryOperator,
    site: Site,
    at: Site,
    operand: Operand<'a>,
) -> Result<Operand<'a>, Refusal>
    ensures { Yields operand_seen result (typed_unary (environment_of environment.now) operator site at (operand_seen operand.entry)) }
{
    match operator {
        UnaryOperator::Minus => minus(alloc, operand),
        UnaryOperator::Not => {
            let condition = operand.as_condition(alloc, at)?;
            let condition = Box::new(alloc, condition)?;
            Ok(Operand::Test(Condition::Not { condition }))
        }
        UnaryOperator::Indirection => indirection(alloc, environment, site, operand),
    }
}

// Where an operator and its operands stand.
#[derive(Clone, Copy)]
pub struct Sites {
    pub operator: Site,
    pub left: Site,
    pub right: Site,
}

fn both<'a>(
    alloc: Global,
    sites: Sites,
    left: Operand<'a>,
    right: Operand<'a>,
) -> Result<Operand<'a>, Refusal>
    ensures { Yields operand_seen result (Some (rules.a_test (T.both (rules.as_condition sites.left (operand_seen left.entry)) (rules.as_condition sites.right (operand_seen right.entry))))) }
{
    let left = left.as_condition(alloc, sites.left)?;
    let right = right.as_condition(alloc, sites.right)?;
    let condition = Condition::both(alloc, left, right)?;
    Ok(Operand::Test(condition))
}

fn either<'a>(
    alloc: Global,
    sites: Sites,
    left: Operand<'a>,
    right: Operand<'a>,
) -> Result<Operand<'a>, Refusal>
    ensures { Yields operand_seen result (Some (rules.a_test (T.either (rules.as_condition sites.left (operand_seen left.entry)) (rules.as_condition sites.right (operand_seen right.entry))))) }
{
    let left = left.as_condition(alloc, sites.left)?;
    let right = right.as_condition(alloc, sites.right)?;
    let condition = Condition::either(alloc, left, right)?;
    Ok(Operand::Test(condition))
}

// An operator between operands.
pub fn binary<'a>(
    alloc: Global,
    operator: BinaryOperator,
    sites: Sites,
    left: Operand<'a>,
    right: Operand<'a>,
) -> Result<Operand<'a>, Refusal>
    ensures { Yields operand_seen result (typed_binary operator sites.operator sites.left sites.right (operand_seen left.entry) (operand_seen right.entry)) }
{
    let site = sites.operator;
    match operator {
        BinaryOperator::Multiply => arithmetic(alloc, Arithmetic::Multiply, left, right),
        BinaryOperator::Add => arithmetic(alloc, Arithmetic::Add, left, right),
        BinaryOperator::Subtract => arithmetic(alloc, Arithmetic::Subtract, left, right),
        BinaryOperator::Less => order(alloc, Relation::Less, site, left, right),
        BinaryOperator::LessEqual => order(alloc, Relation::AtMost, site, left, right),
        BinaryOperator::Greater => order(alloc, Relation::Greater, site, left, right),
        BinaryOperator::GreaterEqual => order(alloc, Relation::AtLeast, site, left, right),
        BinaryOperator::Equal => {
            equality(
                alloc,
                Relation::Equal,
                Relation::SamePlace,
                site,
                left,
                right,
            )
        }
        BinaryOperator::NotEqual => {
            equality(
                alloc,
                Relation::Unequal,
                Relation::OtherPlace,
                site,
                left,
                right,
            )
        }
        BinaryOperator::And => both(alloc, sites, left, right),
        BinaryOperator::Or => either(alloc, sites, left, right),
        BinaryOperator::Divide => arithmetic(alloc, Arithmetic::Divide { site }, left, right),
        BinaryOperator::Remainder => {
            arithmetic(alloc, Arithmetic::Remainder { site }, left, right)
        }
    }
}

ghost use Rattle.std.specs.Prelude.{◌≡◌, ◌++◌, ◌&&◌, [], map, is_some, codes, IfOk, if◌then◌else◌};
ghost use Rattle.px_syntax.specs.TypedTree as T;
ghost use Rattle.px_syntax.specs.TypedViews.{typed_expression, typed_condition};
ghost use Rattle.px_real_values.specs.Operators as Rules;
ghost use Rattle.px_real_values.specs.Operands as Operands;
ghost use Rattle.px_real_types.specs.Types as Types;
ghost use Rattle.px_real_values.specs.Views.{operand_seen};

use crate::environment::Environment;
use crate::members::indirected;
use crate::operand::{Operand, Turn, put_all};
use crate::types::{int, is_pointer, unknown};
use crate::words::operator_text;
use px_base::Site;
use px_real_expressions::{Operator, Prefix};
use px_real_types::{Base, ProfileType};
use px_syntax::{Arithmetic, Condition, Relation, TypedExpression};
use px_terms::NoMemory;
use std::alloc::Global;

// Outside with these parts.
pub fn outside_of<'a, E: Environment>(
    environment: &E,
    text: &[u8],
    site: Site,
    parts: Vec<TypedExpression>,
) -> Operand<'a>
    ensures { operand_seen result ≡ Rules.outside_of (E.sees environment.now) text.now site (map typed_expression parts.items) }
{
    Operand::Outside {
        known: unknown(),
        parts,
        word: environment.word_number(text),
        site,
    }
}

// A `Stop` behind these parts.
pub fn stopped_at<'a, E: Environment>(
    environment: &E,
    text: &[u8],
    site: Site,
    parts: Vec<TypedExpression>,
) -> Operand<'a>
    ensures { operand_seen result ≡ Rules.stopped_at (E.sees environment.now) text.now site (map typed_expression parts.items) }
{
    Operand::Stopped {
        parts,
        word: environment.word_number(text),
        site,
    }
}

// The parts of both operands, in order.
fn both_parts<'a, E: Environment>(
    alloc: Global,
    environment: &E,
    left: Operand<'a>,
    right: Operand<'a>,
) -> Result<Vec<TypedExpression>, NoMemory>
    ensures { IfOk result (λ v. map typed_expression v.items ≡ Operands.parts (E.sees environment.now) (operand_seen left.entry) ++ Operands.parts (E.sees environment.now) (operand_seen right.entry)) }
{
    let mut parts = left.parts(alloc, environment)?;
    let more = right.parts(alloc, environment)?;
    put_all(&mut parts, more)?;
    Ok(parts)
}

// Whether both operands are values of this type.
fn are_typed<'a, E: Environment>(
    environment: &E,
    wanted: ProfileType,
    left: &Operand<'a>,
    right: &Operand<'a>,
) -> bool
    ensures { result ≡ (is_some (Operands.typed_as (E.sees environment.now) wanted (operand_seen left.now)) && is_some (Operands.typed_as (E.sees environment.now) wanted (operand_seen right.now))) }
{
    left.is_typed(environment, wanted) && right.is_typed(environment, wanted)
}

// The value of an operator between two ints.
fn arithmetic<'a, E: Environment>(
    alloc: Global,
    environment: &E,
    operation: Arithmetic,
    site: Site,
    left: Operand<'a>,
    right: Operand<'a>,
) -> Result<Operand<'a>, NoMemory>
    ensures { IfOk result (λ a. operand_seen a ≡ Operands.of_type Types.int site (T.arithmetic operation (Operands.needed (E.sees environment.now) site Types.int (operand_seen left.entry)) (Operands.needed (E.sees environment.now) site Types.int (operand_seen right.entry)))) }
{
    let left = left.needed(alloc, environment, site, int())?;
    let right = right.needed(alloc, environment, site, int())?;
    let value = TypedExpression::arithmetic(alloc, operation, left, right)?;
    Ok(Operand::OfType {
        kind: int(),
        site,
        value,
    })
}

// Of two ints a value; of other operands outside.
fn computed<'a, E: Environment>(
    alloc: Global,
    environment: &E,
    operation: Arithmetic,
    operator: Operator,
    site: Site,
    left: Operand<'a>,
    right: Operand<'a>,
) -> Result<Operand<'a>, NoMemory>
    ensures { IfOk result (λ a. operand_seen a ≡ Rules.computed (E.sees environment.now) operation operator site (operand_seen left.entry) (operand_seen right.entry)) }
{
    if are_typed(environment, int(), &left, &right) {
        return arithmetic(alloc, environment, operation, site, left, right);
    }
    outside_both(alloc, environment, operator, site, left, right)
}

// Of two ints a value; of other operands a `Stop`.
fn divided<'a, E: Environment>(
    alloc: Global,
    environment: &E,
    operation: Arithmetic,
    operator: Operator,
    site: Site,
    left: Operand<'a>,
    right: Operand<'a>,
) -> Result<Operand<'a>, NoMemory>
    ensures { IfOk result (λ a. operand_seen a ≡ Rules.divided (E.sees environment.now) operation operator site (operand_seen left.entry) (operand_seen right.entry)) }
{
    if are_typed(environment, int(), &left, &right) {
        return arithmetic(alloc, environment, operation, site, left, right);
    }
    stopped_both(alloc, environment, operator, site, left, right)
}

// The comparison of two values of a type.
fn comparison<'a, E: Environment>(
    alloc: Global,
    environment: &E,
    kind: ProfileType,
    relation: Relation,
    site: Site,
    left: Operand<'a>,
    right: Operand<'a>,
) -> Result<Operand<'a>, NoMemory>
    ensures { IfOk result (λ a. operand_seen a ≡ Operands.a_test (T.compare relation (Operands.needed (E.sees environment.now) site kind (operand_seen left.entry)) (Operands.needed (E.sees environment.now) site kind (operand_seen right.entry)) site)) }
{
    let left = left.needed(alloc, environment, site, kind)?;
    let right = right.needed(alloc, environment, site, kind)?;
    let condition = Condition::compare(alloc, relation, left, right, site)?;
    Ok(Operand::Test { condition })
}

// Two values of a type are compared; other operands are outside.
fn compared<'a, E: Environment>(
    alloc: Global,
    environment: &E,
    kind: ProfileType,
    relation: Relation,
    operator: Operator,
    site: Site,
    left: Operand<'a>,
    right: Operand<'a>,
) -> Result<Operand<'a>, NoMemory>
    ensures { IfOk result (λ a. operand_seen a ≡ Rules.compared (E.sees environment.now) kind relation operator site (operand_seen left.entry) (operand_seen right.entry)) }
{
    if are_typed(environment, kind, &left, &right) {
        return comparison(alloc, environment, kind, relation, site, left, right);
    }
    outside_both(alloc, environment, operator, site, left, right)
}

fn own_type<'a>(operand: &Operand<'a>) -> Option<ProfileType>
    ensures { result ≡ Rules.own_type (operand_seen operand.now) }
{
    match operand {
        Operand::OfType { kind, .. } => Some(*kind),
        _ => None,
    }
}

fn is_null<'a>(operand: &Operand<'a>) -> bool
    ensures { result ≡ Rules.is_null (operand_seen operand.now) }
{
    match operand {
        Operand::Null { .. } => true,
        _ => false,
    }
}

// The type at which `==` and `!=` compare.
fn common_type<'a>(left: &Operand<'a>, right: &Operand<'a>) -> ProfileType
    ensures { result ≡ Rules.common_type (operand_seen left.now) (operand_seen right.now) }
{
    if let Some(kind) = own_type(left) {
        return kind;
    }
    if let Some(kind) = own_type(right) {
        return kind;
    }
    if is_null(left) || is_null(right) {
        ProfileType {
            base: Base::Int,
            stars: 1,
        }
    } else {
        int()
    }
}

// `==` and `!=`: the relation of ints, and that of places.
fn equated<'a, E: Environment>(
    alloc: Global,
    environment: &E,
    of_ints: Relation,
    of_places: Relation,
    operator: Operator,
    site: Site,
    left: Operand<'a>,
    right: Operand<'a>,
) -> Result<Operand<'a>, NoMemory>
    ensures { IfOk result (λ a. operand_seen a ≡ Rules.equated (E.sees environment.now) of_ints of_places operator site (operand_seen left.entry) (operand_seen right.entry)) }
{
    let kind = common_type(&left, &right);
    let relation = relation_at(kind, of_ints, of_places);
    compared(
        alloc,
        environment,
        kind,
        relation,
        operator,
        site,
        left,
        right,
    )
}

// The relation at a type.
fn relation_at(kind: ProfileType, of_ints: Relation, of_places: Relation) -> Relation
    ensures { result ≡ (if Types.is_pointer kind then of_places else of_ints) }
{
    if is_pointer(kind) { of_places } else { of_ints }
}

// `&&`.
fn both<'a, E: Environment>(
    alloc: Global,
    environment: &E,
    left: Operand<'a>,
    right: Operand<'a>,
) -> Result<Operand<'a>, NoMemory>
    ensures { IfOk result (λ a. operand_seen a ≡ Operands.a_test (T.both (Operands.deciding (E.sees environment.now) (operand_seen left.entry)) (Operands.deciding (E.sees environment.now) (operand_seen right.entry)))) }
{
    let left = left.deciding(alloc, environment)?;
    let right = right.deciding(alloc, environment)?;
    let condition = Condition::both(alloc, left, right)?;
    Ok(Operand::Test { condition })
}

// `||`.
fn either<'a, E: Environment>(
    alloc: Global,
    environment: &E,
    left: Operand<'a>,
    right: Operand<'a>,
) -> Result<Operand<'a>, NoMemory>
    ensures { IfOk result (λ a. operand_seen a ≡ Operands.a_test (T.either (Operands.deciding (E.sees environment.now) (operand_seen left.entry)) (Operands.deciding (E.sees environment.now) (operand_seen right.entry)))) }
{
    let left = left.deciding(alloc, environment)?;
    let right = right.deciding(alloc, environment)?;
    let condition = Condition::either(alloc, left, right)?;
    Ok(Operand::Test { condition })
}

// An operator that the profile doesn't have, which is outside.
fn outside_both<'a, E: Environment>(
    alloc: Global,
    environment: &E,
    operator: Operator,
    site: Site,
    left: Operand<'a>,
    right: Operand<'a>,
) -> Result<Operand<'a>, NoMemory>
    ensures { IfOk result (λ a. operand_seen a ≡ Rules.outside_of (E.sees environment.now) (Rules.operator_text operator) site (Operands.parts (E.sees environment.now) (operand_seen left.entry) ++ Operands.parts (E.sees environment.now) (operand_seen right.entry))) }
{
    let parts = both_parts(alloc, environment, left, right)?;
    Ok(outside_of(environment, operator_text(operator), site, parts))
}

// An operator that the profile doesn't have, which is a `Stop`.
fn stopped_both<'a, E: Environment>(
    alloc: Global,
    environment: &E,
    operator: Operator,
    site: Site,
    left: Operand<'a>,
    right: Operand<'a>,
) -> Result<Operand<'a>, NoMemory>
    ensures { IfOk result (λ a. operand_seen a ≡ Rules.stopped_at (E.sees environment.now) (Rules.operator_text operator) site (Operands.parts (E.sees environment.now) (operand_seen left.entry) ++ Operands.parts (E.sees environment.now) (operand_seen right.entry))) }
{
    let parts = both_parts(alloc, environment, left, right)?;
    Ok(stopped_at(environment, operator_text(operator), site, parts))
}

// An operator between operands, of which the first is no `Stop`.
pub fn binary<'a, E: Environment>(
    alloc: Global,
    environment: &E,
    operator: Operator,
    site: Site,
    left: Operand<'a>,
    right: Operand<'a>,
) -> Result<Operand<'a>, NoMemory>
    ensures { IfOk result (λ a. operand_seen a ≡ Rules.valued_binary (E.sees environment.now) operator site (operand_seen left.entry) (operand_seen right.entry)) }
{
    match operator {
        Operator::Multiply => computed(
            alloc,
            environment,
            Arithmetic::Multiply,
            operator,
            site,
            left,
            right,
        ),
        Operator::Add => computed(
            alloc,
            environment,
            Arithmetic::Add,
            operator,
            site,
            left,
            right,
        ),
        Operator::Subtract => computed(
            alloc,
            environment,
            Arithmetic::Subtract,
            operator,
            site,
            left,
            right,
        ),
        Operator::Divide => divided(
            alloc,
            environment,
            Arithmetic::Divide { site },
            operator,
            site,
            left,
            right,
        ),
        Operator::Remainder => divided(
            alloc,
            environment,
            Arithmetic::Remainder { site },
            operator,
            site,
            left,
            right,
        ),
        Operator::Less => compared(
            alloc,
            environment,
            int(),
            Relation::Less,
            operator,
            site,
            left,
            right,
        ),
        Operator::Greater => compared(
            alloc,
            environment,
            int(),
            Relation::Greater,
            operator,
            site,
            left,
            right,
        ),
        Operator::LessEqual => compared(
            alloc,
            environment,
            int(),
            Relation::AtMost,
            operator,
            site,
            left,
            right,
        ),
        Operator::GreaterEqual => compared(
            alloc,
            environment,
            int(),
            Relation::AtLeast,
            operator,
            site,
            left,
            right,
        ),
        Operator::Equal => equated(
            alloc,
            environment,
            Relation::Equal,
            Relation::SamePlace,
            operator,
            site,
            left,
            right,
        ),
        Operator::NotEqual => equated(
            alloc,
            environment,
            Relation::Unequal,
            Relation::OtherPlace,
            operator,
            site,
            left,
            right,
        ),
        Operator::And => both(alloc, environment, left, right),
        Operator::Or => either(alloc, environment, left, right),
        Operator::Comma => {
            let parts = left.parts(alloc, environment)?;
            Ok(stopped_at(environment, b",".as_slice(), site, parts))
        }
        Operator::ShiftLeft | Operator::ShiftRight => stopped_both(
            alloc,
            environment,
            operator,
            site,
            left,
            right,
        ),
        Operator::BitAnd | Operator::BitXor | Operator::BitOr => outside_both(
            alloc,
            environment,
            operator,
            site,
            left,
            right,
        ),
    }
}

// `-` before an int.
fn negative<'a, E: Environment>(
    alloc: Global,
    environment: &E,
    site: Site,
    operand: Operand<'a>,
) -> Result<Operand<'a>, NoMemory>
    ensures { IfOk result (λ a. operand_seen a ≡ Operands.of_type Types.int site (T.negated (Operands.needed (E.sees environment.now) site Types.int (operand_seen operand.entry)))) }
{
    let operand = operand.needed(alloc, environment, site, int())?;
    let operand = Box::new(alloc, operand)?;
    Ok(Operand::OfType {
        kind: int(),
        site,
        value: TypedExpression::Negate { operand },
    })
}

// `-` before an operand.
fn negated<'a, E: Environment>(
    alloc: Global,
    environment: &E,
    site: Site,
    operand: Operand<'a>,
) -> Result<Operand<'a>, NoMemory>
    ensures { IfOk result (λ a. operand_seen a ≡ Rules.negated (E.sees environment.now) site (operand_seen operand.entry)) }
{
    if operand.is_typed(environment, int()) {
        return negative(alloc, environment, site, operand);
    }
    around(alloc, environment, b"-".as_slice(), site, operand)
}

// `!`, which takes any value.
fn opposed<'a, E: Environment>(
    alloc: Global,
    environment: &E,
    site: Site,
    operand: Operand<'a>,
) -> Result<Operand<'a>, NoMemory>
    ensures { IfOk result (λ a. operand_seen a ≡ Rules.opposed (E.sees environment.now) site (operand_seen operand.entry)) }
{
    match operand {
        Operand::Named { .. } | Operand::Member { .. } | Operand::Outside { .. } => {
            let parts = operand.parts(alloc, environment)?;
            Ok(outside_of(environment, b"!".as_slice(), site, parts))
        }
        Operand::Block { site: at, .. } => Ok(stopped_at(
            environment,
            b"malloc".as_slice(),
            at,
            Vec::new(alloc),
        )),
        other => {
            let condition = other.deciding(alloc, environment)?;
            let condition = Box::new(alloc, condition)?;
            Ok(Operand::Test {
                condition: Condition::Not { condition },
            })
        }
    }
}

// Outside with the parts of an operand.
fn around<'a, E: Environment>(
    alloc: Global,
    environment: &E,
    text: &[u8],
    site: Site,
    operand: Operand<'a>,
) -> Result<Operand<'a>, NoMemory>
    ensures { IfOk result (λ a. operand_seen a ≡ Rules.outside_of (E.sees environment.now) text.now site (Operands.parts (E.sees environment.now) (operand_seen operand.entry))) }
{
    let parts = operand.parts(alloc, environment)?;
    Ok(outside_of(environment, text, site, parts))
}

// An operator before an operand that takes its value.
fn taking<'a, E: Environment>(
    alloc: Global,
    environment: &E,
    operator: Prefix,
    site: Site,
    operand: Operand<'a>,
) -> Result<Operand<'a>, NoMemory>
    ensures { IfOk result (λ a. operand_seen a ≡ Rules.taking (E.sees environment.now) operator site (operand_seen operand.entry)) }
{
    match operator {
        Prefix::Indirection => indirected(alloc, environment, b"*".as_slice(), site, operand),
        Prefix::Minus => negated(alloc, environment, site, operand),
        Prefix::Not => opposed(alloc, environment, site, operand),
        Prefix::Plus => around(alloc, environment, b"+".as_slice(), site, operand),
        Prefix::Complement => around(alloc, environment, b"~".as_slice(), site, operand),
        Prefix::Real => around(alloc, environment, b"__real__".as_slice(), site, operand),
        Prefix::Imaginary => around(alloc, environment, b"__imag__".as_slice(), site, operand),
        _ => Ok(operand),
    }
}

// An operator before an operand.
pub fn prefixed<'a, E: Environment>(
    alloc: Global,
    environment: &E,
    operator: Prefix,
    site: Site,
    operand: Operand<'a>,
) -> Result<Operand<'a>, NoMemory>
    ensures { IfOk result (λ a. operand_seen a ≡ Rules.prefixed (E.sees environment.now) operator site (operand_seen operand.entry)) }
{
    match operator {
        Prefix::Address => {
            let parts = operand.pointer_parts(alloc, environment)?;
            Ok(outside_of(environment, b"&".as_slice(), site, parts))
        }
        Prefix::Increment => {
            let parts = operand.pointer_parts(alloc, environment)?;
            Ok(stopped_at(environment, b"++".as_slice(), site, parts))
        }
        Prefix::Decrement => {
            let parts = operand.pointer_parts(alloc, environment)?;
            Ok(stopped_at(environment, b"--".as_slice(), site, parts))
        }
        Prefix::Extension => Ok(operand),
        _ => match operand.turn(alloc)? {
            Turn::Stops(stopped) => Ok(stopped),
            Turn::GoesOn(operand) => taking(alloc, environment, operator, site, operand),
        },
    }
}

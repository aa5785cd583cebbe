ghost use Rattle.std.specs.Prelude.{◌≡◌, ◌++◌, ◌∷◌, [], map, pos, Some, IfOk, OnOk};
ghost use Rattle.px_syntax.specs.TypedTree as T;
ghost use Rattle.px_syntax.specs.TypedViews.{typed_expression, typed_place, typed_statement};
ghost use Rattle.px_real_types.specs.Types as Types;
ghost use Rattle.px_real_values.specs.Operands.{stop, needed, parts};
ghost use Rattle.px_real_values.specs.Operators.{assignment_text, step_text};
ghost use Rattle.px_real_values.specs.Views.{operand_seen};
ghost use Rattle.px_real_effects.specs.Targets.{pointer_of};
ghost use Rattle.px_real_effects.specs.Effects as Rules;

use crate::statements::{put, put_evaluated, put_unwritten};
use crate::targets::{Target, pointer_of, target_of};
use px_base::Site;
use px_real_expressions::{Operator, Step};
use px_real_types::ProfileType;
use px_real_values::{
    Environment, Operand, assignment_text, int, is_int, put_all, step_text, stop,
};
use px_syntax::{Arithmetic, Place, TypedExpression, TypedStatement};
use px_terms::NoMemory;
use std::alloc::Global;

fn arithmetic_of(operator: Operator) -> Option<Arithmetic>
    ensures { result ≡ Rules.arithmetic_of operator }
{
    match operator {
        Operator::Multiply => Some(Arithmetic::Multiply),
        Operator::Add => Some(Arithmetic::Add),
        Operator::Subtract => Some(Arithmetic::Subtract),
        _ => None,
    }
}

fn counting(step: Step) -> Arithmetic
    ensures { result ≡ Rules.counting step }
{
    match step {
        Step::Increment => Arithmetic::Add,
        Step::Decrement => Arithmetic::Subtract,
    }
}

// The operator by which a place of this type is updated.
fn updating(operator: Option<Arithmetic>, kind: ProfileType) -> Option<Arithmetic>
    ensures { result ≡ Rules.updating operator kind }
{
    if is_int(kind) { operator } else { None }
}

// A place that isn't updated, behind what its pointer needs and these parts.
fn put_not_updated<E: Environment>(
    alloc: Global,
    environment: &E,
    text: &[u8],
    site: Site,
    place: Place,
    parts: Vec<TypedExpression>,
    into: &mut Vec<TypedStatement>,
) -> Result<(), NoMemory>
    ensures { OnOk result (map typed_statement into.new.items ≡ map typed_statement into.old.items ++ T.evaluate (stop (pointer_of (typed_place place) ++ map typed_expression parts.items) ((E.sees environment.now).word_number text.now) site) ∷ []) }
{
    let mut all = pointer_of(alloc, place)?;
    put_all(&mut all, parts)?;
    put_evaluated(alloc, stop(all, environment.word_number(text), site), into)
}

// `=`, of a value with its first token.
pub fn put_assigned<'a, E: Environment>(
    alloc: Global,
    environment: &E,
    site: Site,
    left: Operand<'a>,
    first: Site,
    right: Operand<'a>,
    into: &mut Vec<TypedStatement>,
) -> Result<(), NoMemory>
    ensures { OnOk result (map typed_statement into.new.items ≡ map typed_statement into.old.items ++ Rules.assigned (E.sees environment.now) site (operand_seen left.entry) (record { first = first; operand = operand_seen right.entry })) }
{
    match target_of(alloc, environment, b"=".as_slice(), site, left)? {
        Target::Place { kind, place } => {
            let value = Box::new(alloc, right.needed(alloc, environment, first, kind)?)?;
            put(into, TypedStatement::Assign { place, value })
        }
        Target::Other(at) => {
            let parts = right.parts(alloc, environment)?;
            put_unwritten(alloc, at, parts, into)
        }
    }
}

// An operator with `=` on a place of the profile.
fn put_updated<'a, E: Environment>(
    alloc: Global,
    environment: &E,
    operator: Operator,
    site: Site,
    kind: ProfileType,
    place: Place,
    first: Site,
    right: Operand<'a>,
    into: &mut Vec<TypedStatement>,
) -> Result<(), NoMemory>
    ensures { OnOk result (map typed_statement into.new.items ≡ map typed_statement into.old.items ++ Rules.updated (E.sees environment.now) (assignment_text (Some operator)) site (Rules.arithmetic_of operator) (needed (E.sees environment.now) first Types.int (operand_seen right.entry)) (parts (E.sees environment.now) (operand_seen right.entry)) kind (typed_place place) ∷ []) }
{
    match updating(arithmetic_of(operator), kind) {
        Some(operator) => {
            let value = Box::new(alloc, right.needed(alloc, environment, first, int())?)?;
            put(
                into,
                TypedStatement::Update {
                    operator,
                    place,
                    value,
                },
            )
        }
        None => {
            let parts = right.parts(alloc, environment)?;
            let text = assignment_text(Some(operator));
            put_not_updated(alloc, environment, text, site, place, parts, into)
        }
    }
}

// An operator with `=`, of a value with its first token.
pub fn put_assigned_with<'a, E: Environment>(
    alloc: Global,
    environment: &E,
    operator: Operator,
    site: Site,
    left: Operand<'a>,
    first: Site,
    right: Operand<'a>,
    into: &mut Vec<TypedStatement>,
) -> Result<(), NoMemory>
    ensures { OnOk result (map typed_statement into.new.items ≡ map typed_statement into.old.items ++ Rules.assigned_with (E.sees environment.now) operator site (operand_seen left.entry) (record { first = first; operand = operand_seen right.entry })) }
{
    let text = assignment_text(Some(operator));
    match target_of(alloc, environment, text, site, left)? {
        Target::Place { kind, place } => put_updated(
            alloc,
            environment,
            operator,
            site,
            kind,
            place,
            first,
            right,
            into,
        ),
        Target::Other(at) => {
            let parts = right.parts(alloc, environment)?;
            put_unwritten(alloc, at, parts, into)
        }
    }
}

// `++` or `--` on a place of the profile.
fn put_counted<E: Environment>(
    alloc: Global,
    environment: &E,
    step: Step,
    site: Site,
    kind: ProfileType,
    place: Place,
    into: &mut Vec<TypedStatement>,
) -> Result<(), NoMemory>
    ensures { OnOk result (map typed_statement into.new.items ≡ map typed_statement into.old.items ++ Rules.updated (E.sees environment.now) (step_text step) site (Some (Rules.counting step)) (T.constant (pos 1)) [] kind (typed_place place) ∷ []) }
{
    match updating(Some(counting(step)), kind) {
        Some(operator) => {
            let value = Box::new(alloc, TypedExpression::Constant { value: 1 })?;
            put(
                into,
                TypedStatement::Update {
                    operator,
                    place,
                    value,
                },
            )
        }
        None => {
            let text = step_text(step);
            put_not_updated(alloc, environment, text, site, place, Vec::new(alloc), into)
        }
    }
}

// `++` and `--`.
pub fn put_stepped<'a, E: Environment>(
    alloc: Global,
    environment: &E,
    step: Step,
    site: Site,
    operand: Operand<'a>,
    into: &mut Vec<TypedStatement>,
) -> Result<(), NoMemory>
    ensures { OnOk result (map typed_statement into.new.items ≡ map typed_statement into.old.items ++ Rules.stepped (E.sees environment.now) step site (operand_seen operand.entry)) }
{
    match target_of(alloc, environment, step_text(step), site, operand)? {
        Target::Place { kind, place } => {
            put_counted(alloc, environment, step, site, kind, place, into)
        }
        Target::Other(at) => put_unwritten(alloc, at, Vec::new(alloc), into),
    }
}

ghost use Rattle.std.specs.Prelude.{◌≡◌, [], IfOk};
ghost use Rattle.px_syntax.specs.TypedTree as T;
ghost use Rattle.px_real_values.specs.Operands as Operands;
ghost use Rattle.px_real_values.specs.Operators as Rules;
ghost use Rattle.px_real_values.specs.Views.{operand_seen, spelled_seen};

use crate::environment::{Environment, TypeSpelled};
use crate::operand::Operand;
use crate::operators::stopped_at;
use crate::types::{is_int, is_pointer, known, points_to, same_type, type_id};
use px_base::Site;
use px_real_types::{Known, ProfileType};
use px_syntax::TypedExpression;
use px_terms::NoMemory;
use std::alloc::Global;

// What a cast gives that doesn't keep the value.
fn outside<'a, E: Environment>(
    alloc: Global,
    environment: &E,
    known: Known,
    site: Site,
    operand: Operand<'a>,
) -> Result<Operand<'a>, NoMemory>
    ensures { IfOk result (λ a. operand_seen a ≡ Operands.outside known (Operands.parts (E.sees environment.now) (operand_seen operand.entry)) (Rules.cast_word (E.sees environment.now)) site) }
{
    let parts = operand.parts(alloc, environment)?;
    Ok(Operand::Outside {
        known,
        parts,
        word: environment.word_number(b"cast".as_slice()),
        site,
    })
}

// The same without parts.
fn outside_alone<'a, E: Environment>(
    alloc: Global,
    environment: &E,
    known: Known,
    site: Site,
) -> Operand<'a>
    ensures { operand_seen result ≡ Operands.outside known [] (Rules.cast_word (E.sees environment.now)) site }
{
    Operand::Outside {
        known,
        parts: Vec::new(alloc),
        word: environment.word_number(b"cast".as_slice()),
        site,
    }
}

// `malloc` of a block, where no pointer to it is wanted.
fn unwanted_block<'a, E: Environment>(alloc: Global, environment: &E, site: Site) -> Operand<'a>
    ensures { operand_seen result ≡ Operands.stopped [] (Operands.malloc_word (E.sees environment.now)) site }
{
    stopped_at(environment, b"malloc".as_slice(), site, Vec::new(alloc))
}

// Null of a pointer type.
fn null<'a>(kind: ProfileType, site: Site) -> Operand<'a>
    ensures { operand_seen result ≡ Operands.of_type kind site T.null }
{
    Operand::OfType {
        kind,
        site,
        value: TypedExpression::Null,
    }
}

// A cast to a type of the profile.
fn cast_to<'a, E: Environment>(
    alloc: Global,
    environment: &E,
    kind: ProfileType,
    site: Site,
    operand: Operand<'a>,
) -> Result<Operand<'a>, NoMemory>
    ensures { IfOk result (λ a. operand_seen a ≡ Rules.cast_to (E.sees environment.now) kind site (operand_seen operand.entry)) }
{
    match operand {
        Operand::OfType {
            kind: own,
            site: at,
            value,
        } => {
            let operand = Operand::OfType {
                kind: own,
                site: at,
                value,
            };
            if same_type(kind, own) {
                Ok(operand)
            } else {
                outside(alloc, environment, known(kind), site, operand)
            }
        }
        Operand::Zero { site: at } => Ok(if is_pointer(kind) {
            null(kind, site)
        } else {
            Operand::Zero { site: at }
        }),
        Operand::Null { .. } => Ok(if is_pointer(kind) {
            null(kind, site)
        } else {
            outside_alone(alloc, environment, known(kind), site)
        }),
        Operand::Test { condition } => {
            let operand = Operand::Test { condition };
            if is_int(kind) {
                Ok(operand)
            } else {
                outside(alloc, environment, known(kind), site, operand)
            }
        }
        Operand::Block { block, site: at } => {
            if !points_to(kind, block) {
                return Ok(unwanted_block(alloc, environment, at));
            }
            let block = type_id(environment, block);
            Ok(Operand::OfType {
                kind,
                site: at,
                value: TypedExpression::Allocate { block, site: at },
            })
        }
        other => outside(alloc, environment, known(kind), site, other),
    }
}

// A cast to another type: null stays null behind a star.
fn cast_away<'a, E: Environment>(
    alloc: Global,
    environment: &E,
    spelled: TypeSpelled,
    site: Site,
    operand: Operand<'a>,
) -> Result<Operand<'a>, NoMemory>
    ensures { IfOk result (λ a. operand_seen a ≡ Rules.cast_away (E.sees environment.now) (spelled_seen spelled) site (operand_seen operand.entry)) }
{
    match operand {
        Operand::Zero { .. } | Operand::Null { .. } => Ok(if spelled.is_starred {
            Operand::Null {
                word: environment.word_number(b"cast".as_slice()),
                site,
            }
        } else {
            outside_alone(alloc, environment, Known::Seen(spelled.shape), site)
        }),
        Operand::Block { site: at, .. } => Ok(unwanted_block(alloc, environment, at)),
        other => outside(alloc, environment, Known::Seen(spelled.shape), site, other),
    }
}

// A cast.
pub fn cast_as<'a, E: Environment>(
    alloc: Global,
    environment: &E,
    spelled: TypeSpelled,
    site: Site,
    operand: Operand<'a>,
) -> Result<Operand<'a>, NoMemory>
    ensures { IfOk result (λ a. operand_seen a ≡ Rules.cast_as (E.sees environment.now) (spelled_seen spelled) site (operand_seen operand.entry)) }
{
    match spelled.shape.in_profile() {
        Some(kind) => cast_to(alloc, environment, kind, site, operand),
        None => cast_away(alloc, environment, spelled, site, operand),
    }
}

ghost use Rattle.std.specs.Prelude.{◌≡◌, ◌∷◌, [], map, IfOk};
ghost use Rattle.px_syntax.specs.TypedViews.{typed_expression, typed_place};
ghost use Rattle.px_expressions.specs.Reading.{or_else};
ghost use Rattle.px_real_values.specs.Operands.{stop};
ghost use Rattle.px_real_values.specs.Views.{operand_seen};
ghost use Rattle.px_real_effects.specs.Targets as Rules;
ghost use Rattle.px_real_effects.specs.Views.{target_seen, elsewhere_seen};

use px_base::Site;
use px_real_types::ProfileType;
use px_real_values::{Environment, Operand, alone, last_cell, stop};
use px_syntax::{Place, TypedExpression};
use px_terms::{NoMemory, TypeId};
use std::alloc::Global;

// What an assignment writes to, that is no place of the profile.
#[derive(Drop)]
pub enum Elsewhere {
    // A member that is outside, of what a pointer points to: an access of this block type at this site.
    Access {
        pointer: TypedExpression,
        block: TypeId,
        site: Site,
    },
    // What else is outside: these parts are evaluated.
    Away {
        parts: Vec<TypedExpression>,
    },
    // A `Stop`.
    Nowhere {
        value: TypedExpression,
    },
}

// What an assignment writes to.
#[derive(Drop)]
pub enum Target {
    // A local or a cell of the profile, of this type.
    Place { kind: ProfileType, place: Place },
    Other(Elsewhere),
}

// A `Stop` is written to.
fn nowhere(parts: Vec<TypedExpression>, word: u32, site: Site) -> Target
    ensures { target_seen result ≡ Rules.nowhere (stop (map typed_expression parts.items) word site) }
{
    let value = stop(parts, word, site);
    Target::Other(Elsewhere::Nowhere { value })
}

// What a value of this type is written to: the place that it is read of, if it is a place's. Else it is a `Stop` with this word and site.
fn placed(
    alloc: Global,
    kind: ProfileType,
    value: TypedExpression,
    word: u32,
    site: Site,
) -> Result<Target, NoMemory>
    ensures { IfOk result (λ t. target_seen t ≡ or_else (Rules.place_of (typed_expression value)) (Rules.a_place kind) (Rules.nowhere (stop (typed_expression value ∷ []) word site))) }
{
    match value {
        TypedExpression::Local { local, site: at } => Ok(Target::Place {
            kind,
            place: Place::Local { local, site: at },
        }),
        TypedExpression::Cell {
            pointer,
            before,
            field,
            block,
            site: at,
        } => {
            let pointer = Box::new(alloc, last_cell(pointer, before))?;
            Ok(Target::Place {
                kind,
                place: Place::Cell {
                    site: at,
                    field,
                    block,
                    pointer,
                },
            })
        }
        other => Ok(nowhere(alone(alloc, other)?, word, site)),
    }
}

// What an operator with this text at this site writes to.
pub fn target_of<'a, E: Environment>(
    alloc: Global,
    environment: &E,
    text: &[u8],
    site: Site,
    operand: Operand<'a>,
) -> Result<Target, NoMemory>
    ensures { IfOk result (λ t. target_seen t ≡ Rules.target (E.sees environment.now) text.now site (operand_seen operand.entry)) }
{
    match operand {
        Operand::OfType { kind, value, .. } => {
            placed(alloc, kind, value, environment.word_number(text), site)
        }
        Operand::Named { .. } => Ok(Target::Other(Elsewhere::Away {
            parts: Vec::new(alloc),
        })),
        Operand::Member {
            pointer,
            block,
            access,
            ..
        } => Ok(Target::Other(Elsewhere::Access {
            pointer,
            block,
            site: access,
        })),
        Operand::Outside { parts, .. } => Ok(Target::Other(Elsewhere::Away { parts })),
        Operand::Struct {
            pointer,
            word,
            site: at,
            ..
        } => Ok(nowhere(alone(alloc, pointer)?, word, at)),
        Operand::Object {
            parts,
            word,
            site: at,
            ..
        }
        | Operand::Stopped {
            parts,
            word,
            site: at,
        } => Ok(nowhere(parts, word, at)),
        other => {
            let parts = other.parts(alloc, environment)?;
            Ok(nowhere(parts, environment.word_number(text), site))
        }
    }
}

// What the pointer to a place needs.
pub fn pointer_of(alloc: Global, place: Place) -> Result<Vec<TypedExpression>, NoMemory>
    ensures { IfOk result (λ v. map typed_expression v.items ≡ Rules.pointer_of (typed_place place)) }
{
    match place {
        Place::Local { .. } => Ok(Vec::new(alloc)),
        Place::Cell { pointer, .. } => alone(alloc, Box::into_inner(pointer)),
    }
}

ghost use Rattle.std.specs.Prelude.{◌≡◌, ◌∷◌, [], map, codes, IfOk};
ghost use Rattle.px_expressions.specs.Reading.{or_else};
ghost use Rattle.px_syntax.specs.TypedTree as T;
ghost use Rattle.px_syntax.specs.TypedViews.{typed_expression};
ghost use Rattle.px_real_types.specs.Types as Types;
ghost use Rattle.px_real_values.specs.Operands as Operands;
ghost use Rattle.px_real_values.specs.Operators as Rules;
ghost use Rattle.px_real_values.specs.Views.{operand_seen};

use crate::environment::Environment;
use crate::operand::{Operand, alone, reached};
use crate::operators::{outside_of, stopped_at};
use crate::types::{
    element, is_value, member_type, number_of, pointee, record_in, structure, type_id, unknown,
};
use px_base::{FieldId, Site};
use px_real_types::{Known, Member, ProfileType};
use px_syntax::{CellLink, Name, TypedExpression};
use px_terms::{NoMemory, TypeId};
use std::alloc::Global;

// The value of a cell of a block of this type.
fn cell<'a>(
    alloc: Global,
    pointer: TypedExpression,
    kind: ProfileType,
    field: u32,
    block: TypeId,
    site: Site,
) -> Result<Operand<'a>, NoMemory>
    ensures { IfOk result (λ a. operand_seen a ≡ Operands.of_type kind site (T.cell (typed_expression pointer) (record { 0 = field }) block site)) }
{
    let link = CellLink {
        field: FieldId(field),
        block,
        site,
    };
    let value = TypedExpression::cell(alloc, pointer, link)?;
    Ok(Operand::OfType { kind, site, value })
}

// An object that isn't understood, with what its pointer needs.
pub fn object_of<'a, E: Environment>(
    environment: &E,
    known: Known,
    text: &[u8],
    site: Site,
    parts: Vec<TypedExpression>,
) -> Operand<'a>
    ensures { operand_seen result ≡ Rules.object_of (E.sees environment.now) known text.now site (map typed_expression parts.items) }
{
    Operand::Object {
        known,
        parts,
        word: environment.word_number(text),
        site,
    }
}

// What a pointer to this type points to: a value in a cell, or a struct.
fn pointed_to<'a, E: Environment>(
    alloc: Global,
    environment: &E,
    text: &[u8],
    site: Site,
    pointer: TypedExpression,
    target: ProfileType,
) -> Result<Operand<'a>, NoMemory>
    ensures { IfOk result (λ a. operand_seen a ≡ Rules.pointed_to (E.sees environment.now) text.now site (typed_expression pointer) target) }
{
    if is_value(target) {
        let block = type_id(environment, target);
        return cell(alloc, pointer, target, 0, block, site);
    }
    match number_of(target) {
        Some(number) => Ok(Operand::Struct {
            number,
            pointer,
            word: environment.word_number(text),
            site,
        }),
        None => Ok(stopped_at(environment, text, site, alone(alloc, pointer)?)),
    }
}

// `*p`.
pub fn indirected<'a, E: Environment>(
    alloc: Global,
    environment: &E,
    text: &[u8],
    site: Site,
    operand: Operand<'a>,
) -> Result<Operand<'a>, NoMemory>
    ensures { IfOk result (λ a. operand_seen a ≡ Rules.indirected (E.sees environment.now) text.now site (operand_seen operand.entry)) }
{
    match operand {
        Operand::OfType { kind, value, .. } => match pointee(kind) {
            Some(target) => pointed_to(alloc, environment, text, site, value, target),
            None => {
                let parts = alone(alloc, value)?;
                Ok(object_of(environment, unknown(), text, site, parts))
            }
        },
        other => {
            let known = element(other.known());
            let parts = other.parts(alloc, environment)?;
            Ok(object_of(environment, known, text, site, parts))
        }
    }
}

// A member of the struct with this number that a pointer points to.
fn member_at<'a, E: Environment>(
    alloc: Global,
    environment: &E,
    number: u32,
    text: &[u8],
    site: Site,
    pointer: TypedExpression,
    name: &[u8],
) -> Result<Operand<'a>, NoMemory>
    ensures { IfOk result (λ a. operand_seen a ≡ Rules.member_at (E.sees environment.now) number text.now site (typed_expression pointer) ((E.sees environment.now).member number name.now)) }
{
    let block = type_id(environment, structure(number));
    match environment.member(number, name) {
        Some(Member::Cell { number, kind }) => cell(alloc, pointer, kind, number, block, site),
        Some(Member::Other(known)) => Ok(Operand::Member {
            known,
            pointer,
            block,
            access: site,
            word: environment.word_number(text),
            site,
        }),
        None => Ok(stopped_at(environment, text, site, alone(alloc, pointer)?)),
    }
}

// The number of the struct that a pointer points to.
fn struct_behind(kind: ProfileType) -> Option<u32>
    ensures { result ≡ Rules.struct_behind kind }
{
    number_of(pointee(kind)?)
}

// The member of this name of a struct or union, if it is known which one that is.
fn member_in<E: Environment>(environment: &E, name: &[u8], known: Known) -> Option<Option<Member>>
    ensures { result ≡ Rules.member_in (E.sees environment.now) name.now known }
{
    let number = record_in(known)?;
    Some(environment.member(number, name))
}

// The type of that member, where it is there; of those of an unknown struct nothing is known.
fn found_type(member: Option<Option<Member>>) -> Option<Known>
    ensures { result ≡ Rules.found_type member }
{
    match member {
        Some(Some(member)) => Some(member_type(Some(member))),
        Some(None) => None,
        None => Some(unknown()),
    }
}

// The type of that member, as far as it is known.
fn type_in<E: Environment>(environment: &E, name: &[u8], known: Known) -> Known
    ensures { result ≡ or_else (Rules.member_in (E.sees environment.now) name.now known) Types.member_type Types.unknown }
{
    match member_in(environment, name, known) {
        Some(member) => member_type(member),
        None => unknown(),
    }
}

// `p->m`.
pub fn arrowed<'a, E: Environment>(
    alloc: Global,
    environment: &E,
    site: Site,
    name: &Name,
    operand: Operand<'a>,
) -> Result<Operand<'a>, NoMemory>
    ensures { IfOk result (λ a. operand_seen a ≡ Rules.arrowed (E.sees environment.now) site name.now (operand_seen operand.entry)) }
{
    let text = b"->".as_slice();
    match operand {
        Operand::OfType { kind, value, .. } => match struct_behind(kind) {
            Some(number) => member_at(
                alloc,
                environment,
                number,
                text,
                site,
                value,
                name.as_slice(),
            ),
            None => {
                let parts = alone(alloc, value)?;
                Ok(object_of(environment, unknown(), text, site, parts))
            }
        },
        other => {
            let known = type_in(environment, name.as_slice(), element(other.known()));
            let parts = other.parts(alloc, environment)?;
            Ok(object_of(environment, known, text, site, parts))
        }
    }
}

// A member of an outside member of the struct that a pointer points to.
fn inner_member<'a, E: Environment>(
    alloc: Global,
    environment: &E,
    site: Site,
    name: &[u8],
    known: Known,
    pointer: TypedExpression,
    block: TypeId,
    access: Site,
) -> Result<Operand<'a>, NoMemory>
    ensures { IfOk result (λ a. operand_seen a ≡ Rules.known_member (E.sees environment.now) site (Operands.reached known (typed_expression pointer) block access ∷ []) (λ m. Operands.a_member m (typed_expression pointer) block access ((E.sees environment.now).word_number (codes ".")) site) (Rules.member_in (E.sees environment.now) name.now known)) }
{
    let text = b".".as_slice();
    match found_type(member_in(environment, name, known)) {
        None => {
            let part = reached(alloc, known, pointer, block, access)?;
            Ok(stopped_at(environment, text, site, alone(alloc, part)?))
        }
        Some(known) => Ok(Operand::Member {
            known,
            pointer,
            block,
            access,
            word: environment.word_number(text),
            site,
        }),
    }
}

// A member of what is outside.
fn outside_member<'a, E: Environment>(
    alloc: Global,
    environment: &E,
    site: Site,
    name: &[u8],
    operand: Operand<'a>,
) -> Result<Operand<'a>, NoMemory>
    ensures { IfOk result (λ a. operand_seen a ≡ Rules.known_member (E.sees environment.now) site (Operands.parts (E.sees environment.now) (operand_seen operand.entry)) (λ m. Operands.outside m (Operands.parts (E.sees environment.now) (operand_seen operand.entry)) ((E.sees environment.now).word_number (codes ".")) site) (Rules.member_in (E.sees environment.now) name.now (Operands.known_of (operand_seen operand.entry)))) }
{
    let text = b".".as_slice();
    let known = operand.known();
    let parts = operand.parts(alloc, environment)?;
    match found_type(member_in(environment, name, known)) {
        None => Ok(stopped_at(environment, text, site, parts)),
        Some(known) => Ok(Operand::Outside {
            known,
            parts,
            word: environment.word_number(text),
            site,
        }),
    }
}

// `s.m`.
pub fn dotted<'a, E: Environment>(
    alloc: Global,
    environment: &E,
    site: Site,
    name: &Name,
    operand: Operand<'a>,
) -> Result<Operand<'a>, NoMemory>
    ensures { IfOk result (λ a. operand_seen a ≡ Rules.dotted (E.sees environment.now) site name.now (operand_seen operand.entry)) }
{
    let field = name.as_slice();
    match operand {
        Operand::Struct {
            number,
            pointer,
            ..
        } => member_at(
            alloc,
            environment,
            number,
            b".".as_slice(),
            site,
            pointer,
            field,
        ),
        Operand::Object {
            known,
            parts,
            word,
            site,
        } => Ok(Operand::Object {
            known: type_in(environment, field, known),
            parts,
            word,
            site,
        }),
        Operand::Member {
            known,
            pointer,
            block,
            access,
            ..
        } => inner_member(
            alloc,
            environment,
            site,
            field,
            known,
            pointer,
            block,
            access,
        ),
        Operand::Stopped { parts, word, site } => Ok(Operand::Stopped { parts, word, site }),
        other => outside_member(alloc, environment, site, field, other),
    }
}

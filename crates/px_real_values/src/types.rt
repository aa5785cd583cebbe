ghost use Rattle.std.specs.Prelude.{◌≡◌};
ghost use Rattle.px_terms.specs.declared.types.ValueType.{ValueType};
ghost use Rattle.px_real_types.specs.Types as Types;
ghost use Rattle.px_real_values.specs.Environment as Seen;

use crate::environment::Environment;
use px_real_types::{Base, Known, Member, ProfileType, Shape};
use px_terms::{TypeId, ValueType};

pub fn int() -> ProfileType
    ensures { result ≡ Types.int }
{
    ProfileType {
        base: Base::Int,
        stars: 0,
    }
}

pub fn structure(number: u32) -> ProfileType
    ensures { result ≡ Types.struct number }
{
    ProfileType {
        base: Base::Struct(number),
        stars: 0,
    }
}

pub fn is_pointer(kind: ProfileType) -> bool
    ensures { result ≡ Types.is_pointer kind }
{
    0 < kind.stars
}

// What a pointer points to.
pub fn pointee(kind: ProfileType) -> Option<ProfileType>
    ensures { result ≡ Types.pointee kind }
{
    if kind.stars > 0 {
        Some(ProfileType {
            base: kind.base,
            stars: kind.stars - 1,
        })
    } else {
        None
    }
}

fn is_int_base(base: Base) -> bool
    ensures { result ≡ Types.is_int_base base }
{
    match base {
        Base::Int => true,
        Base::Struct(_) => false,
    }
}

pub fn is_int(kind: ProfileType) -> bool
    ensures { result ≡ Types.is_int kind }
{
    is_int_base(kind.base) && kind.stars == 0
}

// An int or a pointer, and no struct.
pub fn is_value(kind: ProfileType) -> bool
    ensures { result ≡ Types.is_value kind }
{
    is_int_base(kind.base) || is_pointer(kind)
}

fn same_base(one: Base, other: Base) -> bool
    ensures { result ≡ Types.same_base one other }
{
    match (one, other) {
        (Base::Int, Base::Int) => true,
        (Base::Struct(one), Base::Struct(other)) => one == other,
        _ => false,
    }
}

pub fn same_type(one: ProfileType, other: ProfileType) -> bool
    ensures { result ≡ Types.same_type one other }
{
    same_base(one.base, other.base) && one.stars == other.stars
}

// Whether the first is a pointer to the second.
pub fn points_to(pointer: ProfileType, block: ProfileType) -> bool
    ensures { result ≡ Types.same_type pointer (Types.pointer_to block) }
{
    match block.stars.checked_add(1) {
        Some(stars) => same_base(pointer.base, block.base) && pointer.stars == stars,
        None => false,
    }
}

fn struct_number(base: Base) -> Option<u32>
    ensures { result ≡ Types.struct_number base }
{
    match base {
        Base::Int => None,
        Base::Struct(number) => Some(number),
    }
}

// The number of a struct.
pub fn number_of(kind: ProfileType) -> Option<u32>
    ensures { result ≡ Types.number_of kind }
{
    if kind.stars == 0 {
        struct_number(kind.base)
    } else {
        None
    }
}

// ---- what is known of a type

pub fn unknown() -> Known
    ensures { result ≡ Types.unknown }
{
    Known::Seen(Shape::Outside)
}

pub fn known(kind: ProfileType) -> Known
    ensures { result ≡ Types.known kind }
{
    Known::Seen(Shape::Value {
        base: kind.base,
        stars: kind.stars,
    })
}

// An int, a pointer or a struct that is seen.
pub fn block_in(known: Known) -> Option<ProfileType>
    ensures { result ≡ Types.block_in known }
{
    match known {
        Known::Seen(Shape::Value { base, stars }) => Some(ProfileType { base, stars }),
        _ => None,
    }
}

pub fn is_array(known: Known) -> bool
    ensures { result ≡ Types.is_array known }
{
    match known {
        Known::Seen(Shape::Array { .. }) | Known::Array => true,
        _ => false,
    }
}

// The number of a struct or union.
pub fn record_in(known: Known) -> Option<u32>
    ensures { result ≡ Types.record_in known }
{
    match known {
        Known::Record(number) => Some(number),
        Known::Seen(Shape::Value { base, stars }) => number_of(ProfileType { base, stars }),
        _ => None,
    }
}

fn known_if(kind: Option<ProfileType>) -> Known
    ensures { result ≡ Types.known_if kind }
{
    match kind {
        Some(kind) => known(kind),
        None => unknown(),
    }
}

// What a pointer points to, and the elements of an array.
pub fn element(known: Known) -> Known
    ensures { result ≡ Types.element known }
{
    match known {
        Known::Seen(Shape::Value { base, stars }) => {
            known_if(pointee(ProfileType { base, stars }))
        }
        Known::Seen(Shape::Array { base, stars }) => Known::Seen(Shape::Value { base, stars }),
        _ => unknown(),
    }
}

// The type of a member.
pub fn member_type(member: Option<Member>) -> Known
    ensures { result ≡ Types.member_type member }
{
    match member {
        Some(Member::Cell { kind, .. }) => known(kind),
        Some(Member::Other(known)) => known,
        None => unknown(),
    }
}

// ---- numbers of types

pub fn type_id<E: Environment>(environment: &E, block: ProfileType) -> TypeId
    ensures { result ≡ Seen.type_id (E.sees environment.now) block }
{
    TypeId(environment.block_number(block))
}

// The type of the values that an int or a pointer of this type has.
pub fn value_type<E: Environment>(environment: &E, kind: ProfileType) -> ValueType
    ensures { result ≡ Seen.value_type (E.sees environment.now) kind }
{
    match pointee(kind) {
        Some(block) => ValueType::Pointer(type_id(environment, block)),
        None => ValueType::Int,
    }
}

ghost use Rattle.std.specs.Prelude.{◌≡◌, Some, option_map, option_copied, IfOk};
ghost use Rattle.px_syntax.specs.declared.type_name.Base.TheVariants.{Struct};
ghost use Rattle.px_bodies.specs.Types.{int, pointee, pointer_to, is_int, is_pointer, is_value, same_type, struct_tag};
ghost use Rattle.px_bodies.specs.Lent.{type_of};
ghost use Rattle.px_bodies.specs.Outcomes.{Yields};

use crate::refusal::Refusal;
use px_syntax::{Base, Name, TypeName};
use px_terms::NoMemory;
use std::alloc::Global;

/// A type of C, lent: a struct's tag, or none for `int`, after stars.
#[derive(Clone, Copy, PartialEq, Eq, Hash)]
pub struct CType<'a> {
    tag: Option<&'a [u8]>,
    stars: u32,
}

impl<'a> CType<'a> {
    /// `int`. Takes no memory.
    pub fn int() -> CType<'a>
        ensures { type_of result ≡ int }
    {
        CType {
            tag: None,
            stars: 0,
        }
    }

    /// The struct of this tag. Takes no memory.
    pub fn tagged(tag: &'a Name) -> CType<'a>
        ensures { type_of result ≡ record { base = Struct tag.now; stars = 0 } }
    {
        CType {
            tag: Some(tag.as_slice()),
            stars: 0,
        }
    }

    /// A base after stars. Takes no memory.
    pub fn new(base: &'a Base, stars: u32) -> CType<'a>
        ensures { type_of result ≡ record { base = base.now; stars = stars } }
    {
        let tag = match base {
            Base::Int => None,
            Base::Struct(tag) => Some(tag.as_slice()),
        };
        CType { tag, stars }
    }

    /// The type that is named. Takes no memory.
    pub fn of(name: &'a TypeName) -> CType<'a>
        ensures { type_of result ≡ name.now }
    {
        CType::new(&name.base, name.stars)
    }

    /// The type in memory of its own.
    pub fn to_name(self, alloc: Global) -> Result<TypeName, NoMemory>
        ensures { IfOk result (λ name. name ≡ type_of self.entry) }
    {
        let base = match self.tag {
            None => Base::Int,
            Some(tag) => Base::Struct(Name::from_slice(alloc, tag)?),
        };
        Ok(TypeName {
            base,
            stars: self.stars,
        })
    }

    /// Whether it is an int or a pointer, as a local, a parameter or a field has to be. Takes no memory.
    pub fn is_value(self) -> bool
        ensures { result ≡ is_value (type_of self.entry) }
    {
        self.tag.is_none() || 0 < self.stars
    }

    pub(crate) fn is_pointer(self) -> bool
        ensures { result ≡ is_pointer (type_of self.entry) }
    {
        0 < self.stars
    }

    pub(crate) fn is_int(self) -> bool
        ensures { result ≡ is_int (type_of self.entry) }
    {
        self.tag.is_none() && self.stars == 0
    }

    pub(crate) fn is_same(self, other: CType<'a>) -> bool
        ensures { result ≡ same_type (type_of self.entry) (type_of other.entry) }
    {
        self == other
    }

    // What a pointer points to.
    pub(crate) fn pointee(self) -> Option<CType<'a>>
        ensures { option_map type_of result ≡ pointee (type_of self.entry) }
    {
        if self.stars == 0 {
            return None;
        }
        Some(CType {
            tag: self.tag,
            stars: self.stars - 1,
        })
    }

    // A pointer to it. More stars than a number holds count as want of memory.
    pub(crate) fn pointer(self) -> Result<CType<'a>, Refusal>
        ensures { Yields type_of result (Some (pointer_to (type_of self.entry))) }
    {
        match self.stars.checked_add(1) {
            Some(stars) => Ok(CType {
                tag: self.tag,
                stars,
            }),
            None => Err(Refusal::NoMemory),
        }
    }

    // The tag of a struct.
    pub(crate) fn struct_tag(self) -> Option<&'a [u8]>
        ensures { option_copied result ≡ struct_tag (type_of self.entry) }
    {
        if self.stars == 0 { self.tag } else { None }
    }
}

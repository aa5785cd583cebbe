ghost use Rattle.std.specs.Prelude.{◌≡◌, [], length, map, not, IfOk, OnOk};
ghost use Rattle.std.specs.List.{list_any};
ghost use Rattle.std.specs.Str.{bytes_eq};
ghost use Rattle.px_typing.specs.Sights.{sighted};

use indexmap::IndexSet;
use px_bodies::CType;
use px_terms::NoMemory;
use std::alloc::Global;
use std::marker::Model;

/// Names, each once, in the order of first sight.
#[derive(Drop)]
pub struct Names<'a> {
    seen: IndexSet<&'a [u8]>,
}

impl<'a> Model for Names<'a> {
    ghost use Rattle.std.specs.Prelude.{ℕ, List, map};

    ghost Value = { List (List ℕ) };

    ghost view = { λ s. map (λ n. n.now) s.seen.keys };
}

impl<'a> Names<'a> {
    /// None. Takes no memory.
    pub fn new(alloc: Global) -> Names<'a>
        ensures { result ≡ [] }
    {
        Names {
            seen: IndexSet::new(alloc),
        }
    }

    /// Takes a name in, and says whether it is seen for the first time.
    pub fn see(&mut self, name: &'a [u8]) -> Result<bool, NoMemory>
        ensures seen { OnOk result (self.new ≡ sighted bytes_eq self.old name.entry.now) }
        ensures first { IfOk result (λ first. first ≡ not (list_any (bytes_eq name.entry.now) self.old)) }
    {
        Ok(self.seen.insert(name)?)
    }

    /// How many there are. Takes no memory.
    pub fn len(&self) -> usize
        ensures { result ≡ length self.now }
    {
        self.seen.len()
    }

    /// The names, in order. Takes no memory.
    pub fn as_slice(&self) -> &[&'a [u8]]
        ensures { map (λ n. n.now) result.now ≡ self.now }
    {
        self.seen.as_slice()
    }
}

/// Types, each once, in the order of first sight.
#[derive(Drop)]
pub struct Types<'a> {
    seen: IndexSet<CType<'a>>,
}

impl<'a> Model for Types<'a> {
    ghost use Rattle.std.specs.Prelude.{List, map};
    ghost use Rattle.px_syntax.specs.declared.type_name.TypeName.{TypeName};
    ghost use Rattle.px_bodies.specs.Lent.{type_of};

    ghost Value = { List TypeName };

    ghost view = { λ s. map type_of s.seen.keys };
}

impl<'a> Types<'a> {
    ghost use Rattle.px_bodies.specs.Types.{same_type};
    ghost use Rattle.px_bodies.specs.Lent.{type_of};

    /// None. Takes no memory.
    pub fn new(alloc: Global) -> Types<'a>
        ensures { result ≡ [] }
    {
        Types {
            seen: IndexSet::new(alloc),
        }
    }

    /// Takes a type in, and says whether it is seen for the first time.
    pub fn see(&mut self, of: CType<'a>) -> Result<bool, NoMemory>
        ensures seen { OnOk result (self.new ≡ sighted same_type self.old (type_of of.entry)) }
        ensures first { IfOk result (λ first. first ≡ not (list_any (same_type (type_of of.entry)) self.old)) }
    {
        Ok(self.seen.insert(of)?)
    }

    /// How many there are. Takes no memory.
    pub fn len(&self) -> usize
        ensures { result ≡ length self.now }
    {
        self.seen.len()
    }

    /// The types, in order. Takes no memory.
    pub fn as_slice(&self) -> &[CType<'a>]
        ensures { map type_of result.now ≡ self.now }
    {
        self.seen.as_slice()
    }
}

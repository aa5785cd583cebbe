ghost use Rattle.std.specs.Prelude.{◌≡◌, ◌+◌, ◌-◌, ◌++◌, ◌∷◌, [], length, option_map, OnOk};
ghost use Rattle.px_bodies.specs.Environment.{environment_of};
ghost use Rattle.px_bodies.specs.Lent.{type_of};
ghost use Rattle.px_bodies.specs.Locals.{no_locals, named, declared, after_scope};
ghost use Rattle.px_bodies.specs.Functions.{before_body};
ghost use Rattle.px_bodies.specs.Places.{local_seen, last_place, is_outside};
ghost use Rattle.px_bodies.specs.Outcomes.{Yields};

use crate::refusal::Refusal;
use crate::{CType, Environment};
use indexmap::IndexMap;
use px_syntax::Name;
use px_terms::{NoMemory, ValueType};
use std::alloc::Global;
use std::marker::Model;

/// A local that is in scope, and the place of the one that it hides.
#[derive(Clone, Copy)]
pub struct Declared<'a> {
    pub(crate) name: &'a [u8],
    pub(crate) number: u32,
    pub(crate) value: CType<'a>,
    hidden: Option<usize>,
}

/// The locals of a function, and which of them a place in its body sees. A name is found in constant time.
#[derive(Drop)]
pub struct Locals<'a> {
    // the place of each name's innermost local
    table: IndexMap<&'a [u8], Option<usize>>,
    visible: Vec<Declared<'a>>,
    next: u32,
    types: Vec<ValueType>,
}

impl<'a> Model for Locals<'a> {
    ghost use Rattle.std.specs.Prelude.{map};
    ghost use Rattle.px_bodies.specs.Locals.{Locals as Seen};
    ghost use Rattle.px_bodies.specs.Places.{local_seen, IsKept};

    ghost Value = { Seen };

    ghost view = { λ l. record { visible = map local_seen l.visible.items; next = l.next; types = l.types.items } };

    ghost invariant = { λ l. IsKept l.table.entries l.visible.items };
}

// Whether a place, if there is one, stands before a scope that begins at `outer`.
fn is_outside(place: Option<usize>, outer: usize) -> bool
    ensures { result ≡ is_outside place outer }
{
    match place {
        Some(place) => place < outer,
        None => true,
    }
}

impl<'a> Locals<'a> {
    pub fn new(alloc: Global) -> Locals<'a>
        ensures { result ≡ no_locals }
    {
        Locals {
            table: IndexMap::new(alloc),
            visible: Vec::new(alloc),
            next: 0,
            types: Vec::new(alloc),
        }
    }

    // How many are in scope.
    pub fn height(&self) -> usize
        ensures { result ≡ length self.now.visible }
    {
        self.visible.len()
    }

    // The number of the next one.
    pub fn next(&self) -> u32
        ensures { result ≡ self.now.next }
    {
        self.next
    }

    // The place of the local that a name means.
    fn place(&self, name: &Name) -> Option<usize>
        ensures { result ≡ last_place 0 name.now self.now.visible }
    {
        self.table.get(name.as_slice()).copied().flatten()
    }

    // The local that a name means.
    pub fn find(&self, name: &Name) -> Option<Declared<'a>>
        ensures { option_map local_seen result ≡ named name.now self.now.visible }
    {
        let place = self.place(name)?;
        self.visible.get(place).copied()
    }

    // One more local; those of its scope are the ones from `outer` on.
    #[tactic(auto, using(crate::proofs::PlaceLemmas::fresh))]
    pub fn declare(
        &mut self,
        environment: &Environment<'a>,
        outer: usize,
        name: &'a Name,
        value: CType<'a>,
    ) -> Result<(), Refusal>
        ensures { Yields (λ _. self.new) result (declared (environment_of environment.now) outer self.old name.now (type_of value.entry)) }
    {
        let hidden = self.place(name);
        if !value.is_value() || !is_outside(hidden, outer) {
            return Err(Refusal::Rule);
        }
        let number = self.next();
        self.add(Declared {
            name: name.as_slice(),
            number,
            value,
            hidden,
        })?;
        self.add_type(environment.value_type(value))?;
        self.count()?;
        Ok(())
    }

    // One more type.
    fn add_type(&mut self, value: ValueType) -> Result<(), NoMemory>
        ensures { OnOk result (self.new ≡ record self.old { types = self.old.types ++ value ∷ [] }) }
    {
        self.types.push(value)?;
        Ok(())
    }

    // One more is counted.
    fn count(&mut self) -> Result<(), NoMemory>
        ensures { OnOk result (self.new ≡ record self.old { next = self.old.next + 1 }) }
    {
        match self.next.checked_add(1) {
            Some(next) => {
                self.next = next;
                Ok(())
            }
            None => Err(NoMemory),
        }
    }

    // One more in scope.
    fn add(&mut self, local: Declared<'a>) -> Result<(), NoMemory>
        requires { local.hidden ≡ last_place 0 local.name.now self.old.visible }
        ensures { OnOk result (self.new ≡ record self.old { visible = self.old.visible ++ local_seen local.entry ∷ [] }) }
    {
        let place = self.visible.len();
        self.visible.push(local)?;
        match self.table.insert(local.name, Some(place)) {
            Ok(_) => Ok(()),
            Err(_) => {
                self.visible.pop();
                Err(NoMemory)
            }
        }
    }

    // After a scope, only the first `outer` are visible.
    pub fn leave(&mut self, outer: usize) -> Result<(), NoMemory>
        ensures { OnOk result (self.new ≡ after_scope outer self.old) }
    {
        while outer < self.height() {
            self.drop_last()?;
        }
        Ok(())
    }

    // The last goes out of scope.
    fn drop_last(&mut self) -> Result<(), NoMemory>
        ensures { OnOk result (self.new ≡ after_scope (length self.old.visible - 1) self.old) }
    {
        if let Some(last) = self.visible.last().copied() {
            self.table.insert(last.name, last.hidden)?;
            self.visible.pop();
        }
        Ok(())
    }

    // The types of those that were declared so far, which are counted on.
    pub fn take_types(&mut self, alloc: Global) -> Vec<ValueType>
        ensures types { result.items ≡ self.old.types }
        ensures rest { self.new ≡ before_body self.old }
    {
        std::mem::replace(&mut self.types, Vec::new(alloc))
    }
}

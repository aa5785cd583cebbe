ghost use Rattle.std.specs.Prelude.{◌≡◌, [], ◌∷◌, length, map, option_map, OnOk, OnErr};
ghost use Rattle.px_real_scopes.specs.Scopes.{DefinitionTree};
ghost use Rattle.px_real_scopes.specs.Lookups.{first_said, says_members, says_member};
ghost use Rattle.px_real_scopes.specs.Views.{member_view, definition_view, definitions_view};
ghost use Rattle.px_real_scopes.specs.Keys.{numbers_of, last_of};

use crate::meaning::{Definition, NamedMember};
use px_chains::Chains;
use px_real_types::Member;
use px_terms::NoMemory;
use std::alloc::Global;
use std::marker::Model;

/// The structs and unions that are defined. Contracts see a list, the last first. One is found by its number without a look at the rest.
#[derive(Drop)]
pub struct Definitions {
    items: Vec<Definition>,
    numbers: Chains,
}

impl Model for Definitions {
    ghost use Rattle.std.specs.Prelude.{◌≡◌, List};
    ghost use Rattle.px_real_scopes.specs.Scopes.{DefinitionTree};
    ghost use Rattle.px_real_scopes.specs.Views.{definitions_view};
    ghost use Rattle.px_real_scopes.specs.Keys.{numbers_of};

    ghost Value = { List DefinitionTree };

    ghost view = { λ d. definitions_view d.items.items };

    ghost invariant = { λ d. d.numbers ≡ numbers_of d.items.items };
}

// One more.
fn push_definition(
    items: &mut Vec<Definition>,
    numbers: &mut Chains,
    definition: Definition,
) -> Result<(), NoMemory>
    requires { numbers.old ≡ numbers_of items.old.items }
    ensures kept { numbers.new ≡ numbers_of items.new.items }
    ensures added { OnOk result (definitions_view items.new.items ≡ definition_view definition ∷ definitions_view items.old.items) }
    ensures refused { OnErr result (definitions_view items.new.items ≡ definitions_view items.old.items) }
{
    numbers.push(definition.number)?;
    match items.push(definition) {
        Ok(()) => Ok(()),
        Err(_) => {
            numbers.pop();
            Err(NoMemory)
        }
    }
}

/// The first of these that has this name.
pub fn member_named(members: &[NamedMember], name: &[u8]) -> Option<Member>
    ensures { result ≡ first_said (says_member name.now) (map member_view members.now) }
{
    for each in members {
        if name == each.name.as_slice() {
            return Some(each.member);
        }
    }
    None
}

impl Definitions {
    /// None. Takes no memory.
    pub fn new(alloc: Global) -> Definitions
        ensures { result ≡ [] }
    {
        Definitions {
            items: Vec::new(alloc),
            numbers: Chains::new(alloc),
        }
    }

    // How many there are.
    pub fn len(&self) -> usize
        ensures { result ≡ length self.now }
    {
        self.items.len()
    }

    /// The members of the struct or union with this number, in order, if it is defined. Takes no memory.
    pub fn members(&self, number: u32) -> Option<&[NamedMember]>
        ensures { option_map (λ ms. map member_view ms.now) result ≡ first_said (says_members number) self.now }
    {
        let end = self.numbers.end_of(number);
        if end == 0 {
            return None;
        }
        Some(&self.items[end - 1].members)
    }

    // One more.
    pub fn push(&mut self, definition: Definition) -> Result<(), NoMemory>
        ensures added { OnOk result (self.new ≡ definition_view definition ∷ self.old) }
        ensures refused { OnErr result (self.new ≡ self.old) }
    {
        push_definition(&mut self.items, &mut self.numbers, definition)
    }

    // Leaves the first so many.
    pub fn truncate(&mut self, count: usize)
        ensures { self.new ≡ last_of count self.old }
    {
        self.items.truncate(count);
        self.numbers.truncate(count);
    }
}

ghost use Rattle.std.specs.Prelude.{◌≡◌, ℕ, ◌+◌, ◌-◌, ◌<◌, ◌≤◌, [], ◌∷◌, ◌++◌, map, length, take, slice_get, true, false, option_map, is_some, OnOk, OnErr};
ghost use Rattle.px_real_scopes.specs.Scopes.{begins_block, BindingTree};
ghost use Rattle.px_real_scopes.specs.Lookups.{meaning_of, tag_of, placed, own_block, behind_block, type_in};
ghost use Rattle.px_real_scopes.specs.Views.{meaning_view, tag_view, binding_view, bindings_view};
ghost use Rattle.px_real_scopes.specs.Keys.{binds, meaning_bound, tag_bound, number_bound, keys_of, IsLast, last_of};

use crate::keys::{BLOCK_KEY, Wanted, binding_key, binds, wanted_key};
use crate::meaning::{Binding, Meaning, Tag};
use px_base::Site;
use px_chains::Chains;
use px_real_symbols::TypeNames;
use px_terms::NoMemory;
use std::alloc::Global;
use std::marker::Model;

/// What is in scope. Contracts see a list, the nearest first. What is bound under one key is found without a look at the rest.
#[derive(Drop)]
pub struct Bindings {
    items: Vec<Binding>,
    chains: Chains,
}

impl Model for Bindings {
    ghost use Rattle.std.specs.Prelude.{◌≡◌, List};
    ghost use Rattle.px_real_scopes.specs.Scopes.{BindingTree};
    ghost use Rattle.px_real_scopes.specs.Views.{bindings_view};
    ghost use Rattle.px_real_scopes.specs.Keys.{keys_of};

    ghost Value = { List BindingTree };

    ghost view = { λ b. bindings_view b.items.items };

    ghost invariant = { λ b. b.chains ≡ keys_of b.items.items };
}

impl TypeNames for Bindings {
    ghost use Rattle.px_real_scopes.specs.Lookups.{are_types};

    ghost named = { are_types };

    fn is_type(&self, word: &[u8]) -> bool {
        match self.meaning(word) {
            Some(meaning) => names_type(meaning),
            None => false,
        }
    }
}

// Whether it is a type.
fn names_type(meaning: &Meaning) -> bool
    ensures { result ≡ is_some (type_in (Some (meaning_view meaning.now))) }
{
    match meaning {
        Meaning::Type(_) => true,
        _ => false,
    }
}

// What it says of a name.
fn meaning_in(binding: &Binding) -> Option<&Meaning>
    ensures { option_map (λ m. meaning_view m.now) result ≡ meaning_bound (binding_view binding.now) }
{
    match binding {
        Binding::Name { meaning, .. } => Some(meaning),
        _ => None,
    }
}

// What it says of a tag.
fn tag_in(binding: &Binding) -> Option<Tag>
    ensures { option_map tag_view result ≡ tag_bound (binding_view binding.now) }
{
    match binding {
        Binding::Tag { tag, .. } => Some(*tag),
        _ => None,
    }
}

// The number that it says of a place.
fn number_in(binding: &Binding) -> Option<u32>
    ensures { result ≡ number_bound (binding_view binding.now) }
{
    match binding {
        Binding::Place { number, .. } => Some(*number),
        _ => None,
    }
}

// Where the last of these ends that binds what is looked for.
fn last_bound(items: &[Binding], chains: &Chains, wanted: Wanted) -> usize
    requires { chains.now ≡ keys_of items.now }
    ensures { IsLast (λ b. binds wanted.entry (binding_view b)) items.now result }
{
    let mut end = chains.end_of(wanted_key(wanted));
    while end > 0 {
        if binds(wanted, &items[end - 1]) {
            return end;
        }
        end = chains.end_before(end - 1);
    }
    0
}

// One more.
fn push_binding(
    items: &mut Vec<Binding>,
    chains: &mut Chains,
    binding: Binding,
) -> Result<(), NoMemory>
    requires { chains.old ≡ keys_of items.old.items }
    ensures kept { chains.new ≡ keys_of items.new.items }
    ensures added { OnOk result (bindings_view items.new.items ≡ binding_view binding ∷ bindings_view items.old.items) }
    ensures refused { OnErr result (bindings_view items.new.items ≡ bindings_view items.old.items) }
{
    chains.push(binding_key(&binding))?;
    match items.push(binding) {
        Ok(()) => Ok(()),
        Err(_) => {
            chains.pop();
            Err(NoMemory)
        }
    }
}

impl Bindings {
    /// None. Takes no memory.
    pub fn new(alloc: Global) -> Bindings
        ensures { result ≡ [] }
    {
        Bindings {
            items: Vec::new(alloc),
            chains: Chains::new(alloc),
        }
    }

    // How many there are.
    pub fn len(&self) -> usize
        ensures { result ≡ length self.now }
    {
        self.items.len()
    }

    /// What a name means. Takes no memory.
    pub fn meaning(&self, word: &[u8]) -> Option<&Meaning>
        ensures { option_map (λ m. meaning_view m.now) result ≡ meaning_of self.now word.now }
    {
        let end = last_bound(&self.items, &self.chains, Wanted::Name(word));
        if end == 0 {
            return None;
        }
        meaning_in(&self.items[end - 1])
    }

    /// What a tag means. Takes no memory.
    pub fn tag(&self, word: &[u8]) -> Option<Tag>
        ensures { option_map tag_view result ≡ tag_of self.now word.now }
    {
        let end = last_bound(&self.items, &self.chains, Wanted::Tag(word));
        if end == 0 {
            return None;
        }
        tag_in(&self.items[end - 1])
    }

    // What a tag means in the innermost block.
    pub fn own_tag(&self, word: &[u8]) -> Option<Tag>
        ensures { option_map tag_view result ≡ tag_of (own_block self.now) word.now }
    {
        let end = last_bound(&self.items, &self.chains, Wanted::Tag(word));
        if end <= self.chains.end_of(BLOCK_KEY) {
            return None;
        }
        tag_in(&self.items[end - 1])
    }

    /// The number of the struct or union without a tag at a place. Takes no memory.
    pub fn place(&self, site: Site) -> Option<u32>
        ensures { result ≡ placed self.now site }
    {
        let end = last_bound(&self.items, &self.chains, Wanted::Place(site));
        if end == 0 {
            return None;
        }
        number_in(&self.items[end - 1])
    }

    // One more.
    pub fn push(&mut self, binding: Binding) -> Result<(), NoMemory>
        ensures added { OnOk result (self.new ≡ binding_view binding ∷ self.old) }
        ensures refused { OnErr result (self.new ≡ self.old) }
    {
        push_binding(&mut self.items, &mut self.chains, binding)
    }

    // Leaves the first so many.
    pub fn truncate(&mut self, count: usize)
        ensures { self.new ≡ last_of count self.old }
    {
        self.items.truncate(count);
        self.chains.truncate(count);
    }

    /// A block begins.
    pub fn enter(&mut self) -> Result<(), NoMemory>
        ensures entered { OnOk result (self.new ≡ begins_block ∷ self.old) }
        ensures refused { OnErr result (self.new ≡ self.old) }
    {
        self.push(Binding::Block)
    }

    /// The innermost block is left. Takes no memory.
    pub fn leave(&mut self)
        ensures { self.new ≡ behind_block self.old }
    {
        let block = self.chains.end_of(BLOCK_KEY);
        self.truncate(block.saturating_sub(1));
    }
}

ghost use Rattle.std.specs.Prelude.{◌≡◌, ℕ, ◌+◌, ◌-◌, ◌<◌, ◌≤◌, [], ◌∷◌, ◌++◌, true, ◌↔◌, length, take, slice_index, OnOk, OnErr};
ghost use Rattle.px_chains.specs.Ends.{IsEndOfKey};
ghost use Rattle.px_chains.specs.Links.{keys_of, AreLinked};

use std::alloc::{AllocError, Global};
use std::marker::Model;

// The key of a place, and where the key's last place before it ends.
#[derive(Clone, Copy)]
pub(crate) struct Link {
    pub(crate) key: u32,
    pub(crate) before: usize,
}

/// A stack of places with keys. Where a place ends is how many places there are up to it; 0 is where none ends. Contracts see the
/// list of keys.
#[derive(Drop)]
pub struct Chains {
    links: Vec<Link>,
    // For each key where its last place ends. A key beyond the list has none.
    ends: Vec<usize>,
}

impl Model for Chains {
    ghost use Rattle.std.specs.Prelude.{ℕ, List};
    ghost use Rattle.px_chains.specs.Links.{keys_of, AreLinked};

    ghost Value = { List ℕ };

    ghost view = { λ c. keys_of c.links.items };

    ghost invariant = { λ c. AreLinked c.links.items c.ends.items };
}

impl Chains {
    /// No places. Takes no memory.
    pub fn new(alloc: Global) -> Chains
        ensures { result ≡ [] }
    {
        Chains {
            links: Vec::new(alloc),
            ends: Vec::new(alloc),
        }
    }

    /// How many places there are. Takes no memory.
    pub fn len(&self) -> usize
        ensures { result ≡ length self.now }
    {
        self.links.len()
    }

    /// Whether there are no places. Takes no memory.
    pub fn is_empty(&self) -> bool
        ensures { result ≡ true ↔ self.now ≡ [] }
    {
        self.links.is_empty()
    }

    /// Where the key's last place ends. Takes no memory.
    pub fn end_of(&self, key: u32) -> usize
        ensures { IsEndOfKey self.now key (length self.now) result }
    {
        if (key as usize) < self.ends.len() {
            self.ends[key as usize]
        } else {
            0
        }
    }

    /// Where the last place before this one ends that has its key. Takes no memory.
    pub fn end_before(&self, place: usize) -> usize
        requires { place < length self.now }
        ensures { IsEndOfKey self.now (slice_index self.now place) place result }
    {
        self.links[place].before
    }

    /// Adds a place after the others. After an `Err` they are as they were.
    pub fn push(&mut self, key: u32) -> Result<(), AllocError>
        ensures added { OnOk result (self.new ≡ self.old ++ key ∷ []) }
        ensures refused { OnErr result (self.new ≡ self.old) }
    {
        add_link(&mut self.links, &mut self.ends, key)
    }

    /// Takes the last place away, if there is one. Takes no memory.
    pub fn pop(&mut self)
        ensures { self.new ≡ take (length self.old - 1) self.old }
    {
        take_link(&mut self.links, &mut self.ends);
    }

    /// Leaves the first places, so many of them. Takes no memory.
    pub fn truncate(&mut self, count: usize)
        ensures { self.new ≡ take count self.old }
    {
        while self.len() > count {
            self.pop();
        }
    }
}

// Makes room for the end of a key.
fn make_room(ends: &mut Vec<usize>, key: u32) -> Result<(), AllocError>
    ensures room { OnOk result (key < length ends.new.items) }
    ensures grows { length ends.old.items ≤ length ends.new.items }
    ensures same { (k : ℕ) → slice_index ends.new.items k ≡ slice_index ends.old.items k }
{
    while ends.len() <= key as usize {
        ends.push(0)?;
    }
    Ok(())
}

// Adds a place.
fn add_link(links: &mut Vec<Link>, ends: &mut Vec<usize>, key: u32) -> Result<(), AllocError>
    requires { AreLinked links.old.items ends.old.items }
    ensures linked { AreLinked links.new.items ends.new.items }
    ensures added { OnOk result (keys_of links.new.items ≡ keys_of links.old.items ++ key ∷ []) }
    ensures refused { OnErr result (keys_of links.new.items ≡ keys_of links.old.items) }
{
    make_room(ends, key)?;
    let before = ends[key as usize];
    links.push(Link { key, before })?;
    ends[key as usize] = links.len();
    Ok(())
}

// Takes the last place away.
fn take_link(links: &mut Vec<Link>, ends: &mut Vec<usize>)
    requires { AreLinked links.old.items ends.old.items }
    ensures linked { AreLinked links.new.items ends.new.items }
    ensures rest { keys_of links.new.items ≡ take (length (keys_of links.old.items) - 1) (keys_of links.old.items) }
{
    if let Some(link) = links.pop() {
        ends[link.key as usize] = link.before;
    }
}

ghost use Rattle.std.specs.Prelude.{◌≡◌, ◌↔◌, ◌<◌, ◌++◌, ◌∷◌, [], true, length, slice_get, slice_set, option_to_list, IfOk, OnOk, OnErr, IfNone};
ghost use Rattle.std.specs.Option.{option_copied};

use crate::NoMemory;
use std::alloc::Global;
use std::marker::Model;

/// Items in order. Contracts see the list of them, so that what holds such lists is compared as a whole.
pub struct Items<T> {
    all: Vec<T>,
}

impl<T> Model for Items<T> {
    ghost use Rattle.std.specs.Prelude.{List};

    ghost Value = { List T };

    ghost view = { λ s. s.all.items };
}

impl<T> Items<T> {
    /// No items. Takes no memory.
    pub fn new(alloc: Global) -> Items<T>
        ensures { result ≡ [] }
    {
        Items {
            all: Vec::new(alloc),
        }
    }

    /// The same items. Takes no memory.
    pub fn from_vec(all: Vec<T>) -> Items<T>
        ensures { result ≡ all.items }
    {
        Items { all }
    }

    /// The same items. Takes no memory.
    pub fn into_vec(self) -> Vec<T>
        ensures { result.items ≡ self }
    {
        let Items { all } = self;
        all
    }

    /// The items. Takes no memory.
    pub fn as_slice(&self) -> &[T]
        ensures { result.now ≡ self.now }
    {
        &self.all
    }

    /// How many items there are. Takes no memory.
    pub fn len(&self) -> usize
        ensures { result ≡ length self.now }
    {
        self.all.len()
    }

    /// Whether there are no items. Takes no memory.
    pub fn is_empty(&self) -> bool
        ensures { result ≡ true ↔ self.now ≡ [] }
    {
        self.all.is_empty()
    }

    /// The item at a place, if there is one. Takes no memory.
    pub fn get(&self, place: usize) -> Option<&T>
        ensures { option_copied result ≡ slice_get self.now place }
    {
        self.all.get(place)
    }

    /// Puts an item at a place, where another one stood. Takes no memory.
    pub fn set(&mut self, place: usize, item: T)
    where
        T: Drop,
        requires { place < length self.old }
        ensures { self.new ≡ slice_set self.old place item }
    {
        self.all[place] = item;
    }

    /// Takes the last item off, if there is one. Takes no memory.
    pub fn pop(&mut self) -> Option<T>
        ensures parts { self.old ≡ self.new ++ option_to_list result }
        ensures none { IfNone result (self.old ≡ []) }
    {
        self.all.pop()
    }

    /// Adds an item after the others. After `NoMemory` the list is as it was, and the item is gone.
    pub fn push(&mut self, item: T) -> Result<(), NoMemory>
    where
        T: Drop,
        ensures added { OnOk result (self.new ≡ self.old ++ item ∷ []) }
        ensures refused { OnErr result (self.new ≡ self.old) }
    {
        self.all.push(item)?;
        Ok(())
    }
}

impl<T: Copy> Items<T> {
    /// A list of the same items.
    pub fn from_slice(alloc: Global, items: &[T]) -> Result<Items<T>, NoMemory>
        ensures { IfOk result (λ s. s ≡ items.now) }
    {
        Ok(Items {
            all: Vec::from_slice(alloc, items)?,
        })
    }
}

impl<T: Drop> Drop for Items<T> {
    fn drop(self) {
        let Items { all: _ } = self;
    }
}

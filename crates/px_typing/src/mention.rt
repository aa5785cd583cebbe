ghost use Rattle.std.specs.Prelude.{◌≡◌, [], ◌∷◌, ◌++◌, map, OnOk};

use px_syntax::{Base, Name};
use px_terms::NoMemory;
use std::alloc::Global;
use std::marker::Model;

/// What an item names at a place.
#[derive(Clone, Copy)]
pub enum Mentioned<'a> {
    /// A function that is called.
    Calls(&'a Name),
    /// A function that is declared.
    Declares(&'a Name),
    /// The blocks of a base after fewer stars than these.
    Named(&'a Base, u32),
    /// The blocks of a base after these stars, and after fewer.
    Sized(&'a Base, u32),
    /// The blocks of a struct that is defined.
    Defines(&'a Name),
}

/// What items name, in the order of the places.
#[derive(Drop)]
pub struct Mentions<'a> {
    all: Vec<Mentioned<'a>>,
}

impl<'a> Model for Mentions<'a> {
    ghost use Rattle.std.specs.Prelude.{List, map};
    ghost use Rattle.px_typing.specs.Mentions.{Mention};
    ghost use Rattle.px_typing.specs.MentionViews.{mention_of};

    ghost Value = { List Mention };

    ghost view = { λ m. map mention_of m.all.items };
}

impl<'a> Mentions<'a> {
    ghost use Rattle.px_typing.specs.MentionViews.{mention_of};

    /// None. Takes no memory.
    pub fn new(alloc: Global) -> Mentions<'a>
        ensures { result ≡ [] }
    {
        Mentions {
            all: Vec::new(alloc),
        }
    }

    /// Adds one after the others.
    pub fn push(&mut self, mentioned: Mentioned<'a>) -> Result<(), NoMemory>
        ensures { OnOk result (self.new ≡ self.old ++ mention_of mentioned.entry ∷ []) }
    {
        self.all.push(mentioned)?;
        Ok(())
    }

    /// All of them. Takes no memory.
    pub fn as_slice(&self) -> &[Mentioned<'a>]
        ensures { map mention_of result.now ≡ self.now }
    {
        &self.all
    }
}

ghost use Rattle.std.specs.Prelude.{◌≡◌, ◌∷◌, [], OnOk, IfSome, IfNone};
ghost use Rattle.px_real_cutting.specs.Scan.{none_open};

use crate::roles::Pair;
use px_base::Site;
use px_terms::NoMemory;
use std::alloc::Global;
use std::marker::Model;

/// The brackets that are open, with their sites. Contracts see a list of them, the last first.
#[derive(Drop)]
pub struct Brackets {
    items: Vec<(Pair, Site)>,
}

impl Model for Brackets {
    ghost use Rattle.std.specs.Prelude.{List, reverse};
    ghost use Rattle.px_base.specs.declared.trace.Site.{Site};
    ghost use Rattle.px_real_cutting.specs.declared.roles.Pair.{Pair};

    ghost Value = { List (Pair × Site) };

    ghost view = { λ b. reverse b.items.items };
}

impl Brackets {
    // No brackets. Takes no memory.
    pub fn new(alloc: Global) -> Brackets
        ensures { result ≡ [] }
    {
        Brackets {
            items: Vec::new(alloc),
        }
    }

    // A bracket opens.
    pub fn open(&mut self, pair: Pair, site: Site) -> Result<(), NoMemory>
        ensures { OnOk result (self.new ≡ (pair, site) ∷ self.old) }
    {
        self.items.push((pair, site))?;
        Ok(())
    }

    // The last bracket closes, where there is one.
    pub fn close(&mut self) -> Option<(Pair, Site)>
        ensures some { IfSome result (λ x. self.old ≡ x ∷ self.new) }
        ensures none { IfNone result ((self.old ≡ []) × (self.new ≡ [])) }
    {
        self.items.pop()
    }

    // Whether no bracket is open.
    pub fn is_empty(&self) -> bool
        ensures { result ≡ none_open self.now }
    {
        self.items.is_empty()
    }
}

ghost use Rattle.std.specs.Prelude.{◌≡◌, ◌<◌, Some, length, slice_get};

use crate::Event;
use px_base::ProcId;
use px_check::Checked;
use px_entry::Gap;
use px_terms::Items;
use std::marker::Model;

/// What is known of a kept procedure.
#[derive(Drop)]
pub enum Part {
    /// Its table: the entries, each checked, and the drops.
    Tabled {
        checked: Items<Checked>,
        drops: Items<Gap>,
    },
    /// No table: its body has too many commands to be analysed.
    LeftOut,
}

/// What was found out of a program: a part for each kept procedure, in order; and what happened on the way, if several
/// worked on it.
#[derive(Drop)]
pub struct Findings {
    parts: Items<Part>,
    events: Items<Event>,
}

impl Model for Findings {
    ghost use Rattle.std.specs.Coded.{codes};
    ghost use Rattle.px_check.specs.contracts.checked.Checked as checked;
    ghost use Rattle.px_pieces.specs.Found.{Found};

    ghost Value = { Found };

    ghost coded = { Prim.hlevel (codes, checked.the_row.coded) };

    ghost view = { λ f. record { parts = f.parts; events = f.events } };

    ghost inverse = { λ v. record { parts = v.parts; events = v.events } };
}

impl Findings {
    /// Those of these parts, after these events. Takes no memory.
    pub fn new(parts: Items<Part>, events: Items<Event>) -> Findings
        ensures { result ≡ record { parts = parts; events = events } }
    {
        Findings { parts, events }
    }

    /// What is known of a kept procedure. Takes no memory.
    pub fn part(&self, proc: ProcId) -> &Part
        requires kept { proc.0 < length self.now.parts }
        ensures { slice_get self.now.parts proc.0 ≡ Some result.now }
    {
        &self.parts.as_slice()[proc.0 as usize]
    }

    /// All parts, in order. Takes no memory.
    pub fn parts(&self) -> &[Part]
        ensures { result.now ≡ self.now.parts }
    {
        self.parts.as_slice()
    }

    /// The events, from the first to the last. Takes no memory.
    pub fn events(&self) -> &[Event]
        ensures { result.now ≡ self.now.events }
    {
        self.events.as_slice()
    }
}

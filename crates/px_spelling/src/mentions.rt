ghost use Rattle.std.specs.Prelude.{◌≡◌, ◌++◌, map, OnOk};
ghost use Rattle.std.specs.List.{flat_map};

use px_callgraph::Callee;
use px_entry::{Atom, AtomState, Cause, Entry, Gap, Table};
use px_terms::{Conj, Content, NoMemory, Poly};

/// What may mention polynomials.
pub trait Mentions {
    ghost use Rattle.std.specs.Prelude.{List};
    ghost use Rattle.px_terms.specs.Polynomials.{Polynomial};

    // the polynomials that it mentions, in the order in which they are spelled
    ghost mentions: { Self → List Polynomial };

    /// Adds them to others. After `NoMemory` some of them may be there.
    fn add_mentions<'a>(&'a self, all: &mut Vec<&'a Poly>) -> Result<(), NoMemory>
        ensures { OnOk result (map (λ p. p.now) all.new.items ≡ map (λ p. p.now) all.old.items ++ mentions self.now) };
}

/// Adds what each item mentions.
pub fn add_all_mentions<'a, T: Mentions>(
    items: &'a [T],
    all: &mut Vec<&'a Poly>,
) -> Result<(), NoMemory>
    ensures { OnOk result (map (λ p. p.now) all.new.items ≡ map (λ p. p.now) all.old.items ++ flat_map T.mentions items.now) }
{
    for item in items {
        item.add_mentions(all)?;
    }
    Ok(())
}

impl Mentions for Content {
    ghost use Rattle.px_spelling.specs.Mentions.{content_mentions};

    ghost mentions = { content_mentions };

    fn add_mentions<'a>(&'a self, all: &mut Vec<&'a Poly>) -> Result<(), NoMemory> {
        match self {
            Content::Word(word) => all.push(word)?,
            Content::Unwritten | Content::Place(_) | Content::Cell(_) => {}
        }
        Ok(())
    }
}

impl Mentions for Option<Content> {
    ghost use Rattle.px_spelling.specs.Mentions.{result_mentions};

    ghost mentions = { result_mentions };

    fn add_mentions<'a>(&'a self, all: &mut Vec<&'a Poly>) -> Result<(), NoMemory> {
        match self {
            None => Ok(()),
            Some(content) => content.add_mentions(all),
        }
    }
}

impl Mentions for Conj {
    ghost use Rattle.px_spelling.specs.Mentions.{conj_mentions};

    ghost mentions = { conj_mentions };

    fn add_mentions<'a>(&'a self, all: &mut Vec<&'a Poly>) -> Result<(), NoMemory> {
        match self {
            Conj::Equal(difference) | Conj::Unequal(difference) => all.push(difference)?,
            Conj::Less(left, right) | Conj::AtMost(left, right) | Conj::Quotient(_, left, right) =>
                {
                    all.push(left)?;
                    all.push(right)?
                }
            Conj::SamePlace(_, _)
            | Conj::OtherPlace(_, _)
            | Conj::Written(_)
            | Conj::Unwritten(_) => {}
        }
        Ok(())
    }
}

impl Mentions for AtomState {
    ghost use Rattle.px_spelling.specs.Mentions.{atom_state_mentions};

    ghost mentions = { atom_state_mentions };

    fn add_mentions<'a>(&'a self, all: &mut Vec<&'a Poly>) -> Result<(), NoMemory> {
        match self {
            AtomState::Live(cells) => add_all_mentions(cells.as_slice(), all),
            AtomState::Freed => Ok(()),
        }
    }
}

impl Mentions for Atom {
    ghost use Rattle.px_spelling.specs.Mentions.{atom_mentions};

    ghost mentions = { atom_mentions };

    fn add_mentions<'a>(&'a self, all: &mut Vec<&'a Poly>) -> Result<(), NoMemory> {
        self.state.add_mentions(all)
    }
}

impl Mentions for Entry {
    ghost use Rattle.px_spelling.specs.Mentions.{entry_mentions};

    ghost mentions = { entry_mentions };

    fn add_mentions<'a>(&'a self, all: &mut Vec<&'a Poly>) -> Result<(), NoMemory> {
        self.result.add_mentions(all)?;
        add_all_mentions(self.pure.as_slice(), all)?;
        add_all_mentions(self.pre.as_slice(), all)?;
        add_all_mentions(self.post.as_slice(), all)
    }
}

impl Mentions for Cause {
    ghost use Rattle.px_spelling.specs.Mentions.{cause_mentions};

    ghost mentions = { cause_mentions };

    fn add_mentions<'a>(&'a self, all: &mut Vec<&'a Poly>) -> Result<(), NoMemory> {
        match self {
            Cause::Undecided(conjuncts) => add_all_mentions(conjuncts.as_slice(), all),
            _ => Ok(()),
        }
    }
}

impl Mentions for Gap {
    ghost use Rattle.px_spelling.specs.Mentions.{gap_mentions};

    ghost mentions = { gap_mentions };

    fn add_mentions<'a>(&'a self, all: &mut Vec<&'a Poly>) -> Result<(), NoMemory> {
        self.cause.add_mentions(all)
    }
}

impl Mentions for Table {
    ghost use Rattle.px_spelling.specs.Mentions.{table_mentions};

    ghost mentions = { table_mentions };

    fn add_mentions<'a>(&'a self, all: &mut Vec<&'a Poly>) -> Result<(), NoMemory> {
        add_all_mentions(self.entries.as_slice(), all)?;
        add_all_mentions(self.drops.as_slice(), all)
    }
}

impl Mentions for Callee {
    ghost use Rattle.px_spelling.specs.Mentions.{callee_mentions};

    ghost mentions = { callee_mentions };

    fn add_mentions<'a>(&'a self, all: &mut Vec<&'a Poly>) -> Result<(), NoMemory> {
        match self {
            Callee::Table(table) => table.add_mentions(all),
            Callee::Cycle | Callee::LeftOut | Callee::Unknown => Ok(()),
        }
    }
}

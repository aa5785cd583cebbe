ghost use Rattle.std.specs.Prelude.{◌≡◌, ◌↔◌, true, IfOk};

use crate::{Atom, AtomState, Cause, Derivation, Entry, Gap, Step, Table};
use px_base::Mark;
use px_terms::{ByValue, Content, Items, NoMemory};
use std::alloc::Global;

impl ByValue for Table {
    fn copy_in(&self, alloc: Global) -> Result<Table, NoMemory> {
        Ok(Table {
            entries: self.entries.copy(alloc)?,
            drops: self.drops.copy(alloc)?,
        })
    }

    fn equals(&self, other: &Table) -> bool {
        self.entries.equals(&other.entries) && self.drops.equals(&other.drops)
    }
}

impl ByValue for Entry {
    fn copy_in(&self, alloc: Global) -> Result<Entry, NoMemory> {
        Ok(Entry {
            proc: self.proc,
            trace: Items::from_slice(alloc, self.trace.as_slice())?,
            exit: self.exit,
            result: copy_result(&self.result)?,
            vars: Items::from_slice(alloc, self.vars.as_slice())?,
            pure: self.pure.copy(alloc)?,
            pre: self.pre.copy(alloc)?,
            post: self.post.copy(alloc)?,
            model: Items::from_slice(alloc, self.model.as_slice())?,
        })
    }

    fn equals(&self, other: &Entry) -> bool {
        self.proc == other.proc
            && equal_marks(self.trace.as_slice(), other.trace.as_slice())
            && self.exit == other.exit
            && equal_results(&self.result, &other.result)
            && self.vars.equals(&other.vars)
            && self.pure.equals(&other.pure)
            && self.pre.equals(&other.pre)
            && self.post.equals(&other.post)
            && self.model.equals(&other.model)
    }
}

impl ByValue for Gap {
    fn copy_in(&self, alloc: Global) -> Result<Gap, NoMemory> {
        Ok(Gap {
            trace: Items::from_slice(alloc, self.trace.as_slice())?,
            cause: self.cause.copy_in(alloc)?,
        })
    }

    fn equals(&self, other: &Gap) -> bool {
        equal_marks(self.trace.as_slice(), other.trace.as_slice())
            && self.cause.equals(&other.cause)
    }
}

impl ByValue for Cause {
    fn copy_in(&self, alloc: Global) -> Result<Cause, NoMemory> {
        Ok(match self {
            Cause::Undecided(conjuncts) => Cause::Undecided(conjuncts.copy(alloc)?),
            Cause::Nodes(n) => Cause::Nodes(*n),
            Cause::Paths(n) => Cause::Paths(*n),
            Cause::Long(kind) => Cause::Long(*kind),
            Cause::Unknown(proc) => Cause::Unknown(*proc),
            Cause::Cycle(proc) => Cause::Cycle(*proc),
            Cause::Dropped(proc) => Cause::Dropped(*proc),
            Cause::LeftOut(proc) => Cause::LeftOut(*proc),
            Cause::Outside(word) => Cause::Outside(*word),
        })
    }

    fn equals(&self, other: &Cause) -> bool {
        match (self, other) {
            (Cause::Undecided(a), Cause::Undecided(b)) => a.equals(b),
            (Cause::Nodes(a), Cause::Nodes(b))
            | (Cause::Paths(a), Cause::Paths(b))
            | (Cause::Outside(a), Cause::Outside(b)) => *a == *b,
            (Cause::Long(a), Cause::Long(b)) => *a == *b,
            (Cause::Unknown(a), Cause::Unknown(b))
            | (Cause::Cycle(a), Cause::Cycle(b))
            | (Cause::Dropped(a), Cause::Dropped(b))
            | (Cause::LeftOut(a), Cause::LeftOut(b)) => *a == *b,
            _ => false,
        }
    }
}

impl ByValue for Atom {
    fn copy_in(&self, alloc: Global) -> Result<Atom, NoMemory> {
        Ok(Atom {
            place: self.place,
            block: self.block,
            state: self.state.copy_in(alloc)?,
        })
    }

    fn equals(&self, other: &Atom) -> bool {
        self.place == other.place && self.block == other.block && self.state.equals(&other.state)
    }
}

impl ByValue for AtomState {
    fn copy_in(&self, alloc: Global) -> Result<AtomState, NoMemory> {
        Ok(match self {
            AtomState::Live(cells) => AtomState::Live(cells.copy(alloc)?),
            AtomState::Freed => AtomState::Freed,
        })
    }

    fn equals(&self, other: &AtomState) -> bool {
        match (self, other) {
            (AtomState::Freed, AtomState::Freed) => true,
            (AtomState::Live(a), AtomState::Live(b)) => a.equals(b),
            (AtomState::Freed, AtomState::Live(_)) | (AtomState::Live(_), AtomState::Freed) => {
                false
            }
        }
    }
}

impl ByValue for Derivation {
    fn copy_in(&self, alloc: Global) -> Result<Derivation, NoMemory> {
        Ok(Derivation {
            steps: self.steps.copy(alloc)?,
        })
    }

    fn equals(&self, other: &Derivation) -> bool {
        self.steps.equals(&other.steps)
    }
}

impl ByValue for Step {
    fn copy_in(&self, alloc: Global) -> Result<Step, NoMemory> {
        Ok(Step {
            rule: self.rule,
            choices: Items::from_slice(alloc, self.choices.as_slice())?,
        })
    }

    fn equals(&self, other: &Step) -> bool {
        self.rule == other.rule && self.choices.as_slice() == other.choices.as_slice()
    }
}

fn copy_result(given: &Option<Content>) -> Result<Option<Content>, NoMemory>
    ensures { IfOk result (λ copy. copy ≡ given.now) }
{
    Ok(match given {
        Some(content) => Some(content.copy()?),
        None => None,
    })
}

/// Whether two results are equal. Takes no memory.
pub fn equal_results(a: &Option<Content>, b: &Option<Content>) -> bool
    ensures { result ≡ true ↔ a.now ≡ b.now }
{
    match (a, b) {
        (None, None) => true,
        (Some(a), Some(b)) => a.equals(b),
        (None, Some(_)) | (Some(_), None) => false,
    }
}

/// Whether two traces are equal. Takes no memory.
pub fn equal_marks(a: &[Mark], b: &[Mark]) -> bool
    ensures { result ≡ true ↔ a.now ≡ b.now }
{
    if a.len() != b.len() {
        return false;
    }
    for i in 0..a.len() {
        if !is_same_mark(&a[i], &b[i]) {
            return false;
        }
    }
    true
}

fn is_same_mark(a: &Mark, b: &Mark) -> bool
    ensures { result ≡ true ↔ a.now ≡ b.now }
{
    *a == *b
}

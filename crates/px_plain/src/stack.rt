ghost use Rattle.std.specs.Prelude.{◌≡◌, ◌↔◌, ℕ, ◌+◌, ◌^◌, ◌<◌, ◌≤◌, List, [], ◌∷◌, length, true, false, OnOk, OnErr};
ghost use Rattle.px_terms.specs.Conjuncts.{IsWellSorted, IsPointerVariable};
ghost use Rattle.px_plain.specs.Models.{IsPlainlyRefuted};
ghost use Rattle.px_plain.specs.Held.{HeldItem, OfVar, OfConj, OfApart, held_vars, held_conjuncts, held_count};
ghost use Rattle.px_plain.specs.Steps as spec;
ghost use Rattle.px_plain.specs.Steps.{last_step, is_refuted, undone};
ghost use Rattle.px_plain.specs.Stands.{HoldsItems};
ghost use Rattle.px_plain.specs.Changes.{Changed, Takes};
ghost use Rattle.px_plain.specs.Stacks.{content, Holds, HasRoom, HasSpace, IsReady, CanTake, IsMadeInt, with_node};

use crate::changes::{
    change_apart, change_places, change_words, ends_of, mark_of, may_mark, put_marks, take_marks,
};
use crate::claims::{Change, Claim, Ends, Mark, Step, claim_of};
use crate::nodes::Difference;
use crate::places::{is_made, is_same_type};
use crate::trees::{Tree, take_link};
use px_terms::{Conj, NoMemory, ValueType, Var, VarInfo};
use std::alloc::Global;

/// Variables, conjuncts and places apart that are pushed and popped, and at any time whether the plain conjuncts
/// among them are refuted, as `sat` says.
///
/// Words and places have trees of nodes that equalities tie; a root comes below another and is taken back, so that
/// the way to a root is as long as the logarithm of its tree. A push costs some such ways. One that ties two trees
/// looks through the disequalities, of words or of places, that are held. What is pushed once the list is
/// refuted costs nothing. A pop takes back what one push did. What was taken of memory is kept.
#[derive(Drop)]
pub struct Stack {
    // The variables.
    vars: Vec<VarInfo>,
    // Nodes of words, and of places: 0, and x + 1 for the variable x.
    words: Vec<Tree>,
    places: Vec<Tree>,
    // What is known of each node.
    marks: Vec<Mark>,
    // Which roots of places have a place apart.
    owners: Vec<bool>,
    unequal_words: Vec<Difference>,
    unequal_places: Vec<Difference>,
    // What each item changed.
    steps: Vec<Step>,
}

// Whether a step says that the list is refuted.
fn is_refuted_by(step: Step) -> bool
    ensures { result ≡ is_refuted step }
{
    match step {
        Step::Refuted => true,
        Step::Quiet | Step::Claimed(_, _) => false,
        Step::Variable(refuted) => refuted,
    }
}

// Whether no value fits a variable.
fn is_made_int(info: VarInfo) -> bool
    ensures yes { result ≡ true → IsMadeInt info }
    ensures no { result ≡ false → ¬ IsMadeInt info }
{
    is_made(info) && is_same_type(info.value, ValueType::Int)
}

// Takes back a link of a change.
fn take_change(words: &mut [Tree], places: &mut [Tree], owners: &mut [bool], change: Change)
    requires words { length words.old ≡ length places.old }
    requires owners { length owners.old ≡ length places.old }
    requires inside { spec.IsChangeInside (length places.old) change }
    ensures words { words.new ≡ spec.words_undone change words.old }
    ensures places { places.new ≡ spec.places_undone change places.old }
    ensures owners { owners.new ≡ spec.owners_undone change owners.old }
{
    match change {
        Change::Nothing | Change::UnequalWords | Change::UnequalPlaces => {}
        Change::Words(link) => take_link(words, link),
        Change::Places(link) => take_link(places, link),
        Change::Null(first, second) => {
            take_link(places, second);
            take_link(places, first);
        }
        Change::Owner(root) => owners[root as usize] = false,
    }
}

// Takes back the last disequality, where a change added one.
fn take_unequal(words: &mut Vec<Difference>, places: &mut Vec<Difference>, change: Change)
    ensures words { words.new.items ≡ spec.unequal_words_undone change words.old.items }
    ensures places { places.new.items ≡ spec.unequal_places_undone change places.old.items }
{
    match change {
        Change::UnequalWords => take_last(words),
        Change::UnequalPlaces => take_last(places),
        _ => {}
    }
}

// Takes the last one.
fn take_last<T: Drop>(items: &mut Vec<T>)
    ensures { items.new.items ≡ spec.front items.old.items }
{
    let _ = items.pop();
}

impl Stack {
    /// Holds nothing. Takes no memory.
    pub fn new(alloc: Global) -> Stack
        ensures { Holds result [] }
    {
        Stack {
            vars: Vec::new(alloc),
            words: Vec::new(alloc),
            places: Vec::new(alloc),
            marks: Vec::new(alloc),
            owners: Vec::new(alloc),
            unequal_words: Vec::new(alloc),
            unequal_places: Vec::new(alloc),
            steps: Vec::new(alloc),
        }
    }

    /// Whether the plain conjuncts that it holds are refuted. Takes no memory.
    pub fn refuted(&self) -> bool
        ensures { (items : List HeldItem) → Holds self.now items → (result ≡ true ↔ IsPlainlyRefuted (held_vars items) (held_conjuncts items)) }
    {
        self.is_closed()
    }

    // Whether the last step says so.
    fn is_closed(&self) -> bool
        ensures { result ≡ is_refuted (last_step self.now.steps.items) }
    {
        let count = self.steps.len();
        if count == 0 {
            return false;
        }
        is_refuted_by(self.steps[count - 1])
    }

    // Makes room for one item, and for the node of 0.
    fn make_room(&mut self) -> Result<(), NoMemory>
        ensures same { content self.new ≡ content self.old }
        ensures room { OnOk result (HasRoom self.new) }
    {
        self.vars.reserve(1)?;
        self.words.reserve(2)?;
        self.places.reserve(2)?;
        self.marks.reserve(2)?;
        self.owners.reserve(2)?;
        self.unequal_words.reserve(1)?;
        self.unequal_places.reserve(1)?;
        self.steps.reserve(1)?;
        Ok(())
    }

    // Adds the node of 0, if it isn't there.
    fn begin(&mut self)
        requires { HasRoom self.old }
        ensures space { HasSpace self.new }
        ensures ready { IsReady (content self.old) (content self.new) }
    {
        if self.words.is_empty() {
            let ground = Tree {
                parent: 0,
                offset: 0,
                rank: 0,
            };
            self.words.push_reserved(ground);
            self.places.push_reserved(ground);
            self.marks.push_reserved(Mark::Free);
            self.owners.push_reserved(false);
        }
    }

    // Adds what a claim says. None, and nothing changed, where it can't hold.
    fn change(&mut self, claim: Claim) -> Option<Change>
        requires space { HasSpace self.old }
        requires take { CanTake (content self.old) claim }
        ensures changed { Changed (content self.old) claim (content self.new) result }
        ensures steps { self.new.steps ≡ self.old.steps }
    {
        match claim {
            Claim::Words(difference) => change_words(
                &mut self.words,
                &mut self.unequal_words,
                difference,
            ),
            Claim::Places(difference) => change_places(
                &self.vars,
                &mut self.places,
                &mut self.unequal_places,
                &self.owners,
                difference,
            ),
            Claim::Apart(node) => change_apart(&self.places, &mut self.owners, node),
            _ => Some(Change::Nothing),
        }
    }

    // Adds a claim beside its step, which it gives.
    fn take(&mut self, claim: Claim) -> Step
        requires space { HasSpace self.old }
        requires take { is_refuted (last_step self.old.steps.items) ≡ false → CanTake (content self.old) claim }
        ensures takes { Takes (content self.old) claim (content self.new) result }
        ensures steps { self.new.steps ≡ self.old.steps }
    {
        if self.is_closed() {
            return Step::Refuted;
        }
        if let Claim::Nothing = claim {
            return Step::Quiet;
        }
        let ends = ends_of(&self.marks, claim);
        if !may_mark(&self.vars, &self.marks, claim) {
            return Step::Refuted;
        }
        let Some(change) = self.change(claim) else {
            return Step::Refuted;
        };
        put_marks(&mut self.marks, ends, mark_of(claim));
        Step::Claimed(ends, change)
    }
}

impl Stack {
    // Adds the nodes of a variable.
    fn add_node(&mut self, info: VarInfo)
        requires space { HasSpace self.old }
        requires few { length self.old.words.items < 2 ^ 32 }
        ensures nodes { content self.new ≡ with_node (content self.old) info }
        ensures steps { self.new.steps ≡ self.old.steps }
    {
        let node = Tree {
            parent: self.words.len() as u32,
            offset: 0,
            rank: 0,
        };
        self.vars.push_reserved(info);
        self.words.push_reserved(node);
        self.places.push_reserved(node);
        self.marks.push_reserved(Mark::Free);
        self.owners.push_reserved(false);
    }

    // Takes the nodes of the last variable.
    fn drop_node(&mut self)
        ensures { content self.new ≡ spec.before (Step.Variable true) (content self.old) }
    {
        take_last(&mut self.vars);
        take_last(&mut self.words);
        take_last(&mut self.places);
        take_last(&mut self.marks);
        take_last(&mut self.owners);
    }

    // Takes back a claim.
    fn take_claim(&mut self, ends: Ends, change: Change)
        requires places { length self.old.places.items ≡ length self.old.words.items }
        requires owners { length self.old.owners.items ≡ length self.old.words.items }
        requires marks { length self.old.marks.items ≡ length self.old.words.items }
        requires inside { spec.IsStepInside (length self.old.words.items) (Step.Claimed ends change) }
        ensures { content self.new ≡ spec.before (Step.Claimed ends change) (content self.old) }
    {
        take_change(&mut self.words, &mut self.places, &mut self.owners, change);
        take_unequal(&mut self.unequal_words, &mut self.unequal_places, change);
        take_marks(&mut self.marks, ends);
    }

    /// Adds a variable. After `NoMemory` nothing has changed.
    pub fn push_var(&mut self, info: VarInfo) -> Result<(), NoMemory>
        requires { (items : List HeldItem) × Holds self.old items × (length (held_vars items) < 65536) }
        ensures pushed { OnOk result ((items : List HeldItem) → Holds self.old items → Holds self.new (OfVar info ∷ items)) }
        ensures failed { OnErr result ((items : List HeldItem) → Holds self.old items → Holds self.new items) }
    {
        self.make_room()?;
        self.begin();
        let refuted = self.is_closed();
        let other = is_made_int(info);
        self.add_node(info);
        self.steps.push_reserved(Step::Variable(refuted | other));
        Ok(())
    }

    /// Adds a conjunct. One that isn't plain changes no answer. After `NoMemory` nothing has changed.
    pub fn push(&mut self, conjunct: &Conj) -> Result<(), NoMemory>
        requires { (items : List HeldItem) × Holds self.old items × IsWellSorted (held_vars items) conjunct.now × (held_count items < 65536) }
        ensures pushed { OnOk result ((items : List HeldItem) → Holds self.old items → Holds self.new (OfConj conjunct.now ∷ items)) }
        ensures failed { OnErr result ((items : List HeldItem) → Holds self.old items → Holds self.new items) }
    {
        self.make_room()?;
        self.begin();
        let step = self.take(claim_of(conjunct));
        self.steps.push_reserved(step);
        Ok(())
    }

    /// Says that a pointer isn't null, and another place than all that were said to be apart before. After `NoMemory`
    /// nothing has changed.
    pub fn push_apart(&mut self, place: Var) -> Result<(), NoMemory>
        requires { (items : List HeldItem) × Holds self.old items × IsPointerVariable (held_vars items) place.0 × (held_count items < 65536) }
        ensures pushed { OnOk result ((items : List HeldItem) → Holds self.old items → Holds self.new (OfApart place.0 ∷ items)) }
        ensures failed { OnErr result ((items : List HeldItem) → Holds self.old items → Holds self.new items) }
    {
        self.make_room()?;
        self.begin();
        let step = self.take(Claim::Apart(place.0 + 1));
        self.steps.push_reserved(step);
        Ok(())
    }

    /// Takes back the item that was pushed last. Takes no memory.
    pub fn pop(&mut self)
        requires { (i : HeldItem) × (items : List HeldItem) × Holds self.old (i ∷ items) }
        ensures { (i : HeldItem) (items : List HeldItem) → Holds self.old (i ∷ items) → Holds self.new items }
    {
        let Some(step) = self.steps.pop() else {
            return;
        };
        match step {
            Step::Refuted | Step::Quiet => {}
            Step::Variable(_) => self.drop_node(),
            Step::Claimed(ends, change) => self.take_claim(ends, change),
        }
    }
}

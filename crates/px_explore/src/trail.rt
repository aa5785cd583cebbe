ghost use Rattle.std.specs.Prelude.{◌≡◌, ◌↔◌, ℕ, ◌+◌, ◌<◌, ◌≤◌, List, [], ◌∷◌, ◌++◌, All, length, map, drop, take, true, IfOk, IfErr, OnOk, OnErr};
ghost use Rattle.px_terms.specs.Conjuncts.{IsWellSorted, IsPointerVariable};
ghost use Rattle.px_terms.specs.declared.variables.VarInfo.{VarInfo as InfoOf};
ghost use Rattle.px_terms.specs.declared.conjuncts.Conj.{Conj as ConjOf};
ghost use Rattle.px_plain.specs.Held.{HeldItem, OfVar, OfConj, OfApart, held_vars, held_conjuncts, held_count};
ghost use Rattle.px_plain.specs.Models.{IsPlainlyRefuted};
ghost use Rattle.px_solver.specs.Decisions.{IsRefuted};
ghost use Rattle.px_callgraph.specs.Laws.{HasPlaces, IsAskable};
ghost use Rattle.px_callgraph.specs.declared.states.State.{State as StateOf};
ghost use Rattle.px_explore.specs.Trails.{IsStacked, IsOn, IsKept, Stacks, PutsOn, IsAt, IsBehind, Reaches, AreOf, found_places};
ghost use Rattle.px_explore.specs.Pushes.{TakesVars, TakesConjuncts, TakesPlace, TakesPlaces};

use px_callgraph::State;
use px_entry::Atom;
use px_match::is_made;
use px_plain::Stack;
use px_solver::{pop, push, refuted_now};
use px_terms::{Conj, Domain, NoMemory, Var, VarInfo};
use std::alloc::Global;

// Who holds an item.
#[derive(Clone, Copy, Debug, PartialEq, Eq)]
pub(crate) enum Holder {
    // The stack: a variable, or a place apart.
    Alone,
    // The stack and the domains: a conjunct.
    Everywhere,
}

// What the stack and the domains hold of the state where the search stands.
//
// States share what they begin with: a state is reached from an earlier one by what it has more, and the search goes
// back to a point of choice by taking off what was put on since.
#[derive(Drop)]
pub(crate) struct Trail {
    stack: Stack,
    // Who holds each item, the last one last.
    holders: Vec<Holder>,
    // How many variables, conjuncts and blocks the state has that was last gone back to.
    vars: usize,
    pure: usize,
    atoms: usize,
}

// ---- one item

impl Trail {
    // Holds nothing.
    pub(crate) fn new(alloc: Global) -> Trail
        ensures stacked { IsStacked result [] }
        ensures vars { result.vars ≡ 0 }
        ensures pure { result.pure ≡ 0 }
        ensures atoms { result.atoms ≡ 0 }
    {
        Trail {
            stack: Stack::new(alloc),
            holders: Vec::new(alloc),
            vars: 0,
            pure: 0,
            atoms: 0,
        }
    }

    // How many items are held.
    pub(crate) fn len(&self) -> usize
        ensures { (items : List HeldItem) → IsStacked self.now items → result ≡ length items }
    {
        self.holders.len()
    }

    fn push_var(&mut self, info: VarInfo) -> Result<(), NoMemory>
        requires { (items : List HeldItem) × IsStacked self.old items × (length (held_vars items) < 65536) }
        ensures pushed { OnOk result ((items : List HeldItem) → IsStacked self.old items → IsStacked self.new (OfVar info ∷ items)) }
        ensures failed { OnErr result ((items : List HeldItem) → IsStacked self.old items → IsStacked self.new items) }
    {
        self.holders.reserve(1)?;
        self.stack.push_var(info)?;
        self.holders.push_reserved(Holder::Alone);
        Ok(())
    }

    fn push_apart(&mut self, place: Var) -> Result<(), NoMemory>
        requires { (items : List HeldItem) × IsStacked self.old items × IsPointerVariable (held_vars items) place.0 × (held_count items < 65536) }
        ensures pushed { OnOk result ((items : List HeldItem) → IsStacked self.old items → IsStacked self.new (OfApart place.0 ∷ items)) }
        ensures failed { OnErr result ((items : List HeldItem) → IsStacked self.old items → IsStacked self.new items) }
    {
        self.holders.reserve(1)?;
        self.stack.push_apart(place)?;
        self.holders.push_reserved(Holder::Alone);
        Ok(())
    }

    fn push_conjunct(
        &mut self,
        conjunct: &Conj,
        domains: &mut Vec<Box<dyn Domain>>,
    ) -> Result<(), NoMemory>
        requires { (items : List HeldItem) × IsOn self.old (λ cs. All (λ b. holds b cs) domains.old.items) items × (length (held_vars items) ≤ 65536) × IsWellSorted (held_vars items) conjunct.now × (held_count items < 65536) }
        ensures pushed { OnOk result ((items : List HeldItem) → IsOn self.old (λ cs. All (λ b. holds b cs) domains.old.items) items → IsOn self.new (λ cs. All (λ b. holds b cs) domains.new.items) (OfConj conjunct.now ∷ items)) }
        ensures failed { IfErr result (λ e. (items : List HeldItem) → IsOn self.old (λ cs. All (λ b. holds b cs) domains.old.items) items → IsOn self.new (λ cs. All (λ b. holds b cs) domains.new.items) items) }
        ensures kinds { map (λ b. number b) domains.new.items ≡ map (λ b. number b) domains.old.items }
    {
        self.holders.reserve(1)?;
        push(&mut self.stack, domains, conjunct)?;
        self.holders.push_reserved(Holder::Everywhere);
        Ok(())
    }

    // Takes off the last item.
    fn pop_item(&mut self, domains: &mut Vec<Box<dyn Domain>>)
        requires { (i : HeldItem) × (items : List HeldItem) × IsOn self.old (λ cs. All (λ b. holds b cs) domains.old.items) (i ∷ items) }
        ensures popped { (i : HeldItem) (items : List HeldItem) → IsOn self.old (λ cs. All (λ b. holds b cs) domains.old.items) (i ∷ items) → IsOn self.new (λ cs. All (λ b. holds b cs) domains.new.items) items }
        ensures kinds { map (λ b. number b) domains.new.items ≡ map (λ b. number b) domains.old.items }
    {
        match self.holders.pop() {
            Some(Holder::Everywhere) => pop(&mut self.stack, domains),
            Some(Holder::Alone) => self.stack.pop(),
            None => {}
        }
    }
}

// ---- what a state has more

impl Trail {
    // Puts on the variables from a number on.
    fn push_vars(&mut self, vars: &[VarInfo], from: usize) -> Result<(), NoMemory>
        requires { TakesVars self.old vars.now from }
        ensures pushed { OnOk result (Stacks self.old self.new (drop from vars.now) []) }
        ensures failed { IfErr result (λ e. (some : List InfoOf) × Stacks self.old self.new some []) }
    {
        for n in from..vars.len() {
            self.push_var(vars[n])?;
        }
        Ok(())
    }

    // Puts on the conjuncts from a number on.
    fn push_conjuncts(
        &mut self,
        pure: &[Conj],
        from: usize,
        domains: &mut Vec<Box<dyn Domain>>,
    ) -> Result<(), NoMemory>
        requires { TakesConjuncts self.old (λ cs. All (λ b. holds b cs) domains.old.items) pure.now from }
        ensures pushed { OnOk result (PutsOn self.old (λ cs. All (λ b. holds b cs) domains.old.items) self.new (λ cs. All (λ b. holds b cs) domains.new.items) (drop from pure.now)) }
        ensures failed { IfErr result (λ e. (some : List ConjOf) × PutsOn self.old (λ cs. All (λ b. holds b cs) domains.old.items) self.new (λ cs. All (λ b. holds b cs) domains.new.items) some) }
        ensures kinds { map (λ b. number b) domains.new.items ≡ map (λ b. number b) domains.old.items }
    {
        for n in from..pure.len() {
            self.push_conjunct(&pure[n], domains)?;
        }
        Ok(())
    }

    // Puts on the place of a block, unless it is made.
    fn push_place(&mut self, vars: &[VarInfo], atom: &Atom) -> Result<(), NoMemory>
        requires { TakesPlace self.old vars.now atom.now }
        ensures pushed { OnOk result (Stacks self.old self.new [] (found_places vars.now (atom.now ∷ []))) }
        ensures failed { IfErr result (λ e. Stacks self.old self.new [] []) }
    {
        if is_made(vars, atom.place) {
            return Ok(());
        }
        self.push_apart(atom.place)
    }

    // Puts on the places of the blocks from a number on, but of those that are made.
    fn push_places(&mut self, vars: &[VarInfo], atoms: &[Atom], from: usize) -> Result<(), NoMemory>
        requires { TakesPlaces self.old vars.now atoms.now from }
        ensures pushed { OnOk result (Stacks self.old self.new [] (found_places vars.now (drop from atoms.now))) }
        ensures failed { IfErr result (λ e. (some : List ℕ) × Stacks self.old self.new [] some) }
    {
        for n in from..atoms.len() {
            self.push_place(vars, &atoms[n])?;
        }
        Ok(())
    }

    // Puts on what the state has more than the one that was last reached. After `NoMemory` some of it is held.
    pub(crate) fn reach(
        &mut self,
        state: &State,
        domains: &mut Vec<Box<dyn Domain>>,
    ) -> Result<(), NoMemory>
        requires askable { IsAskable state.now }
        requires behind { IsBehind self.old (λ cs. All (λ b. holds b cs) domains.old.items) state.now }
        ensures reached { OnOk result (Reaches self.old (λ cs. All (λ b. holds b cs) domains.old.items) self.new (λ cs. All (λ b. holds b cs) domains.new.items) state.now) }
        ensures kept { IsKept self.new (λ cs. All (λ b. holds b cs) domains.new.items) }
        ensures kinds { map (λ b. number b) domains.new.items ≡ map (λ b. number b) domains.old.items }
    {
        let pure = self.pure;
        let atoms = self.atoms;
        self.push_vars(state.vars.as_slice(), self.vars)?;
        self.push_conjuncts(state.pure.as_slice(), pure, domains)?;
        self.push_places(state.vars.as_slice(), state.atoms.as_slice(), atoms)
    }

    // Whether what is held is refuted. Takes no memory.
    pub(crate) fn is_refuted(&self, domains: &Vec<Box<dyn Domain>>) -> bool
        ensures { (items : List HeldItem) → IsOn self.now (λ cs. All (λ b. holds b cs) domains.now.items) items → (result ≡ true ↔ IsRefuted (held_vars items) (held_conjuncts items) (map (λ b. number b) domains.now.items)) }
    {
        refuted_now(&self.stack, domains)
    }

    // Whether what is held is refuted with this conjunct, which isn't held after it.
    pub(crate) fn refutes(
        &mut self,
        conjunct: &Conj,
        domains: &mut Vec<Box<dyn Domain>>,
    ) -> Result<bool, NoMemory>
        requires { (items : List HeldItem) × IsOn self.old (λ cs. All (λ b. holds b cs) domains.old.items) items × (length (held_vars items) ≤ 65536) × IsWellSorted (held_vars items) conjunct.now × (held_count items < 65536) }
        ensures answer { IfOk result (λ yes. (items : List HeldItem) → IsOn self.old (λ cs. All (λ b. holds b cs) domains.old.items) items → (yes ≡ true ↔ IsRefuted (held_vars items) (held_conjuncts (OfConj conjunct.now ∷ items)) (map (λ b. number b) domains.old.items))) }
        ensures on { (items : List HeldItem) → IsOn self.old (λ cs. All (λ b. holds b cs) domains.old.items) items → IsOn self.new (λ cs. All (λ b. holds b cs) domains.new.items) items }
        ensures kinds { map (λ b. number b) domains.new.items ≡ map (λ b. number b) domains.old.items }
    {
        self.push_conjunct(conjunct, domains)?;
        let refuted = self.is_refuted(domains);
        self.pop_item(domains);
        Ok(refuted)
    }

    // Whether the stack refutes what it holds with this conjunct, which isn't held after it. The domains aren't asked: of
    // places, and of what is written, they say nothing.
    pub(crate) fn refutes_plainly(&mut self, conjunct: &Conj) -> Result<bool, NoMemory>
        requires { (items : List HeldItem) × IsStacked self.old items × IsWellSorted (held_vars items) conjunct.now × (held_count items < 65536) }
        ensures answer { IfOk result (λ yes. (items : List HeldItem) → IsStacked self.old items → (yes ≡ true ↔ IsPlainlyRefuted (held_vars items) (held_conjuncts (OfConj conjunct.now ∷ items)))) }
        ensures stacked { (items : List HeldItem) → IsStacked self.old items → IsStacked self.new items }
    {
        self.stack.push(conjunct)?;
        let refuted = self.stack.refuted();
        self.stack.pop();
        Ok(refuted)
    }

    // The same with this place apart.
    pub(crate) fn refutes_apart(&mut self, place: Var) -> Result<bool, NoMemory>
        requires { (items : List HeldItem) × IsStacked self.old items × IsPointerVariable (held_vars items) place.0 × (held_count items < 65536) }
        ensures answer { IfOk result (λ yes. (items : List HeldItem) → IsStacked self.old items → (yes ≡ true ↔ IsPlainlyRefuted (held_vars items) (held_conjuncts (OfApart place.0 ∷ items)))) }
        ensures stacked { (items : List HeldItem) → IsStacked self.old items → IsStacked self.new items }
    {
        self.stack.push_apart(place)?;
        let refuted = self.stack.refuted();
        self.stack.pop();
        Ok(refuted)
    }
}

// ---- going back

impl Trail {
    // Takes off what was put upon so many items. Takes no memory.
    fn take_off(&mut self, held: usize, domains: &mut Vec<Box<dyn Domain>>)
        requires { (above : List HeldItem) × (items : List HeldItem) × IsOn self.old (λ cs. All (λ b. holds b cs) domains.old.items) (above ++ items) × (held ≡ length items) }
        ensures off { (above items : List HeldItem) → IsOn self.old (λ cs. All (λ b. holds b cs) domains.old.items) (above ++ items) → held ≡ length items → IsOn self.new (λ cs. All (λ b. holds b cs) domains.new.items) items }
        ensures kinds { map (λ b. number b) domains.new.items ≡ map (λ b. number b) domains.old.items }
    {
        while self.holders.len() > held {
            self.pop_item(domains);
        }
    }

    // Goes back to a state of which so many items were held. Takes no memory.
    pub(crate) fn go_back(&mut self, held: usize, state: &State, domains: &mut Vec<Box<dyn Domain>>)
        requires places { HasPlaces state.now }
        requires held { (above : List HeldItem) × (items : List HeldItem) × IsOn self.old (λ cs. All (λ b. holds b cs) domains.old.items) (above ++ items) × (held ≡ length items) × AreOf state.now items }
        ensures kept { IsKept self.new (λ cs. All (λ b. holds b cs) domains.new.items) }
        ensures at { (above items : List HeldItem) → IsOn self.old (λ cs. All (λ b. holds b cs) domains.old.items) (above ++ items) → held ≡ length items → AreOf state.now items → IsAt self.new (λ cs. All (λ b. holds b cs) domains.new.items) state.now items }
        ensures kinds { map (λ b. number b) domains.new.items ≡ map (λ b. number b) domains.old.items }
    {
        self.take_off(held, domains);
        self.vars = state.vars.len();
        self.pure = state.pure.len();
        self.atoms = state.atoms.len();
    }

    // Takes off all. Takes no memory.
    pub(crate) fn clear(&mut self, domains: &mut Vec<Box<dyn Domain>>)
        requires { IsKept self.old (λ cs. All (λ b. holds b cs) domains.old.items) }
        ensures clear { All (λ b. holds b []) domains.new.items }
        ensures kinds { map (λ b. number b) domains.new.items ≡ map (λ b. number b) domains.old.items }
    {
        self.take_off(0, domains);
    }
}

ghost use Rattle.std.specs.Prelude.{◌≡◌, ◌↔◌, ◌≤◌, true, length, take, slice_get, Some};
ghost use Rattle.px_entry.specs.declared.derivations.Step.{Step as StepOf};

use px_entry::{Derivation, Step};
use px_terms::{ByValue, NoMemory};
use std::alloc::Global;

/// Which places derivations share with those before them, and at which of them later ones go on. It decides what is
/// done once, and nothing that is answered.
#[derive(Drop)]
pub(crate) struct Plan {
    // Of each derivation how many steps it has in common with the one before.
    shared: Vec<usize>,
    // Of each the places that are worth a fork, the furthest first.
    wanted: Vec<Vec<usize>>,
}

/// A place where a derivation goes its own way.
#[derive(Clone, Copy)]
struct Turnoff {
    number: usize,
    place: usize,
}

impl Plan {
    /// Of no derivations. Takes no memory.
    pub(crate) fn new(alloc: Global) -> Plan {
        Plan {
            shared: Vec::new(alloc),
            wanted: Vec::new(alloc),
        }
    }

    /// Of these derivations, in order.
    pub(crate) fn of(alloc: Global, derivations: &[Derivation]) -> Result<Plan, NoMemory> {
        let shared = shared_places(alloc, derivations)?;
        let wanted = wanted_places(alloc, &shared)?;
        Ok(Plan { shared, wanted })
    }

    /// How many steps the derivation with this number has in common with the one before.
    pub(crate) fn shared_at(&self, number: usize) -> usize {
        match self.shared.get(number) {
            Some(place) => *place,
            None => 0,
        }
    }

    /// The places at which later derivations leave that with this number, the furthest first.
    pub(crate) fn wanted_at(&self, number: usize) -> &[usize] {
        match self.wanted.get(number) {
            Some(places) => places.as_slice(),
            None => &[],
        }
    }
}

// Whether this step stands at this place.
fn is_at(steps: &[Step], place: usize, step: &Step) -> bool
    ensures { result ≡ true ↔ slice_get steps.now place ≡ Some step.now }
{
    match steps.get(place) {
        Some(here) => here.equals(step),
        None => false,
    }
}

/// With how many steps of the first both begin.
pub(crate) fn shared_steps(first: &[Step], second: &[Step]) -> usize
    ensures same { take result first.now ≡ take result second.now }
    ensures within { result ≤ length first.now }
{
    for i in 0..first.len() {
        if !is_at(second, i, &first[i]) {
            return i;
        }
    }
    first.len()
}

// Of each derivation how many steps it has in common with the one before; the first has none.
fn shared_places(alloc: Global, derivations: &[Derivation]) -> Result<Vec<usize>, NoMemory> {
    let mut shared = Vec::new(alloc);
    let mut before: &[Step] = &[];
    for derivation in derivations {
        let steps = derivation.steps.as_slice();
        shared.push(shared_steps(before, steps))?;
        before = steps;
    }
    Ok(shared)
}

// Takes those off that stand behind a place.
fn close(open: &mut Vec<Turnoff>, place: usize) {
    while let Some(last) = open.last() {
        if last.place <= place {
            return;
        }
        open.pop();
    }
}

// Adds a place to those of a derivation.
fn want(wanted: &mut Vec<Vec<usize>>, number: usize, place: usize) -> Result<(), NoMemory> {
    if let Some(places) = wanted.get_mut(number) {
        places.push(place)?;
    }
    Ok(())
}

// Where derivations have so many steps in common with those before: a place is reached by the last derivation before
// that has fewer in common with its own, unless one between has as many, which then goes on at the same place.
fn wanted_places(alloc: Global, shared: &[usize]) -> Result<Vec<Vec<usize>>, NoMemory> {
    let mut wanted = Vec::new(alloc);
    let mut open = Vec::new(alloc);
    for number in 0..shared.len() {
        let place = shared[number];
        wanted.push(Vec::new(alloc))?;
        close(&mut open, place);
        if let Some(last) = open.last() {
            if last.place < place {
                want(&mut wanted, last.number, place)?;
            } else {
                open.pop();
            }
        }
        open.push(Turnoff { number, place })?;
    }
    Ok(wanted)
}

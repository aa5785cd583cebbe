ghost use Rattle.std.specs.Prelude.{◌≡◌, ◌↔◌, [], ◌∷◌, ◌++◌, true, drop, map, reverse, OnOk, OnErr};
ghost use Rattle.px_interval.specs.Gaps.{variable_of, gaps_on};
ghost use Rattle.px_interval.specs.Kept.{without};

use crate::bounds::Bound;
use crate::gaps::{Gap, add_gaps};
use px_chains::Chains;
use std::alloc::{AllocError, Global};
use std::marker::Model;

// A bound, and how many conjuncts are held before the one that it is.
#[derive(Clone, Copy)]
pub(crate) struct Kept {
    pub(crate) bound: Bound,
    pub(crate) at: u32,
}

// The bounds that conjuncts are. Those on one variable are linked. Contracts see the list, the last one first.
#[derive(Drop)]
pub(crate) struct KeptBounds {
    bounds: Vec<Kept>,
    variables: Chains,
}

impl Model for KeptBounds {
    ghost use Rattle.std.specs.Prelude.{◌≡◌, List, map, reverse};
    ghost use Rattle.px_interval.specs.declared.kept.Kept.{Kept as KeptOf};
    ghost use Rattle.px_interval.specs.Gaps.{variable_of};

    ghost Value = { List KeptOf };

    ghost view = { λ k. reverse k.bounds.items };

    ghost invariant = { λ k. k.variables ≡ map variable_of k.bounds.items };
}

impl KeptBounds {
    // None. Takes no memory.
    pub(crate) fn new(alloc: Global) -> KeptBounds
        ensures { result ≡ [] }
    {
        KeptBounds {
            bounds: Vec::new(alloc),
            variables: Chains::new(alloc),
        }
    }

    // Whether there are none. Takes no memory.
    pub(crate) fn is_empty(&self) -> bool
        ensures { result ≡ true ↔ self.now ≡ [] }
    {
        self.bounds.is_empty()
    }

    // Adds a bound.
    pub(crate) fn push(&mut self, kept: Kept) -> Result<(), AllocError>
        ensures added { OnOk result (self.new ≡ kept ∷ self.old) }
        ensures refused { OnErr result (self.new ≡ self.old) }
    {
        chain(&mut self.bounds, &mut self.variables, kept)
    }

    // Takes the last bound away, if there are so many conjuncts before it. Takes no memory.
    pub(crate) fn pop(&mut self, at: u32)
        ensures { self.new ≡ without at self.old }
    {
        let Some(last) = self.bounds.last() else {
            return;
        };
        if last.at == at {
            self.bounds.pop();
            self.variables.pop();
        }
    }

    // Adds what the bounds on a variable leave out, and looks at no other.
    pub(crate) fn add_gaps(&self, variable: u32, gaps: &mut Vec<Gap>) -> Result<(), AllocError>
        ensures { OnOk result (gaps.new.items ≡ gaps.old.items ++ gaps_on variable self.now) }
    {
        gather(&self.bounds, &self.variables, variable, gaps)
    }
}

// Adds a bound, and links it to the one before it on the same variable.
fn chain(bounds: &mut Vec<Kept>, variables: &mut Chains, kept: Kept) -> Result<(), AllocError>
    requires { variables.old ≡ map variable_of bounds.old.items }
    ensures chained { variables.new ≡ map variable_of bounds.new.items }
    ensures added { OnOk result (bounds.new.items ≡ bounds.old.items ++ kept ∷ []) }
    ensures refused { OnErr result (bounds.new.items ≡ bounds.old.items) }
{
    bounds.push(kept)?;
    if let Err(fault) = variables.push(kept.bound.variable) {
        bounds.pop();
        return Err(fault);
    }
    Ok(())
}

// Adds what the bounds on a variable leave out, from the last one to the first.
fn gather(
    bounds: &[Kept],
    variables: &Chains,
    variable: u32,
    gaps: &mut Vec<Gap>,
) -> Result<(), AllocError>
    requires { variables.now ≡ map variable_of bounds.now }
    ensures { OnOk result (gaps.new.items ≡ gaps.old.items ++ gaps_on variable (reverse bounds.now)) }
{
    let mut end = variables.end_of(variable);
    while end > 0 {
        let place = end - 1;
        add_gaps(gaps, bounds[place].bound)?;
        end = variables.end_before(place);
    }
    Ok(())
}

ghost use Rattle.std.specs.Prelude.{◌≡◌, ◌↔◌, [], ◌∷◌, ◌++◌, true, false, length, map, take, IfOk, OnOk, OnErr};
ghost use Rattle.px_order.specs.Comparisons.{HaveNoSolution, first_compared};

use crate::comparisons::Comparison;
use crate::search::Search;
use px_chains::Chains;
use std::alloc::{AllocError, Global};
use std::marker::Model;

// How many conjuncts and comparisons are held before a conjunct.
#[derive(Clone, Copy)]
pub(crate) struct Start {
    pub(crate) conjunct: u32,
    pub(crate) comparison: usize,
}

// Comparisons. Those that have one variable first are linked. Contracts see the list.
#[derive(Drop)]
pub(crate) struct KeptComparisons {
    comparisons: Vec<Comparison>,
    firsts: Chains,
    search: Search,
}

impl Model for KeptComparisons {
    ghost use Rattle.std.specs.Prelude.{List};
    ghost use Rattle.px_order.specs.declared.comparisons.Comparison.{Comparison as ComparisonOf};
    ghost use Rattle.px_order.specs.Comparisons.{AreChained};

    ghost Value = { List ComparisonOf };

    ghost view = { λ k. k.comparisons.items };

    ghost invariant = { λ k. AreChained k.comparisons.items k.firsts k.search };
}

impl KeptComparisons {
    // None. Takes no memory.
    pub(crate) fn new(alloc: Global) -> KeptComparisons
        ensures { result ≡ [] }
    {
        KeptComparisons {
            comparisons: Vec::new(alloc),
            firsts: Chains::new(alloc),
            search: Search::new(alloc),
        }
    }

    // How many there are. Takes no memory.
    pub(crate) fn len(&self) -> usize
        ensures { result ≡ length self.now }
    {
        self.comparisons.len()
    }

    // Whether there are none. Takes no memory.
    pub(crate) fn is_empty(&self) -> bool
        ensures { result ≡ true ↔ self.now ≡ [] }
    {
        self.comparisons.is_empty()
    }

    // Adds a comparison, unless there is no solution then. Whether it was added.
    pub(crate) fn add(&mut self, comparison: Comparison) -> Result<bool, AllocError>
        ensures added { IfOk result (λ yes. yes ≡ true → self.new ≡ self.old ++ comparison ∷ []) }
        ensures solvable { IfOk result (λ yes. yes ≡ true → HaveNoSolution (self.old ++ comparison ∷ []) → HaveNoSolution self.old) }
        ensures same { IfOk result (λ yes. yes ≡ false → self.new ≡ self.old) }
        ensures closed { IfOk result (λ yes. yes ≡ false → HaveNoSolution (self.old ++ comparison ∷ [])) }
        ensures failed { OnErr result (self.new ≡ self.old) }
    {
        self.search
            .make_room(comparison.first.max(comparison.second))?;
        if self
            .search
            .closes(&self.comparisons, &self.firsts, comparison)?
        {
            return Ok(false);
        }
        chain(&mut self.comparisons, &mut self.firsts, comparison)?;
        Ok(true)
    }

    // Leaves the first ones, so many of them. Takes no memory.
    pub(crate) fn truncate(&mut self, count: usize)
        ensures { self.new ≡ take count self.old }
    {
        self.comparisons.truncate(count);
        self.firsts.truncate(count);
    }
}

// Adds a comparison, and links it to the one before it with the same first variable.
fn chain(
    comparisons: &mut Vec<Comparison>,
    firsts: &mut Chains,
    comparison: Comparison,
) -> Result<(), AllocError>
    requires { firsts.old ≡ map first_compared comparisons.old.items }
    ensures chained { firsts.new ≡ map first_compared comparisons.new.items }
    ensures added { OnOk result (comparisons.new.items ≡ comparisons.old.items ++ comparison ∷ []) }
    ensures refused { OnErr result (comparisons.new.items ≡ comparisons.old.items) }
{
    comparisons.push(comparison)?;
    if let Err(fault) = firsts.push(comparison.first) {
        comparisons.pop();
        return Err(fault);
    }
    Ok(())
}

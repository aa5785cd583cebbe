ghost use Rattle.std.specs.Prelude.{◌≡◌, [], ◌∷◌, ◌++◌, true, false, length, take, IfOk, IfSome, IfNone, OnErr, ◌<◌, All};
ghost use Rattle.px_order.specs.Comparisons.{HaveNoSolution};
ghost use Rattle.px_order.specs.Kept.{IsNotLast};
ghost use Rattle.px_order.specs.Held.{HoldsConjuncts};

use crate::comparisons::{Comparison, add_conjunct, read_comparisons};
use crate::kept::{KeptComparisons, Start};
use crate::links::{is_some_strict_within, links};
use px_components::Components;
use px_terms::{Conj, Domain, NoMemory, VarInfo};
use std::alloc::{AllocError, Global};

/// Rules conjuncts out where those of them that compare two variables have no solution in the integers: `Less`
/// and `AtMost` between two variables, and `Equal` of the difference of two. Its kind is 3.
///
/// The time of `refutes` is linear in the conjuncts and variables. Nothing is allocated where there are no such conjuncts. The
/// time of `push` is linear in the comparisons that lead on from the variables of the conjunct; where it compares nothing, or
/// the list is ruled out already, it is constant, and no memory is taken. That of `pop` and `refuted` is constant.
#[derive(Drop)]
pub struct Order {
    alloc: Global,
    // How many conjuncts it holds that aren't ruled out with those before them.
    count: u32,
    // What these say of two variables.
    kept: KeptComparisons,
    // Where in it begins what each of these says that says something.
    starts: Vec<Start>,
    // How many it holds that are ruled out with those before them: all from the first such one on.
    beyond: u32,
    // Room for what one conjunct says.
    added: Vec<Comparison>,
}

impl Order {
    /// It holds nothing. Takes no memory.
    pub fn new(alloc: Global) -> Order
        ensures { HoldsConjuncts result [] }
    {
        Order {
            alloc,
            count: 0,
            kept: KeptComparisons::new(alloc),
            starts: Vec::new(alloc),
            beyond: 0,
            added: Vec::new(alloc),
        }
    }
}

// Adds comparisons as long as there is a solution. Whether there is one with all of them.
fn add_each(kept: &mut KeptComparisons, added: &[Comparison]) -> Result<bool, AllocError>
    ensures front { take (length kept.old) kept.new ≡ kept.old }
    ensures added { IfOk result (λ yes. yes ≡ true → kept.new ≡ kept.old ++ added.now) }
    ensures solvable { IfOk result (λ yes. yes ≡ true → HaveNoSolution (kept.old ++ added.now) → HaveNoSolution kept.old) }
    ensures closed { IfOk result (λ yes. yes ≡ false → HaveNoSolution (kept.old ++ added.now)) }
{
    for comparison in added {
        if !kept.add(*comparison)? {
            return Ok(false);
        }
    }
    Ok(true)
}

// Adds what a conjunct says as long as there is a solution. Whether there is one with all of it.
fn keep(
    kept: &mut KeptComparisons,
    starts: &mut Vec<Start>,
    added: &[Comparison],
    conjunct: u32,
) -> Result<bool, AllocError>
    ensures front { take (length kept.old) kept.new ≡ kept.old }
    ensures started { IfOk result (λ yes. yes ≡ true → starts.new.items ≡ starts.old.items ++ record { conjunct = conjunct; comparison = length kept.old } ∷ []) }
    ensures added { IfOk result (λ yes. yes ≡ true → kept.new ≡ kept.old ++ added.now) }
    ensures solvable { IfOk result (λ yes. yes ≡ true → HaveNoSolution (kept.old ++ added.now) → HaveNoSolution kept.old) }
    ensures unstarted { IfOk result (λ yes. yes ≡ false → starts.new.items ≡ starts.old.items) }
    ensures closed { IfOk result (λ yes. yes ≡ false → HaveNoSolution (kept.old ++ added.now)) }
    ensures failed { OnErr result (starts.new.items ≡ starts.old.items) }
{
    let comparison = kept.len();
    if !add_each(kept, added)? {
        return Ok(false);
    }
    starts.push(Start {
        conjunct,
        comparison,
    })?;
    Ok(true)
}

// Takes the start of a conjunct away, if it is the last one: where its comparisons begin.
fn pop_start(starts: &mut Vec<Start>, conjunct: u32) -> Option<usize>
    ensures some { IfSome result (λ n. starts.old.items ≡ starts.new.items ++ record { conjunct = conjunct; comparison = n } ∷ []) }
    ensures none { IfNone result (starts.new.items ≡ starts.old.items) }
    ensures other { IfNone result (IsNotLast conjunct starts.old.items) }
{
    let last = *starts.last()?;
    if last.conjunct != conjunct {
        return None;
    }
    starts.pop();
    Some(last.comparison)
}

impl Domain for Order {
    ghost number = { λ s. 3 };

    ghost holds = { HoldsConjuncts };

    fn kind(&self) -> u8 {
        3
    }

    fn refutes(&mut self, vars: &[VarInfo], conjuncts: &[Conj]) -> Result<bool, NoMemory> {
        let comparisons = read_comparisons(self.alloc, conjuncts)?;
        if comparisons.is_empty() {
            return Ok(false);
        }
        let graph = links(self.alloc, vars.len() as u32, &comparisons)?;
        let components = Components::of(self.alloc, &graph)?;
        Ok(is_some_strict_within(&comparisons, &components.numbers))
    }

    fn is_clear(&self) -> bool {
        if self.beyond > 0 {
            return false;
        }
        if self.count > 0 {
            return false;
        }
        self.starts.is_empty() && self.kept.is_empty()
    }

    fn push(&mut self, conjunct: &Conj) -> Result<(), NoMemory> {
        if self.beyond > 0 {
            self.beyond += 1;
            return Ok(());
        }
        self.added.clear();
        add_conjunct(&mut self.added, conjunct)?;
        if self.added.is_empty() {
            self.count += 1;
            return Ok(());
        }
        let start = self.kept.len();
        match keep(&mut self.kept, &mut self.starts, &self.added, self.count) {
            Ok(true) => {
                self.count += 1;
                Ok(())
            }
            Ok(false) => {
                self.kept.truncate(start);
                self.beyond = 1;
                Ok(())
            }
            Err(_) => {
                self.kept.truncate(start);
                Err(NoMemory)
            }
        }
    }

    fn pop(&mut self) {
        if self.beyond > 0 {
            self.beyond -= 1;
            return;
        }
        self.count -= 1;
        if let Some(start) = pop_start(&mut self.starts, self.count) {
            self.kept.truncate(start);
        }
    }

    fn refuted(&self) -> bool {
        self.beyond > 0
    }
}

ghost use Rattle.std.specs.Prelude.{◌≡◌, ◌↔◌, List, [], ◌∷◌, Some, true, IfOk, ◌<◌, All};
ghost use Rattle.px_terms.specs.Rules.{RulesOut};
ghost use Rattle.px_terms.specs.declared.conjuncts.Conj.{Conj as ConjOf};
ghost use Rattle.px_interval.specs.Bounds as spec;
ghost use Rattle.px_interval.specs.Held.{HoldsConjuncts};
ghost use Rattle.px_interval.specs.Kept.{kept_of};

use crate::bounds::{Bound, bound_of};
use crate::gaps::{Gap, add_gaps, read_gaps, rule_out};
use crate::kept::{Kept, KeptBounds};
use px_terms::{Conj, Domain, NoMemory, VarInfo};
use std::alloc::{AllocError, Global};

/// Rules conjuncts out where the bounds of some variable leave it no word: `Equal` and `Unequal` of
/// `x + c` or `-x + c`, and `Less` and `AtMost` between x and a constant. Its kind is 1.
///
/// The time of `refutes` is that of sorting the bounds. Nothing is allocated where there are none. The time of `push` is that
/// of sorting the bounds of the variable that the conjunct bounds; where it bounds none, or the list is ruled out already, it
/// is constant, and no memory is taken. That of `pop` and `refuted` is constant.
#[derive(Drop)]
pub struct Interval {
    alloc: Global,
    // How many conjuncts it holds that aren't ruled out with those before them.
    count: u32,
    // The bounds that these are.
    kept: KeptBounds,
    // How many it holds that are ruled out with those before them: all from the first such one on.
    beyond: u32,
    // Room for what the bounds of a variable leave out.
    gaps: Vec<Gap>,
}

impl Interval {
    /// It holds nothing. Takes no memory.
    pub fn new(alloc: Global) -> Interval
        ensures { HoldsConjuncts result [] }
    {
        Interval {
            alloc,
            count: 0,
            kept: KeptBounds::new(alloc),
            beyond: 0,
            gaps: Vec::new(alloc),
        }
    }
}

// Whether the rule rules out the conjuncts of the kept bounds and one more, where it doesn't rule out those alone.
fn is_ruled_out(kept: &KeptBounds, gaps: &mut Vec<Gap>, bound: Bound) -> Result<bool, AllocError>
    requires { (c : ConjOf) × (cs : List ConjOf) × (spec.bound_of c ≡ Some bound) × (kept.now ≡ kept_of cs) }
    ensures { IfOk result (λ yes. (c : ConjOf) (cs : List ConjOf) → spec.bound_of c ≡ Some bound → kept.now ≡ kept_of cs → ¬ RulesOut 1 cs → (yes ≡ true ↔ RulesOut 1 (c ∷ cs))) }
{
    gaps.clear();
    add_gaps(gaps, bound)?;
    kept.add_gaps(bound.variable, gaps)?;
    Ok(rule_out(gaps))
}

impl Domain for Interval {
    ghost number = { λ s. 1 };

    ghost holds = { HoldsConjuncts };

    fn kind(&self) -> u8 {
        1
    }

    fn refutes(&mut self, _vars: &[VarInfo], conjuncts: &[Conj]) -> Result<bool, NoMemory> {
        let mut gaps = read_gaps(self.alloc, conjuncts)?;
        Ok(rule_out(&mut gaps))
    }

    fn is_clear(&self) -> bool {
        if self.beyond > 0 {
            return false;
        }
        self.count == 0 && self.kept.is_empty()
    }

    fn push(&mut self, conjunct: &Conj) -> Result<(), NoMemory> {
        if self.beyond > 0 {
            self.beyond += 1;
            return Ok(());
        }
        let Some(bound) = bound_of(conjunct) else {
            self.count += 1;
            return Ok(());
        };
        if is_ruled_out(&self.kept, &mut self.gaps, bound)? {
            self.beyond = 1;
            return Ok(());
        }
        self.kept.push(Kept {
            bound,
            at: self.count,
        })?;
        self.count += 1;
        Ok(())
    }

    fn pop(&mut self) {
        if self.beyond > 0 {
            self.beyond -= 1;
            return;
        }
        self.count -= 1;
        self.kept.pop(self.count);
    }

    fn refuted(&self) -> bool {
        self.beyond > 0
    }
}

ghost use Rattle.std.specs.Prelude.{◌≡◌, ◌≢◌, ◌↔◌, ℕ, ◌<◌, ◌≤◌, List, ◌++◌, option_to_list, flat_map, length, true, false, max, IfOk, OnOk, IsPermutation};
ghost use Rattle.px_terms.specs.Rules.{RulesOut};
ghost use Rattle.px_terms.specs.declared.conjuncts.Conj.{Conj as ConjOf};
ghost use Rattle.px_interval.specs.Gaps as spec;
ghost use Rattle.px_interval.specs.Gaps.{gap_at, IsInOrder, HavePlaces, SomeFull, NoneFull};

use crate::bounds::{Bound, PLACES, bound_of};
use px_terms::Conj;
use std::alloc::{AllocError, Global};

// Places that a variable hasn't: those from `low` on and before `end`.
#[derive(Clone, Copy)]
pub(crate) struct Gap {
    pub(crate) variable: u32,
    pub(crate) low: u32,
    pub(crate) end: u64,
}

// Adds the places from `end` on.
fn add_above(gaps: &mut Vec<Gap>, variable: u32, end: u64) -> Result<(), AllocError>
    ensures { OnOk result (gaps.new.items ≡ gaps.old.items ++ spec.above variable end) }
{
    if end < PLACES {
        gaps.push(Gap {
            variable,
            low: end as u32,
            end: PLACES,
        })?;
    }
    Ok(())
}

// Adds what a bound leaves out.
pub(crate) fn add_gaps(gaps: &mut Vec<Gap>, bound: Bound) -> Result<(), AllocError>
    ensures { OnOk result (gaps.new.items ≡ gaps.old.items ++ spec.gaps_of bound) }
{
    let Bound {
        variable,
        inside,
        low,
        end,
    } = bound;
    if !inside {
        gaps.push(Gap { variable, low, end })?;
        return Ok(());
    }
    gaps.push(Gap {
        variable,
        low: 0,
        end: u64::from(low),
    })?;
    add_above(gaps, variable, end)
}

// Adds what a conjunct leaves out.
fn add_conjunct(gaps: &mut Vec<Gap>, conjunct: &Conj) -> Result<(), AllocError>
    ensures { OnOk result (gaps.new.items ≡ gaps.old.items ++ spec.conjunct_gaps conjunct.now) }
{
    match bound_of(conjunct) {
        Some(bound) => add_gaps(gaps, bound),
        None => Ok(()),
    }
}

// What the conjuncts leave out.
pub(crate) fn read_gaps(alloc: Global, conjuncts: &[Conj]) -> Result<Vec<Gap>, AllocError>
    ensures { IfOk result (λ gs. gs.items ≡ flat_map spec.conjunct_gaps conjuncts.now) }
{
    let mut gaps = Vec::new(alloc);
    for conjunct in conjuncts {
        add_conjunct(&mut gaps, conjunct)?;
    }
    Ok(gaps)
}

// Puts gaps in the order of their variables, and of their first places where these are the same.
fn sort_gaps(gaps: &mut Vec<Gap>)
    ensures order { IsInOrder gaps.new.items }
    ensures permutation { IsPermutation gaps.old.items gaps.new.items }
{
    gaps.sort_unstable_by_key(|g| u64::from(g.variable) * PLACES + u64::from(g.low));
}

// The first place of the gap's variable that may be left, where `next` is that of `variable`.
fn place_before(variable: u32, next: u64, gap: Gap) -> u64
    ensures same { gap.variable ≡ variable → result ≡ next }
    ensures other { gap.variable ≢ variable → result ≡ 0 }
{
    if gap.variable == variable { next } else { 0 }
}

// The first place that may be left after the gap.
fn place_after(next: u64, gap: Gap) -> u64
    ensures taken { gap.low ≤ next → result ≡ max next gap.end }
    ensures left { next < gap.low → result ≡ next }
{
    if u64::from(gap.low) <= next {
        next.max(gap.end)
    } else {
        next
    }
}

// Whether the gaps of some variable leave it no place.
fn is_some_full(gaps: &[Gap]) -> bool
    requires order { IsInOrder gaps.now }
    requires places { HavePlaces gaps.now }
    ensures yes { result ≡ true → SomeFull gaps.now }
    ensures no { result ≡ false → NoneFull gaps.now }
{
    let mut variable = 0;
    let mut next = 0;
    for gap in gaps {
        let from = place_before(variable, next, *gap);
        variable = gap.variable;
        next = place_after(from, *gap);
        if PLACES <= next {
            return true;
        }
    }
    false
}

// Whether the rule rules out the conjuncts that leave this out. Puts it in order.
pub(crate) fn rule_out(gaps: &mut Vec<Gap>) -> bool
    requires { (cs : List ConjOf) × (gaps.old.items ≡ flat_map spec.conjunct_gaps cs) }
    ensures { (cs : List ConjOf) → gaps.old.items ≡ flat_map spec.conjunct_gaps cs → (result ≡ true ↔ RulesOut 1 cs) }
{
    sort_gaps(gaps);
    is_some_full(gaps)
}

ghost use Rattle.std.specs.Prelude.{◌≡◌, ℕ, ◌+◌, ◌<◌, ◌≤◌, length, true, false, IfOk, IfSome, MatchOption};
ghost use Rattle.px_terms.specs.Conjuncts.{AreWellSorted};
ghost use Rattle.px_plain.specs.Forest.{IsForest, Keeps};
ghost use Rattle.px_plain.specs.Differences.{AllEqual, AreInside, IsForestOf};
ghost use Rattle.px_plain.specs.Readings.{word_differences};

use crate::forest::{flatten, join_all, roots};
use crate::nodes::{Difference, Node};
use crate::reading::read_words;
use px_terms::{Conj, NoMemory, VarInfo};
use std::alloc::Global;

// Joins what the equalities join, and flattens. False where they can't hold.
fn join_flat(table: &mut [Node], differences: &[Difference]) -> bool
    requires forest { IsForest table.old }
    requires free { (val : ℕ → ℕ) → Keeps val table.old }
    requires inside { AreInside (length table.old) differences.now }
    ensures none { result ≡ false → (val : ℕ → ℕ) → ¬ AllEqual val differences.now }
    ensures some { result ≡ true → IsForestOf differences.now table.new }
{
    if !join_all(table, differences) {
        return false;
    }
    flatten(table);
    true
}

/// The classes of words that plain equalities tie, each by its least variable: the root of a variable's
/// node is that of its representative, or 0 where the variable is fixed. None where the equalities can't
/// hold.
pub fn word_classes(
    alloc: Global,
    vars: &[VarInfo],
    conjuncts: &[Conj],
) -> Result<Option<Vec<Node>>, NoMemory>
    requires { AreWellSorted vars.now conjuncts.now }
    ensures found { IfOk result (λ r. MatchOption r ((val : ℕ → ℕ) → ¬ AllEqual val (word_differences conjuncts.now)) (λ t. IsForestOf (word_differences conjuncts.now) t.items)) }
    ensures size { IfOk result (λ r. IfSome r (λ t. length t.items ≡ length vars.now + 1)) }
{
    let differences = read_words(alloc, conjuncts)?;
    let mut table = roots(alloc, vars.len() as u32 + 1)?;
    if !join_flat(&mut table, &differences) {
        return Ok(None);
    }
    Ok(Some(table))
}

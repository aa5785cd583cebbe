ghost use Rattle.std.specs.Prelude.{◌≡◌, ℕ, ◌+◌, ◌-◌, ◌^◌, ◌<◌, ◌≤◌, length, true, Contains, slice_index, slice_index_or, nat_eq, cond, [], IfOk, IfSome, MatchOption};
ghost use Rattle.px_plain.specs.Forest.{IsForest, IsFlat, Keeps};
ghost use Rattle.px_plain.specs.Differences.{AllHold, AreInside};
ghost use Rattle.px_plain.specs.Exclusions.{exclusion_at, taken_by, InOrder, Assigned, AreWords, IsApart, AreLeast, AreLeastOver};

use crate::exclusions::{exclude_all, sort_exclusions};
use crate::forest::{flatten, join_all, roots};
use crate::nodes::{Difference, Exclusion, Node};
use std::alloc::{AllocError, Global};

// The next number, where they are equal.
fn next_if_equal(x: u32, least: u32) -> u32
    requires { x < 2 ^ 32 - 1 }
    ensures { result ≡ cond (nat_eq x least) (least + 1) least }
{
    if x == least { least + 1 } else { least }
}

// The least number that isn't in a rising list.
fn least_missing(rising: &[u32]) -> u32
    requires in_order { (i j : ℕ) → i ≤ j → j < length rising.now → slice_index rising.now i ≤ slice_index rising.now j }
    requires few { length rising.now < 2 ^ 32 - 1 }
    ensures outside { ¬ Contains rising.now result }
    ensures least { (k : ℕ) → k < result → Contains rising.now k }
{
    let mut least = 0;
    for x in rising {
        if *x > least {
            return least;
        }
        least = next_if_equal(*x, least);
    }
    least
}

// Adds what the exclusions of a root take from it, from the one at `from` on. Gives the first one after them.
fn gather(
    taken: &mut Vec<u32>,
    values: &[u32],
    exclusions: &[Exclusion],
    from: usize,
    root: u32,
) -> Result<usize, AllocError>
    requires empty { taken.old.items ≡ [] }
    requires inside { from ≤ length exclusions.now }
    requires root { length values.now ≡ root }
    requires lower { (j : ℕ) → j < length exclusions.now → (exclusion_at exclusions.now j).low < (exclusion_at exclusions.now j).high }
    requires rising { (i j : ℕ) → i ≤ j → j < length exclusions.now → (exclusion_at exclusions.now i).high ≤ (exclusion_at exclusions.now j).high }
    requires coming { (j : ℕ) → from ≤ j → j < length exclusions.now → root ≤ (exclusion_at exclusions.now j).high }
    ensures within { IfOk result (λ k. from ≤ k × k ≤ length exclusions.now) }
    ensures count { IfOk result (λ k. length taken.new.items + from ≡ k) }
    ensures at { IfOk result (λ k. (j : ℕ) → from ≤ j → j < k → (exclusion_at exclusions.now j).high ≡ root) }
    ensures all { IfOk result (λ k. (j : ℕ) → from ≤ j → j < k → Contains taken.new.items (taken_by values.now (exclusion_at exclusions.now j))) }
    ensures order { IfOk result (λ k. (i : ℕ) → i < length taken.new.items → slice_index taken.new.items i ≡ taken_by values.now (exclusion_at exclusions.now (from + i))) }
    ensures behind { IfOk result (λ k. (j : ℕ) → k ≤ j → j < length exclusions.now → root < (exclusion_at exclusions.now j).high) }
{
    let mut next = from;
    while next < exclusions.len() && exclusions[next].high == root {
        let exclusion = exclusions[next];
        taken.push(values[exclusion.low as usize].wrapping_add(exclusion.above))?;
        next += 1;
    }
    Ok(next)
}

// Gives the next node a value: what its parent's makes it, or the least that no exclusion takes from it.
fn assign_one(
    values: &mut Vec<u32>,
    taken: &mut Vec<u32>,
    table: &[Node],
    exclusions: &[Exclusion],
    from: usize,
) -> Result<usize, AllocError>
    requires forest { IsForest table.now }
    requires order { InOrder table.now exclusions.now }
    requires few { length exclusions.now < 2 ^ 32 - 1 }
    requires size { length table.now ≤ 2 ^ 32 }
    requires inside { length values.old.items < length table.now }
    requires from_inside { from ≤ length exclusions.now }
    requires assigned { Assigned table.now exclusions.now from values.old.items }
    requires least { AreLeast table.now exclusions.now values.old.items }
    ensures length { IfOk result (λ k. length values.new.items ≡ length values.old.items + 1) }
    ensures words { IfOk result (λ _. (k d : ℕ) → k < length values.new.items → slice_index_or values.new.items k d < 2 ^ 32) }
    ensures kept { IfOk result (λ k. (v : ℕ) → v < length values.old.items → slice_index values.new.items v ≡ slice_index values.old.items v) }
    ensures within { IfOk result (λ k. k ≤ length exclusions.now) }
    ensures assigned { IfOk result (λ k. Assigned table.now exclusions.now k values.new.items) }
    ensures least { IfOk result (λ _. AreLeast table.now exclusions.now values.new.items) }
{
    let v = values.len();
    let node = table[v];
    if node.parent as usize != v {
        let value = values[node.parent as usize].wrapping_add(node.offset);
        values.push(value)?;
        return Ok(from);
    }
    taken.clear();
    let next = gather(taken, values, exclusions, from, node.parent)?;
    taken.sort_unstable();
    let value = least_missing(taken);
    values.push(value)?;
    Ok(next)
}

// Values that the forest keeps, apart in all exclusions. Each root has the least one that is left.
fn assign(alloc: Global, table: &[Node], exclusions: &[Exclusion]) -> Result<Vec<u32>, AllocError>
    requires some { 0 < length table.now }
    requires forest { IsForest table.now }
    requires order { InOrder table.now exclusions.now }
    requires few { length exclusions.now < 2 ^ 32 - 1 }
    requires size { length table.now ≤ 2 ^ 32 }
    ensures values { IfOk result (λ vs. AreWords (length table.now) vs.items) }
    ensures keeps { IfOk result (λ vs. Keeps (slice_index vs.items) table.now) }
    ensures apart { IfOk result (λ vs. (j : ℕ) → j < length exclusions.now → IsApart vs.items (exclusion_at exclusions.now j)) }
    ensures least { IfOk result (λ vs. AreLeast table.now exclusions.now vs.items) }
{
    let mut values = Vec::new(alloc);
    let mut taken = Vec::new(alloc);
    values.push(0)?;
    let mut next = 0;
    for _ in 1..table.len() {
        next = assign_one(&mut values, &mut taken, table, exclusions, next)?;
    }
    Ok(values)
}

// Values under which all differences hold; none where no values do.
fn solve_over(
    alloc: Global,
    table: &mut [Node],
    differences: &[Difference],
) -> Result<Option<Vec<u32>>, AllocError>
    requires some { 0 < length table.old }
    requires forest { IsForest table.old }
    requires free { (val : ℕ → ℕ) → Keeps val table.old }
    requires inside { AreInside (length table.old) differences.now }
    requires few { length differences.now < 2 ^ 32 - 1 }
    requires size { length table.old ≤ 2 ^ 32 }
    ensures found { IfOk result (λ r. MatchOption r ((val : ℕ → ℕ) → ¬ AllHold val differences.now) (λ vs. AllHold (slice_index vs.items) differences.now)) }
    ensures values { IfOk result (λ r. IfSome r (λ vs. AreWords (length table.old) vs.items)) }
    ensures least { IfOk result (λ r. IfSome r (λ vs. AreLeastOver differences.now vs.items)) }
{
    if !join_all(table, differences) {
        return Ok(None);
    }
    flatten(table);
    match exclude_all(alloc, table, differences)? {
        None => Ok(None),
        Some(mut exclusions) => {
            sort_exclusions(&mut exclusions);
            let values = assign(alloc, table, &exclusions)?;
            Ok(Some(values))
        }
    }
}

// Words for so many nodes, 0 for the first, under which all differences hold; none where no values do.
// They are the least ones, from the first node up.
pub(crate) fn solve_words(
    alloc: Global,
    count: u32,
    differences: &[Difference],
) -> Result<Option<Vec<u32>>, AllocError>
    requires some { 0 < count }
    requires inside { AreInside count differences.now }
    requires few { length differences.now < 2 ^ 32 - 1 }
    ensures found { IfOk result (λ r. MatchOption r ((val : ℕ → ℕ) → ¬ AllHold val differences.now) (λ vs. AllHold (slice_index vs.items) differences.now)) }
    ensures values { IfOk result (λ r. IfSome r (λ vs. AreWords count vs.items)) }
    ensures least { IfOk result (λ r. IfSome r (λ vs. AreLeastOver differences.now vs.items)) }
{
    let mut table = roots(alloc, count)?;
    solve_over(alloc, &mut table, differences)
}

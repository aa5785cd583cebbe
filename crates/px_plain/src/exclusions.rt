ghost use Rattle.std.specs.Prelude.{◌≡◌, ℕ, ◌<◌, ◌≤◌, length, true, false, IfOk, MatchOption, IsPermutation};
ghost use Rattle.px_plain.specs.Forest.{IsForest, IsFlat, Keeps};
ghost use Rattle.px_plain.specs.Differences.{IfUnequal, AllHold, AreInside};
ghost use Rattle.px_plain.specs.Exclusions.{exclusion_at, Asks, Adds, Separates};

use crate::nodes::{Difference, Exclusion, Node, Separation};
use std::alloc::{AllocError, Global};

// What a disequality asks of the roots.
fn separation(table: &[Node], difference: Difference) -> Separation
    requires forest { IsForest table.now }
    requires flat { IsFlat table.now }
    requires from_inside { difference.from < length table.now }
    requires to_inside { difference.to < length table.now }
    ensures { Asks table.now difference result }
{
    let a = table[difference.from as usize];
    let b = table[difference.to as usize];
    let above = a.offset.wrapping_add(difference.plus);
    if a.parent == b.parent {
        if above == b.offset {
            return Separation::Impossible;
        }
        return Separation::Certain;
    }
    if a.parent < b.parent {
        let above = above.wrapping_sub(b.offset);
        return Separation::By(Exclusion {
            high: b.parent,
            low: a.parent,
            above,
        });
    }
    let above = b.offset.wrapping_sub(above);
    Separation::By(Exclusion {
        high: a.parent,
        low: b.parent,
        above,
    })
}

// Adds what a disequality excludes. False where it can't hold.
fn exclude_one(
    exclusions: &mut Vec<Exclusion>,
    table: &[Node],
    difference: Difference,
) -> Result<bool, AllocError>
    requires forest { IsForest table.now }
    requires flat { IsFlat table.now }
    requires from_inside { difference.from < length table.now }
    requires to_inside { difference.to < length table.now }
    ensures no { IfOk result (λ yes. yes ≡ false → (val : ℕ → ℕ) → Keeps val table.now → ¬ IfUnequal val difference) }
    ensures yes { IfOk result (λ yes. yes ≡ true → Adds table.now difference exclusions.old.items exclusions.new.items) }
{
    if difference.equal {
        return Ok(true);
    }
    match separation(table, difference) {
        Separation::Impossible => Ok(false),
        Separation::Certain => Ok(true),
        Separation::By(exclusion) => {
            exclusions.push(exclusion)?;
            Ok(true)
        }
    }
}

// What all disequalities exclude; none where one of them can't hold.
pub(crate) fn exclude_all(
    alloc: Global,
    table: &[Node],
    differences: &[Difference],
) -> Result<Option<Vec<Exclusion>>, AllocError>
    requires forest { IsForest table.now }
    requires flat { IsFlat table.now }
    requires inside { AreInside (length table.now) differences.now }
    ensures { IfOk result (λ r. MatchOption r ((val : ℕ → ℕ) → Keeps val table.now → ¬ AllHold val differences.now) (λ es. Separates table.now differences.now (length differences.now) es.items)) }
{
    let mut exclusions = Vec::new(alloc);
    for i in 0..differences.len() {
        if !exclude_one(&mut exclusions, table, differences[i])? {
            return Ok(None);
        }
    }
    Ok(Some(exclusions))
}

// Puts exclusions in the order of their higher roots.
pub(crate) fn sort_exclusions(exclusions: &mut Vec<Exclusion>)
    ensures rising { (i j : ℕ) → i ≤ j → j < length exclusions.new.items → (exclusion_at exclusions.new.items i).high ≤ (exclusion_at exclusions.new.items j).high }
    ensures permutation { IsPermutation exclusions.old.items exclusions.new.items }
{
    exclusions.sort_unstable_by_key(|e| e.high);
}

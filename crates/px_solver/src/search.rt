ghost use Rattle.std.specs.Prelude.{◌≡◌, ℕ, List, ◌+◌, ◌<◌, ◌≤◌, true, false, length, All, slice_index};
ghost use Rattle.px_terms.specs.Variables.{mentioned};
ghost use Rattle.px_plain.specs.Forest.{IsForest};
ghost use Rattle.px_solver.specs.Tables.{word_under, AreTrueAt, AgreeOutside, Works, FirstWork, AreApart};

use crate::truth::is_true;
use px_plain::Node;
use px_terms::Conj;

// Whether the conjuncts at these places are true.
fn are_true(conjuncts: &[Conj], indexes: &[u32], table: &[Node], roots: &[u32]) -> bool
    requires forest { IsForest table.now }
    requires size { length roots.now ≡ length table.now }
    requires small { length table.now ≤ 65537 }
    requires inside { All (λ c. All (λ x. x + 1 < length table.now) (mentioned c)) conjuncts.now }
    requires places { All (λ i. i < length conjuncts.now) indexes.now }
    ensures yes { result ≡ true → AreTrueAt conjuncts.now indexes.now (word_under table.now (slice_index roots.now)) }
    ensures no { result ≡ false → ¬ AreTrueAt conjuncts.now indexes.now (word_under table.now (slice_index roots.now)) }
{
    for i in 0..indexes.len() {
        if !is_true(&conjuncts[indexes[i] as usize], table, roots) {
            return false;
        }
    }
    true
}

// Gives the members, which are roots, the first candidates that make the conjuncts at these places true.
// Takes no memory.
pub(crate) fn search(
    members: &[u32],
    values: &[u32],
    conjuncts: &[Conj],
    indexes: &[u32],
    table: &[Node],
    roots: &mut [u32],
) -> bool
    requires forest { IsForest table.now }
    requires size { length roots.old ≡ length table.now }
    requires small { length table.now ≤ 65537 }
    requires inside { All (λ c. All (λ x. x + 1 < length table.now) (mentioned c)) conjuncts.now }
    requires places { All (λ i. i < length conjuncts.now) indexes.now }
    requires members { All (λ r. r < length table.now) members.now }
    requires apart { AreApart members.now }
    ensures size { length roots.new ≡ length roots.old }
    ensures others { AgreeOutside members.now (slice_index roots.new) (slice_index roots.old) }
    ensures found { result ≡ true → FirstWork table.now conjuncts.now indexes.now values.now (slice_index roots.old) members.now (slice_index roots.new) }
    ensures none { result ≡ false → (places : List ℕ) → ¬ Works table.now conjuncts.now indexes.now values.now (slice_index roots.old) members.now places }
{
    let Some((first, rest)) = members.split_first() else {
        return are_true(conjuncts, indexes, table, roots);
    };
    for i in 0..values.len() {
        roots[*first as usize] = values[i];
        if search(rest, values, conjuncts, indexes, table, roots) {
            return true;
        }
    }
    false
}

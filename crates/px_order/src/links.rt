ghost use Rattle.std.specs.Prelude.{◌≡◌, ◌↔◌, ℕ, ◌<◌, ◌^◌, All, length, true, IfOk, slice_index};
ghost use Rattle.px_components.specs.Graphs.{IsEdge};
ghost use Rattle.px_order.specs.Comparisons.{IsBelow, IsCompared, IsStrictWithin, comparison_at};

use crate::comparisons::Comparison;
use px_components::Graph;
use std::alloc::{AllocError, Global};

// The graph in which an edge leads from the first variable of each comparison to the second.
pub(crate) fn links(
    alloc: Global,
    variables: u32,
    comparisons: &[Comparison],
) -> Result<Graph, AllocError>
    requires { All (IsBelow variables) comparisons.now }
    ensures size { IfOk result (λ g. length g ≡ variables) }
    ensures edges { IfOk result (λ g. (x y : ℕ) → IsEdge g x y ↔ IsCompared comparisons.now x y) }
{
    let mut graph = Graph::new(alloc, variables)?;
    for comparison in comparisons {
        graph.add(comparison.first, comparison.second)?;
    }
    Ok(graph)
}

// Whether a strict comparison is of two variables with one number.
pub(crate) fn is_some_strict_within(comparisons: &[Comparison], numbers: &[u32]) -> bool
    requires { All (IsBelow (length numbers.now)) comparisons.now }
    ensures { result ≡ true ↔ ((k : ℕ) × (k < length comparisons.now) × IsStrictWithin numbers.now (comparison_at comparisons.now k)) }
{
    for comparison in comparisons {
        if comparison.strict
            && numbers[comparison.first as usize] == numbers[comparison.second as usize]
        {
            return true;
        }
    }
    false
}

ghost use Rattle.std.specs.Prelude.{◌≡◌, ℕ, ◌+◌, ◌<◌, ◌≤◌, length, All, IfOk, slice_index};
ghost use Rattle.px_terms.specs.Variables.{mentioned};
ghost use Rattle.px_terms.specs.Valuations.{valuation_of};
ghost use Rattle.px_terms.specs.declared.types.Value.TheVariants.{Block};
ghost use Rattle.px_plain.specs.Forest.{IsForest};
ghost use Rattle.px_solver.specs.Layouts.{IsLayout};
ghost use Rattle.px_solver.specs.Searches.{IsSearched};

use crate::choosing::conjuncts_at;
use crate::decision::{Decision, Values};
use crate::model::model_of;
use crate::solving::{Layout, solve_all};
use px_plain::Node;
use px_terms::{Conj, NoMemory, Value};
use std::alloc::Global;

// Solves the components of hard homes, and makes the model; or gives the conjuncts of the first that fails.
pub(crate) fn search_all(
    alloc: Global,
    conjuncts: &[Conj],
    model: &[Value],
    table: &[Node],
    layout: &Layout,
    roots: &mut [u32],
) -> Result<Decision, NoMemory>
    requires forest { IsForest table.now }
    requires size { length roots.old ≡ length table.now }
    requires small { length model.now ≤ 65536 }
    requires variables { length table.now ≡ length model.now + 1 }
    requires few { length conjuncts.now ≤ 65536 }
    requires inside { All (λ c. All (λ x. x + 1 < length table.now) (mentioned c)) conjuncts.now }
    requires layout { IsLayout table.now conjuncts.now layout.now }
    requires null { slice_index layout.now.node_homes.items 0 ≡ 0 }
    requires zero { slice_index roots.old 0 ≡ 0 }
    requires blocks { (x b : ℕ) → x < length model.now → valuation_of model.now x ≡ Block b → b ≤ x }
    ensures { IfOk result (λ d. IsSearched table.now conjuncts.now layout.now model.now roots.old d) }
{
    let failed = solve_all(alloc, conjuncts, table, layout, roots)?;
    if failed != 0 {
        let rest = conjuncts_at(alloc, conjuncts, &layout.homes, failed)?;
        return Ok(Decision::Undecided(rest));
    }
    let values = model_of(alloc, model, table, roots)?;
    Ok(Decision::Found(Values::from_vec(values)))
}

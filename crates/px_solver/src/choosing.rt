ghost use Rattle.std.specs.Prelude.{◌≡◌, ◌+◌, ◌<◌, ◌≤◌, ◌++◌, [], ◌∷◌, cond, length, All, IfOk, OnOk};
ghost use Rattle.px_terms.specs.Variables.{mentioned};
ghost use Rattle.px_plain.specs.Forest.{IsForest};
ghost use Rattle.px_plain.specs.Readings.{HasSmallVariables};
ghost use Rattle.px_solver.specs.Tables.{IsMarkedFalse, IsAtHome, SelectsByHome};

use crate::decision::Conjuncts;
use crate::outright::is_false_outright;
use px_plain::Node;
use px_terms::{Conj, NoMemory};
use std::alloc::Global;

// Adds a copy of a conjunct, if it is to be kept.
fn keep_if(out: &mut Conjuncts, conjunct: &Conj, keep: bool) -> Result<(), NoMemory>
    ensures { OnOk result (out.new ≡ cond keep (out.old ++ conjunct.now ∷ []) out.old) }
{
    if keep {
        out.push(conjunct.copy()?)?;
    }
    Ok(())
}

// The conjuncts that are false outright.
pub(crate) fn false_outright(
    alloc: Global,
    conjuncts: &[Conj],
    homes: &[u32],
    marks: &[bool],
    table: &[Node],
    roots: &[u32],
) -> Result<Conjuncts, NoMemory>
    requires small { All HasSmallVariables conjuncts.now }
    requires forest { IsForest table.now }
    requires size { length roots.now ≡ length table.now }
    requires few { length table.now ≤ 65537 }
    requires marks { length marks.now + 1 ≡ length table.now }
    requires homes { length homes.now ≡ length conjuncts.now }
    requires inside { All (λ c. All (λ x. x < length marks.now) (mentioned c)) conjuncts.now }
    ensures { IfOk result (λ us. SelectsByHome (IsMarkedFalse table.now roots.now marks.now) conjuncts.now homes.now us) }
{
    let mut out = Conjuncts::new(alloc);
    for i in 0..conjuncts.len() {
        let keep = is_false_outright(&conjuncts[i], homes[i], marks, table, roots);
        keep_if(&mut out, &conjuncts[i], keep)?;
    }
    Ok(out)
}

// The conjuncts of a home.
pub(crate) fn conjuncts_at(
    alloc: Global,
    conjuncts: &[Conj],
    homes: &[u32],
    home: u32,
) -> Result<Conjuncts, NoMemory>
    requires { length homes.now ≡ length conjuncts.now }
    ensures { IfOk result (λ us. SelectsByHome (IsAtHome home) conjuncts.now homes.now us) }
{
    let mut out = Conjuncts::new(alloc);
    for i in 0..conjuncts.len() {
        keep_if(&mut out, &conjuncts[i], homes[i] == home)?;
    }
    Ok(out)
}

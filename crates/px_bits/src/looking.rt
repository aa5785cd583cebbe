ghost use Rattle.std.specs.Prelude.{◌<◌, ◌^◌, List, length, IfOk};
ghost use Rattle.px_terms.specs.declared.conjuncts.Conj.{Conj as Conjunct};
ghost use Rattle.px_cnf.specs.Clauses.{AreClausesBelow};
ghost use Rattle.px_cnf.specs.Standing.{StandsFor};
ghost use Rattle.px_sat.specs.Verdicts.{IsVerdict};
ghost use Rattle.px_bits.specs.Looks.{HaveClauses, IsLook};

use crate::Look;
use px_cnf::{Cnf, CnfFault, translate};
use px_sat::{Verdict, solve};
use px_terms::{Conj, NoMemory};
use std::alloc::Global;

/// Looks at the bits of conjuncts: a search over their clauses, where they have some, which may learn so many clauses.
pub fn look_at(alloc: Global, conjuncts: &[Conj], conflicts: u32) -> Result<Look, NoMemory>
    requires { length conjuncts.now < 2 ^ 32 }
    ensures { IfOk result (IsLook conflicts conjuncts.now) }
{
    match translate(alloc, conjuncts) {
        Ok(cnf) => search(alloc, &cnf, conflicts),
        Err(CnfFault::Form(_) | CnfFault::Large(_)) => Ok(Look::Open),
        Err(CnfFault::NoMemory) => Err(NoMemory),
    }
}

// A look at the conjuncts that clauses stand for.
fn search(alloc: Global, cnf: &Cnf, conflicts: u32) -> Result<Look, NoMemory>
    requires { AreClausesBelow cnf.now.variables cnf.now.clauses }
    ensures { IfOk result (λ look. (conjuncts : List Conjunct) → StandsFor cnf.now conjuncts → HaveClauses conjuncts → IsLook conflicts conjuncts look) }
{
    let verdict = solve(alloc, cnf, conflicts)?;
    Ok(look_of(cnf, conflicts, &verdict))
}

// What a verdict on clauses says of the conjuncts that they stand for.
fn look_of(cnf: &Cnf, conflicts: u32, verdict: &Verdict) -> Look
    requires { IsVerdict cnf.now.variables cnf.now.clauses conflicts verdict.now }
    ensures { (conjuncts : List Conjunct) → StandsFor cnf.now conjuncts → HaveClauses conjuncts → IsLook conflicts conjuncts result }
{
    match verdict {
        Verdict::Met(_) => Look::Met,
        Verdict::Unmet(_) => Look::Refuted,
        Verdict::Spent(_) => Look::Open,
    }
}

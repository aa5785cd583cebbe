ghost use Rattle.std.specs.Prelude.{◌≡◌, ◌++◌, length, IfOk, OnOk};
ghost use Rattle.std.specs.List.{list_all};
ghost use Rattle.px_callgraph.specs.Renaming as renaming;
ghost use Rattle.px_callgraph.specs.Calls as spec;

use crate::Matching;
use crate::call::copy_substitution;
use px_callgraph::State;
use px_match::{claim_through, count_new, is_claim_open, put_new, put_new_variables};
use px_terms::{Conj, Content, Items, NoMemory, Var, VarInfo};
use std::alloc::Global;

/// How many numbers there are for variables.
const NUMBERS: usize = 1 << 32;

/// Whether no conjunct of an entry is decided false, and all are well sorted, where the blocks that it requires are met.
pub(crate) fn is_possible(
    alloc: Global,
    state: &State,
    matching: &Matching,
) -> Result<bool, NoMemory>
    ensures { IfOk result (λ yes. yes ≡ spec.is_possible matching.now.entry.now (spec.stand_all matching.now.entry.now matching.now.substitution.items state.now) state.now) }
{
    let entry = matching.entry;
    let mut substitution = copy_substitution(alloc, &matching.substitution)?;
    put_all(
        alloc,
        &mut substitution,
        state.vars.len(),
        entry.vars.as_slice(),
    )?;
    let vars = all_variables(alloc, state.vars.as_slice(), entry.vars.as_slice())?;
    are_open(alloc, vars.as_slice(), &substitution, entry.pure.as_slice())
}

/// The entry's inputs and made blocks stand for new variables, whose numbers go on from those of so many. `NoMemory` too
/// where the numbers don't suffice.
pub(crate) fn put_all(
    alloc: Global,
    substitution: &mut Vec<(Var, Content)>,
    known: usize,
    theirs: &[VarInfo],
) -> Result<(), NoMemory>
    ensures { OnOk result (substitution.new.items ≡ substitution.old.items ++ renaming.stand_new 0 known theirs.now) }
{
    if known >= NUMBERS || count_new(theirs) >= NUMBERS - known {
        return Err(NoMemory);
    }
    put_new(alloc, substitution, known as u32, theirs)
}

/// The caller's variables with those of an entry that are new to it.
pub(crate) fn all_variables(
    alloc: Global,
    ours: &[VarInfo],
    theirs: &[VarInfo],
) -> Result<Items<VarInfo>, NoMemory>
    ensures { IfOk result (λ vars. vars ≡ ours.now ++ renaming.new_variables theirs.now) }
{
    let mut vars = Items::from_slice(alloc, ours)?;
    put_new_variables(&mut vars, theirs)?;
    Ok(vars)
}

fn are_open(
    alloc: Global,
    vars: &[VarInfo],
    substitution: &[(Var, Content)],
    pure: &[Conj],
) -> Result<bool, NoMemory>
    ensures { IfOk result (λ yes. yes ≡ list_all (λ c. renaming.is_claim_open vars.now (renaming.claim_through substitution.now c)) pure.now) }
{
    for conjunct in pure {
        if !may_claim(alloc, vars, substitution, conjunct)? {
            return Ok(false);
        }
    }
    Ok(true)
}

// Whether what a conjunct of the entry says may be assumed.
fn may_claim(
    alloc: Global,
    vars: &[VarInfo],
    substitution: &[(Var, Content)],
    conjunct: &Conj,
) -> Result<bool, NoMemory>
    ensures { IfOk result (λ yes. yes ≡ renaming.is_claim_open vars.now (renaming.claim_through substitution.now conjunct.now)) }
{
    let claimed = claim_through(alloc, substitution, conjunct)?;
    Ok(is_claim_open(vars, &claimed))
}

ghost use Rattle.std.specs.Prelude.{◌≡◌, ◌++◌, ◌∷◌, [], None, IfOk, OnOk};
ghost use Rattle.px_callgraph.specs.JobTree.{job_tree};
ghost use Rattle.px_pool.specs.Gathering.{JudgesNext};

use crate::checks::check_one;
use px_callgraph::Job;
use px_check::Checked;
use px_entry::{Derivation, Entry};
use px_pieces::Lost;
use px_terms::{Items, NoMemory};
use std::alloc::Global;

/// The first entry of a reply that fails, and the step.
#[derive(Clone, Copy)]
pub(crate) struct Refusal {
    pub(crate) entry: u32,
    pub(crate) step: u32,
}

/// Checks the next entry, unless one before it fails.
pub(crate) fn judge(
    alloc: Global,
    job: &Job,
    checked: &mut Items<Checked>,
    refused: Option<Refusal>,
    entry: Entry,
    derivation: &Derivation,
) -> Result<Option<Refusal>, NoMemory>
    ensures { IfOk result (JudgesNext (job_tree job.now) checked.old refused entry derivation.now checked.new) }
{
    match refused {
        Some(refusal) => Ok(Some(refusal)),
        None => check_next(alloc, job, checked, entry, derivation),
    }
}

// Checks the next entry, where those before it derive.
fn check_next(
    alloc: Global,
    job: &Job,
    checked: &mut Items<Checked>,
    entry: Entry,
    derivation: &Derivation,
) -> Result<Option<Refusal>, NoMemory>
    ensures { IfOk result (JudgesNext (job_tree job.now) checked.old None entry derivation.now checked.new) }
{
    let count = checked.len();
    if count > u32::MAX as usize {
        return Err(NoMemory);
    }
    match check_one(alloc, job, entry, derivation, count as u32) {
        Ok(one) => keep(checked, one),
        Err(Lost::Refused { entry: place, step }) => Ok(Some(Refusal { entry: place, step })),
        Err(_) => Err(NoMemory),
    }
}

// Puts a checked entry behind the others.
fn keep(checked: &mut Items<Checked>, one: Checked) -> Result<Option<Refusal>, NoMemory>
    ensures none { IfOk result (λ refused. refused ≡ None) }
    ensures kept { OnOk result (checked.new ≡ checked.old ++ one ∷ []) }
{
    checked.push(one)?;
    Ok(None)
}

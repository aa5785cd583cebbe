ghost use Rattle.std.specs.Prelude.{◌≡◌, ◌<◌, ◌^◌, length, IfOk, IsErrOf};
ghost use Rattle.px_callgraph.specs.JobTree.{job_tree};
ghost use Rattle.px_callgraph.specs.Derivations.{Derives};
ghost use Rattle.px_check.specs.Answers.{entry_of, job_of};
ghost use Rattle.px_pieces.specs.declared.desk.Lost.{Lost as ALost};
ghost use Rattle.px_pool.specs.Checks.{AreChecked, IsRefusal, AreRefusals};

use px_callgraph::Job;
use px_check::{CheckFault, Checked, check};
use px_entry::{Derivation, Entry};
use px_pieces::Lost;
use px_terms::Items;
use std::alloc::Global;

/// Checks each entry by the derivation beside it.
pub(crate) fn check_all(
    alloc: Global,
    job: &Job,
    entries: Items<Entry>,
    derivations: &[Derivation],
) -> Result<Items<Checked>, Lost>
    requires { length derivations.now < 2 ^ 32 }
    ensures checked { IfOk result (λ all. AreChecked (job_tree job.now) entries derivations.now all) }
    ensures refused { (why : ALost) → IsErrOf result why → AreRefusals (job_tree job.now) entries derivations.now why }
{
    if entries.as_slice().len() != derivations.len() {
        return Err(Lost::Refused { entry: 0, step: 0 });
    }
    let mut all = Items::new(alloc);
    let mut place = 0;
    for entry in entries.into_vec() {
        let checked = check_one(alloc, job, entry, &derivations[place], place as u32)?;
        let Ok(()) = all.push(checked) else {
            return Err(Lost::NoMemory);
        };
        place += 1;
    }
    Ok(all)
}

/// Checks the entry with this place by a derivation.
pub(crate) fn check_one(
    alloc: Global,
    job: &Job,
    entry: Entry,
    derivation: &Derivation,
    place: u32,
) -> Result<Checked, Lost>
    ensures entry { IfOk result (λ c. entry_of c ≡ entry) }
    ensures job { IfOk result (λ c. job_of c ≡ job_tree job.now) }
    ensures derived { IfOk result (λ c. Derives (job_tree job.now) entry derivation.now.steps) }
    ensures refused { (why : ALost) → IsErrOf result why → IsRefusal (job_tree job.now) entry derivation.now place why }
{
    if entry.proc != job.proc {
        return Err(Lost::Refused {
            entry: place,
            step: 0,
        });
    }
    match check(alloc, job, entry, derivation) {
        Ok(checked) => Ok(checked),
        Err(CheckFault::Refused { step, .. }) => Err(Lost::Refused { entry: place, step }),
        Err(CheckFault::NoMemory) => Err(Lost::NoMemory),
    }
}

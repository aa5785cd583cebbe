ghost use Rattle.std.specs.Prelude.{IfOk};
ghost use Rattle.px_callgraph.specs.JobTree.{job_tree};
ghost use Rattle.px_explore.specs.Derived.{AreDerived};
ghost use Rattle.px_findings.specs.Jobs.{AreChecked};

use px_callgraph::Job;
use px_check::{Checked, TableFault, check_each};
use px_entry::{Derivation, Entry};
use px_terms::{Items, NoMemory};
use std::alloc::Global;

/// Checks each entry by the derivation beside it, which derives it.
pub fn check_all(
    alloc: Global,
    job: &Job,
    entries: Items<Entry>,
    derivations: &[Derivation],
) -> Result<Items<Checked>, NoMemory>
    requires derived { AreDerived (job_tree job.now) entries derivations.now }
    ensures { IfOk result (λ all. AreChecked (job_tree job.now) entries all) }
{
    match check_each(alloc, job, entries, derivations) {
        Ok(all) => Ok(all),
        Err(TableFault::NoMemory) => Err(NoMemory),
        Err(TableFault::Refused { .. }) => unreachable!(),
    }
}

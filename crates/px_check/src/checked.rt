ghost use Rattle.std.specs.Prelude.{List};
ghost use Rattle.px_entry.specs.declared.derivations.Step.{Step};
ghost use Rattle.px_callgraph.specs.JobTree.{job_tree};
ghost use Rattle.px_callgraph.specs.Derivations.{Derives};

use px_callgraph::Job;
use px_entry::{Entry, Rule};
use std::snapshot::Snapshot;

/// An entry that some steps derive from its job. `check` alone makes one, and it stays one wherever it is moved: the
/// job is kept as clauses see it, and takes no memory.
#[derive(Drop)]
pub struct Checked {
    pub(crate) entry: Entry,
    pub(crate) job: Snapshot<Job>,
    pub ghost derived: { ∥ ((steps : List Step) × Derives (job_tree job.value) entry steps) ∥₁ },
}

/// Why no `Checked` is given.
#[derive(Drop)]
pub enum CheckFault {
    /// The step with this place, from 0, and this rule is the first that fails. Where the steps are too few, the
    /// place is their number and the rule is `End`. The entry is handed back.
    Refused { step: u32, rule: Rule, entry: Entry },
    NoMemory,
}

/// Why entries aren't given as `Checked`.
#[derive(Drop)]
pub enum TableFault {
    /// The entry with this place, from 0, is the first that its steps don't derive, and of these the step with this place and
    /// this rule is the first that fails, as in `CheckFault`.
    Refused { entry: usize, step: u32, rule: Rule },
    NoMemory,
}

impl Checked {
    ghost use Rattle.std.specs.Prelude.{◌≡◌};
    ghost use Rattle.px_check.specs.Answers.{entry_of};

    /// The entry. Takes no memory.
    pub fn entry(&self) -> &Entry
        ensures { result.now ≡ entry_of self.now }
    {
        &self.entry
    }

    /// The entry. Takes no memory.
    pub fn into_entry(self) -> Entry
        ensures { result ≡ entry_of self }
    {
        self.entry
    }
}

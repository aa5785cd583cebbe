ghost use Rattle.std.specs.Prelude.{⊤};
ghost use Rattle.px_entry.specs.declared.tables.Table.{Table};
ghost use Rattle.px_callgraph.specs.JobTree.{JobTree};
ghost use Rattle.px_symexec.specs.Tables.{IsTable};

/// The word of whoever answers jobs: which tables it may give of a job. Contracts see that relation, and no code can
/// ask it.
pub trait Honesty {
    /// The word says this table of this job.
    ghost says: { JobTree → Table → Type 0 };
}

/// Says of a job exactly its own table.
pub struct Honest {}

impl Honesty for Honest {
    ghost says = { IsTable };
}

/// Says every table of every job: nothing is known of whoever gives it.
pub struct Unknown {}

impl Honesty for Unknown {
    ghost says = { λ j t. ⊤ };
}

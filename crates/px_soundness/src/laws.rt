ghost use Rattle.px_soundness.specs.Laws.{EntriesAreValid, BuiltEntriesAreValid, CheckedAreValid};
ghost use Rattle.px_soundness.specs.WorkedTriples.{WorkedTriples};

/// A law: an entry that derives from a job is of its procedure, regular, a valid triple, and true of its own values,
/// where the entries in the tables of the procedures that its body calls are valid.
pub fn entries_are_valid()
    ensures { EntriesAreValid }
{}

/// A law: so is an entry that derives where these tables are built from below, with nothing assumed of them.
pub fn built_entries_are_valid()
    ensures { BuiltEntriesAreValid }
{}

/// A law: so is the entry of every `Checked`, and some steps derive it.
pub fn checked_are_valid()
    ensures { CheckedAreValid }
{}

/// The entries of a small procedure, and one of its caller, which are valid triples.
pub fn worked_triples()
    ensures { WorkedTriples }
{}

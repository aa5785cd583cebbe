ghost use Rattle.px_entry.specs.Laws.{TestsDecide, RegularEntriesAreScoped};

/// Two conjuncts are the same as they are stored exactly where the test says so, and so for the test of sorts.
pub fn tests_decide()
    ensures { TestsDecide }
{}

/// The variables that a regular entry mentions are in its list.
pub fn regular_entries_are_scoped()
    ensures { RegularEntriesAreScoped }
{}

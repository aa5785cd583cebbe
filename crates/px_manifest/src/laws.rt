ghost use Rattle.px_manifest.specs.Laws.{TestsDecide, AskingNothingIsTaken, LooksAreRight};

/// The tests of what asks nothing and of what looks manifest are exact for each entry that is true of its own values.
pub fn tests_decide()
    ensures { TestsDecide }
{}

/// An entry that asks nothing is taken from every calling state, however it ends, where it is all that a derivation makes it.
pub fn asking_nothing_is_taken()
    ensures { AskingNothingIsTaken }
{}

/// An entry that looks manifest is a manifest bug, where it is all that a derivation makes it.
pub fn looks_are_right()
    ensures { LooksAreRight }
{}

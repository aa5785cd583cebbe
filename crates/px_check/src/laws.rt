ghost use Rattle.px_check.specs.Laws.{OneOutcome};

/// Steps derive an entry or have one step that fails first, and not both.
pub fn one_outcome()
    ensures { OneOutcome }
{}

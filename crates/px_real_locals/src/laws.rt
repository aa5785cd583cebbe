ghost use Rattle.px_real_locals.specs.WorkedNames.{Worked};

/// Names that were found by hand are what is found.
pub fn worked_names()
    ensures { Worked }
{}

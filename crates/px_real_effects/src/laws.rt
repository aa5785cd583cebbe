ghost use Rattle.px_real_effects.specs.WorkedEffects.{Worked};

/// Statements that were worked by hand are what they should be.
pub fn worked_effects()
    ensures { Worked }
{}

ghost use Rattle.px_real_reading.specs.WorkedExpressions.{Worked};

/// Expressions that were worked by hand have the trees that they should have.
pub fn worked_expressions()
    ensures { Worked }
{}

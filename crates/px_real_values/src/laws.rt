ghost use Rattle.px_real_values.specs.Spelled.{TypesAreSpelled};
ghost use Rattle.px_real_values.specs.WorkedValues.{Worked};

/// The type that is read of a type's name is the one that the grammar's tree of it says.
pub fn types_are_spelled()
    ensures { TypesAreSpelled }
{}

/// Expressions that were worked by hand are what they should be.
pub fn worked_values()
    ensures { Worked }
{}

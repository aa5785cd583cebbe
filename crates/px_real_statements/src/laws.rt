ghost use Rattle.px_real_statements.specs.Laws.{OneBody, SomeBody};
ghost use Rattle.px_real_statements.specs.WorkedStatements.{Worked};

/// Tokens are one body of a function at most.
pub fn one_body()
    ensures { OneBody }
{}

/// Tokens whose brackets match are a body: where a statement isn't read, all up to the end of its block is held.
pub fn some_body()
    ensures { SomeBody }
{}

/// Bodies that were worked by hand have the statements that they should have.
pub fn worked_statements()
    ensures { Worked }
{}

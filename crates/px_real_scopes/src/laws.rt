ghost use Rattle.px_real_scopes.specs.Laws.{BlocksAreLeft, CellsAgree, CellsAreNumbered};
ghost use Rattle.px_real_scopes.specs.WorkedScopes.{Worked};

/// Whatever declarations stand in a block, behind it all is in scope that was before it.
pub fn blocks_are_left()
    ensures { BlocksAreLeft }
{}

/// The cells of a struct are those that px_real_types says of its declarations, in their order.
pub fn cells_agree()
    ensures { CellsAgree }
{}

/// They have the numbers from 0 on, in their order.
pub fn cells_are_numbered()
    ensures { CellsAreNumbered }
{}

/// Declarations that were worked by hand bring into scope what they should.
pub fn worked_scopes()
    ensures { Worked }
{}

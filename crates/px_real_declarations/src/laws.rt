ghost use Rattle.px_real_declarations.specs.Laws.{OneDeclaration, OneMember, OneParameter};
ghost use Rattle.px_real_declarations.specs.WorkedDeclarations.{Worked};

/// Tokens are one declaration at most, where it is said which words are names of types.
pub fn one_declaration()
    ensures { OneDeclaration }
{}

/// They are one declaration of members at most.
pub fn one_member()
    ensures { OneMember }
{}

/// They are one parameter at most: an attribute behind a star with no name is the star's.
pub fn one_parameter()
    ensures { OneParameter }
{}

/// Declarations that were worked by hand have the trees that they should have.
pub fn worked_declarations()
    ensures { Worked }
{}

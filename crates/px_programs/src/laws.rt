ghost use Rattle.px_programs.specs.BodyLaws.{BodiesHaveTheirNumbers, BodiesOfFilesKeep};
ghost use Rattle.px_programs.specs.Laws.{ProgramsKeepTyping, ProgramsHaveTheirNumbers};
ghost use Rattle.px_programs.specs.TripleLaws.{TriplesAreOfTrees};

/// A law: the program that files say keeps the typing rules.
pub fn programs_keep_typing()
    ensures { ProgramsKeepTyping }
{}

/// A law: the numbers in the program that files say are those of its functions and of its block types.
pub fn programs_have_their_numbers()
    ensures { ProgramsHaveTheirNumbers }
{}

/// A law: so are the numbers in its lowered bodies.
pub fn bodies_have_their_numbers()
    ensures { BodiesHaveTheirNumbers }
{}

/// A law: its lowered bodies keep to types, are well-formed, have words of 32 bits as constants, and have numbers
/// that are listed.
pub fn bodies_of_files_keep()
    ensures { BodiesOfFilesKeep }
{}

/// A law: an entry is a valid triple over the calls of its lowered bodies exactly where it is one over those of its
/// typed trees.
pub fn triples_are_of_trees()
    ensures { TriplesAreOfTrees }
{}

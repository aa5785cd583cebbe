ghost use Rattle.px_lower.specs.BodiesKeep.{BodiesKeep};
ghost use Rattle.px_lower.specs.LoweringKeeps.{LoweringKeeps};
ghost use Rattle.px_lower.specs.WorkedBodies.{WorkedBodies};

/// A law: the lowered bodies of all kept procedures do what their trees do, and nothing else.
pub fn lowering_keeps()
    ensures { LoweringKeeps }
{}

/// A law: the lowered bodies of a program that keeps the typing rules keep to types, are well-formed, and have
/// words of 32 bits as constants.
pub fn bodies_keep()
    ensures { BodiesKeep }
{}

/// Procedures and their commands, worked by hand.
pub fn worked_bodies()
    ensures { WorkedBodies }
{}

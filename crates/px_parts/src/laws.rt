ghost use Rattle.px_parts.specs.Laws.{PartsAreThose};
ghost use Rattle.px_parts.specs.Following.{PartsFollow};

/// The parts that a reader gives are those of the message that the bytes spell, however these are cut. It says that it is
/// the end exactly where all bytes are a message whose parts it gave, refuses only what begins no message, and waits for more
/// only where bytes are missing.
pub fn parts_are_those()
    ensures { PartsAreThose }
{}

/// The same of one piece more, where it is known which parts were given so far. Each part has bytes, so that they end.
pub fn parts_follow()
    ensures { PartsFollow }
{}

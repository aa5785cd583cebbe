ghost use Rattle.px_wire.specs.Laws.{OneSpelling, EncodedIsDecoded};

/// Each message has one spelling, and bytes spell one message at most.
pub fn one_spelling()
    ensures { OneSpelling }
{}

/// The bytes of a message in range spell it, and it is what is read in them.
pub fn encoded_is_decoded()
    ensures { EncodedIsDecoded }
{}

ghost use Rattle.px_words.specs.Spelling.{ReadsWritten};
ghost use Rattle.px_words.specs.WorkedCommands.{WorkedCommands, WorkedKeeps, WorkedSamples};

/// A law: words are read as options and files exactly where these are so written.
pub fn what_is_written_is_read()
    ensures { ReadsWritten }
{}

/// A law: lists of words with their meaning, worked by hand.
pub fn worked_commands()
    ensures commands { WorkedCommands }
    ensures keeps { WorkedKeeps }
    ensures samples { WorkedSamples }
{}

ghost use Rattle.std.specs.Prelude.{◌≡◌};
ghost use Rattle.px_lines.specs.Statuses.{number_of};

/// How a run ends.
#[derive(Clone, Copy, Debug, PartialEq, Eq)]
pub enum Status {
    /// All was done, and where that is a report, it has no bug.
    Done = 0,
    /// The report was written, and has a bug.
    Bug = 1,
    /// The words aren't a command.
    Usage = 2,
    /// A file or the input can't be read.
    Unread = 3,
    /// The output can't be written.
    Unwritten = 4,
    /// The files are refused.
    Refused = 5,
    /// Memory ran out.
    NoMemory = 6,
    /// The input of a worker is no request, or one for other domains.
    BadInput = 7,
}

/// The number with which a program ends.
pub fn number_of(status: Status) -> u8
    ensures { result ≡ number_of status }
{
    status as u8
}

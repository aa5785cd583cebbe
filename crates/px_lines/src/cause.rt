ghost use Rattle.std.specs.Prelude.{◌≡◌};
ghost use Rattle.px_lines.specs.Causes.{status_of};
ghost use Rattle.px_lines.specs.declared.cause.Cause.TheVariants as Causes;

use crate::status::Status;
use px_io::Failed;
use px_terms::NoMemory as OutOfMemory;

/// Why a run ends early, with what the line on it names.
#[derive(Clone, Copy)]
pub enum Cause<'a> {
    /// The words aren't a command.
    Usage,
    /// The file of this name can't be read.
    UnreadFile(&'a str),
    /// The input can't be read.
    UnreadInput,
    /// The output can't be written.
    Unwritten,
    /// The file of this name is too long.
    LongFile(&'a str),
    /// The file of this name has a fault: where, and which, as it stands after the name.
    FaultyFile(&'a str, &'a [u8]),
    /// Too many functions are kept.
    ManyProcedures,
    /// Memory ran out.
    NoMemory,
    /// The frame at this byte of the input is no whole request.
    BadRequest(u64),
    /// The request at this byte of the input is for other domains.
    OtherDomains(u64),
}

impl<'a> From<OutOfMemory> for Cause<'a> {
    ghost from_gives = { λ _ e. e ≡ Causes.NoMemory };

    fn from(_error: OutOfMemory) -> Cause<'a> {
        Cause::NoMemory
    }
}

/// A write failed.
impl<'a> From<Failed> for Cause<'a> {
    ghost from_gives = { λ _ e. e ≡ Causes.Unwritten };

    fn from(_error: Failed) -> Cause<'a> {
        Cause::Unwritten
    }
}

/// The status with which a run ends for this cause.
pub fn status_of(cause: Cause) -> Status
    ensures { result ≡ status_of cause.entry }
{
    match cause {
        Cause::Usage => Status::Usage,
        Cause::UnreadFile(_) | Cause::UnreadInput => Status::Unread,
        Cause::Unwritten => Status::Unwritten,
        Cause::LongFile(_) | Cause::FaultyFile(_, _) | Cause::ManyProcedures => Status::Refused,
        Cause::NoMemory => Status::NoMemory,
        Cause::BadRequest(_) | Cause::OtherDomains(_) => Status::BadInput,
    }
}

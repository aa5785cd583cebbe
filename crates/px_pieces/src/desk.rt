use px_base::ProcId;

/// Who claims a procedure: the program itself, or the driver of one of its workers.
#[derive(Clone, Copy, Debug, PartialEq, Eq)]
pub enum Who {
    Parent,
    /// By its number, from 0.
    Worker(u32),
}

/// Why a claimed procedure isn't settled.
#[derive(Clone, Copy, Debug, PartialEq, Eq)]
pub enum Lost {
    /// The job could not be sent.
    Send,
    /// Reading the reply failed.
    Read,
    /// The link ended after so many bytes of a reply.
    Closed(u64),
    /// The bytes aren't a reply.
    Frame,
    /// The reply is one to another ticket.
    Ticket { asked: u64, given: u64 },
    /// The worker has other domains.
    Kinds,
    /// A derivation fails: that of this entry, at this step.
    Refused { entry: u32, step: u32 },
    /// The reply is too large to be sent.
    Large,
    /// No memory was left.
    NoMemory,
}

/// What happens to a procedure of the desk. The ticket of a claim is its place in the history, from 0.
#[derive(Clone, Copy, Debug, PartialEq, Eq)]
pub enum Event {
    /// The procedure is held from now on.
    Claim(Who, ProcId),
    /// The procedure that is held under this ticket is settled.
    Publish(u64),
    /// The procedure that is held under this ticket waits again.
    Lose(u64, Lost),
}

/// Where a procedure of the desk stands.
#[derive(Clone, Copy, Debug, PartialEq, Eq)]
pub enum Status {
    /// To be claimed; so often it was lost.
    Waiting { losses: u32 },
    /// Claimed under this ticket.
    Held { ticket: u64, who: Who, losses: u32 },
    /// Published under this ticket.
    Settled { ticket: u64, who: Who },
}

ghost use Rattle.std.specs.Prelude.{◌≡◌, ◌⊎◌, ◌+◌};
ghost use Rattle.px_drivers.specs.declared.driver.DriverState.TheVariants as stands;
ghost use Rattle.px_pool.specs.Talks.{IsFresh};
ghost use Rattle.px_drivers.specs.Drivers.{counted, published, new_driver, version_past, version_after, IsKept};

use px_book::Receipt;
use px_callgraph::Job;
use px_pieces::Lost;
use px_pool::Link;
use px_wire::VERSION;
use std::marker::Model;
use std::sync::ledger::Ledger;

/// Where a driver stands.
#[derive(Clone, Copy, Debug, PartialEq, Eq)]
pub enum DriverState {
    /// It may claim.
    Ready,
    /// Its last exchange was refused, for this cause.
    Lost(Lost),
    /// Its last claim found no memory.
    NoMemory,
}

/// What a worker's former links came to.
#[derive(Drop)]
pub(crate) struct Past<L: Ledger> {
    /// How many links it has lost.
    pub(crate) losses: u32,
    /// Of all publications over them, joined.
    pub(crate) receipts: Option<Receipt<L>>,
}

/// The driver of a worker: its link, what came of its last exchange, and its receipts. It asks in one version.
///
/// While it isn't lost, its link is in step and no call of the link has failed. Where it is, what passed in the refused
/// exchange shows the cause. The receipts over its link are at most the whole frames that this gave, where it tells them.
pub struct Driver<K: Link, L: Ledger> {
    pub(crate) number: u32,
    pub(crate) version: u8,
    pub(crate) link: K,
    // The link's count of faults when the driver was made.
    first: u64,
    pub(crate) state: DriverState,
    // The job of the exchange that was refused.
    pub(crate) kept: Option<Job>,
    // Of all publications over this link, joined.
    pub(crate) receipts: Option<Receipt<L>>,
    past: Past<L>,
}

impl<K: Link, L: Ledger> Model for Driver<K, L> {
    ghost use Rattle.std.specs.Coded.{codes};
    ghost use Rattle.px_callgraph.specs.contracts.jobs.Job as job_row;
    ghost use Rattle.px_drivers.specs.Drivers.{DriverParts, counted, IsKept};

    ghost Value = { DriverParts };

    ghost coded = { Prim.hlevel (codes, job_row.the_row.coded) };

    ghost view = { λ d. record {
      number = d.number;
      version = d.version;
      told = K.told d.link;
      faults = K.count d.link;
      first = d.first;
      state = d.state;
      kept = d.kept;
      receipts = counted d.receipts;
      losses = d.past.losses;
      earlier = counted d.past.receipts;
    } };

    ghost invariant = { λ d. IsKept (record {
      number = d.number;
      version = d.version;
      told = K.told d.link;
      faults = K.count d.link;
      first = d.first;
      state = d.state;
      kept = d.kept;
      receipts = counted d.receipts;
      losses = d.past.losses;
      earlier = counted d.past.receipts;
    }) };
}

impl<K: Link, L: Ledger> Driver<K, L> {
    /// The driver of the worker with this number over a link that was sent nothing and gave nothing. It asks in this version. Takes
    /// no memory.
    pub fn new(number: u32, link: K, version: u8) -> Driver<K, L>
        requires fresh { IsFresh (K.told link) }
        requires version { (version ≡ 1) ⊎ (version ≡ 2) }
        ensures { result ≡ new_driver number version (K.told link) (K.count link) 0 0 }
    {
        let past = Past {
            losses: 0,
            receipts: None,
        };
        Driver::again(number, version, link, past)
    }

    /// The same of a worker with a past.
    pub(crate) fn again(number: u32, version: u8, link: K, past: Past<L>) -> Driver<K, L>
        requires fresh { IsFresh (K.told link) }
        requires version { (version ≡ 1) ⊎ (version ≡ 2) }
        ensures { result ≡ new_driver number version (K.told link) (K.count link) past.losses (counted past.receipts) }
    {
        let first = link.faults();
        Driver {
            number,
            version,
            link,
            first,
            state: DriverState::Ready,
            kept: None,
            receipts: None,
            past,
        }
    }

    /// Where it stands.
    pub fn state(&self) -> DriverState
        ensures { result ≡ self.now.state }
    {
        self.state
    }

    /// Its link, where it stands, and its receipts, joined into one. Takes no memory.
    pub fn into_parts(self) -> (K, DriverState, Option<Receipt<L>>)
        ensures link { K.told result.0 ≡ self.told }
        ensures faults { K.count result.0 ≡ self.faults }
        ensures state { result.1 ≡ self.state }
        ensures receipts { counted result.2 ≡ published self }
        ensures kept { IsKept self }
    {
        let state = self.state;
        let (link, past) = self.retire();
        (link, state, past.receipts)
    }

    /// Its link, and what all of its worker's links came to.
    pub(crate) fn retire(self) -> (K, Past<L>)
        ensures link { K.told result.0 ≡ self.told }
        ensures faults { K.count result.0 ≡ self.faults }
        ensures losses { result.1.losses ≡ self.losses }
        ensures receipts { counted result.1.receipts ≡ published self }
        ensures kept { IsKept self }
    {
        let Driver {
            number: _,
            version: _,
            link,
            first: _,
            state: _,
            kept: _,
            receipts,
            past,
        } = self;
        let Past {
            losses,
            receipts: earlier,
        } = past;
        let past = Past {
            losses,
            receipts: joined(earlier, receipts),
        };
        (link, past)
    }
}

/// In which version a worker is asked over its next link, where the driver of this one stands so.
pub(crate) fn next_version(version: u8, state: DriverState) -> u8
    ensures { result ≡ version_after version state }
{
    match state {
        DriverState::Ready | DriverState::NoMemory => version,
        DriverState::Lost(why) => version_past(version, why),
    }
}

// The same, where the link was lost for this cause. One that ended before the first byte of a reply may be that of a worker
// that knows no other version than 1.
fn version_past(version: u8, why: Lost) -> u8
    ensures { result ≡ version_past version why }
{
    match why {
        Lost::Closed(0) => VERSION,
        Lost::Closed(_)
        | Lost::Send
        | Lost::Read
        | Lost::Frame
        | Lost::Ticket { .. }
        | Lost::Kinds
        | Lost::Refused { .. }
        | Lost::Large
        | Lost::NoMemory => version,
    }
}

/// Receipts that count what both count.
pub(crate) fn joined<L: Ledger>(
    one: Option<Receipt<L>>,
    other: Option<Receipt<L>>,
) -> Option<Receipt<L>>
    ensures { counted result ≡ counted one + counted other }
{
    match one {
        Some(one) => match other {
            Some(other) => Some(one.join(other)),
            None => Some(one),
        },
        None => other,
    }
}

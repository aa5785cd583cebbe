ghost use Rattle.std.specs.Prelude.{◌≡◌, ◌+◌, ◌-◌, ◌^◌, ◌<◌, ◌≤◌, min};

use std::marker::Model;
use std::sync::ledger::{Book as Total, Ledger, Share};

/// Stands for publications: a share of the ledger that counts them.
#[derive(Drop)]
pub struct Receipt<L: Ledger> {
    share: Share<L>,
    // What the share counts, or 2^64 - 1 where that is more.
    count: u64,
}

impl<L: Ledger> Model for Receipt<L> {
    ghost use Rattle.std.specs.Prelude.{◌≡◌, ◌-◌, ◌^◌, min, ℕ};

    ghost Value = { ℕ };

    ghost view = { λ r. r.share.amount };

    ghost invariant = { λ r. r.count ≡ min r.share.amount (2 ^ 64 - 1) };
}

impl<L: Ledger> Receipt<L> {
    /// One more in the total, and a receipt for it, with one part of the rest.
    pub(crate) fn of_one(total: &mut Total<L>, rest: &mut Share<L>) -> Receipt<L>
        requires parts { 1 < rest.old.parts }
        requires spent { rest.old.amount ≡ 0 }
        ensures one { result ≡ 1 }
        ensures total { total.new.total ≡ total.old.total + 1 }
        ensures parts { rest.new.parts + 1 ≡ rest.old.parts }
        ensures spent { rest.new.amount ≡ 0 }
    {
        let mut share = rest.split_off(1, 0);
        total.add(&mut share, 1);
        Receipt { share, count: 1 }
    }

    /// The receipt counts no more than the total, of which it is a share. Does nothing.
    pub(crate) fn stand(&mut self, total: &mut Total<L>)
        ensures same { self.new ≡ self.old }
        ensures total { total.new.total ≡ total.old.total }
        ensures bound { self.old ≤ total.old.total }
    {
        total.audit(&mut self.share);
    }

    /// Counts what both count. Takes no memory.
    pub fn join(self, other: Receipt<L>) -> Receipt<L>
        ensures { result ≡ self + other }
    {
        let Receipt { mut share, count } = self;
        let Receipt {
            share: others,
            count: more,
        } = other;
        share.merge(others);
        Receipt {
            share,
            count: count.saturating_add(more),
        }
    }

    /// For how many publications it stands, or 2^64 - 1 where that is more. Takes no memory.
    pub fn count(&self) -> u64
        ensures { result ≡ min self.now (2 ^ 64 - 1) }
    {
        self.count
    }
}

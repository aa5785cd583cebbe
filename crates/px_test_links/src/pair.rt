use std::alloc::{AllocError, Global};
use std::sync::{Arc, Mutex, Wait};
use std::thread;

/// Which link of a pair it is.
#[derive(Clone, Copy)]
pub(crate) enum Side {
    First,
    Second,
}

// Which links of a pair were sent a request.
#[derive(Drop)]
struct Asked {
    first: bool,
    second: bool,
}

/// What the two links of a pair share.
#[derive(Drop)]
pub(crate) struct Pair {
    asked: Arc<Mutex<Asked>, Global>,
}

impl Pair {
    /// Neither link was sent a request.
    pub(crate) fn new(alloc: Global) -> Result<Pair, AllocError> {
        let asked = Asked {
            first: false,
            second: false,
        };
        Ok(Pair {
            asked: Arc::new(alloc, Mutex::new(asked))?,
        })
    }

    /// The same pair, for the other link.
    pub(crate) fn again(&self) -> Result<Pair, AllocError> {
        Ok(Pair {
            asked: Arc::try_clone(&self.asked)?,
        })
    }

    /// This link was sent a request.
    pub(crate) fn ask<R: Wait>(&self, rt: &R, side: Side) {
        let mut asked = self.asked.lock(rt);
        match side {
            Side::First => asked.first = true,
            Side::Second => asked.second = true,
        }
    }

    /// Waits until the partner of this link was sent its first request, and says whether it was. It looks so often at most, each
    /// time under the lock, and gives way between.
    pub(crate) fn wait_for_partner<R: Wait>(&self, rt: &R, side: Side, looks: u32) -> bool {
        for _ in 0..looks {
            if self.is_partner_asked(rt, side) {
                return true;
            }
            thread::yield_now();
        }
        false
    }

    fn is_partner_asked<R: Wait>(&self, rt: &R, side: Side) -> bool {
        let asked = self.asked.lock(rt);
        match side {
            Side::First => asked.second,
            Side::Second => asked.first,
        }
    }
}

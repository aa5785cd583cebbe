//! Drivers of workers, which claim, exchange and publish in threads of their own, and rounds of them, in which lost links
//! are started again. `round` leaves each driver with its link's talk and, where it is lost, with the cause; `rounds`
//! leaves as many links running as before, and says who was left and why.
//!
//! Nothing is said of what the book holds after a round: what stands under a lock says its own type's facts alone. What a
//! driver brings back of its work are receipts.
#![tactic(auto)]

mod crew;
mod driver;
mod driving;
mod ends;
mod working;

pub use driver::{Driver, DriverState};
pub use driving::round;
pub use ends::{Leaving, Rounds};
pub use working::rounds;

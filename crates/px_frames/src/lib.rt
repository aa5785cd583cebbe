//! Frames: a message after its length in four bytes, high byte first, and a feeder that finds the messages in bytes
//! that come in pieces. It finds exactly the frames in the bytes, however these are cut, and refuses a length that is
//! too long at its fourth byte.
#![tactic(auto)]

mod faults;
mod feeder;
mod frames;
mod laws;
mod stages;

pub use faults::{FeedFault, FrameFault};
pub use feeder::{Fed, Feeder};
pub use frames::{MOST_BYTES, frame};
pub use laws::cuts_dont_matter;

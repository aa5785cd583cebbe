//! The wire: the messages between the parent and its workers, and their bytes in two versions. `decode` gives the message
//! that bytes spell, and refuses exactly those that spell none in range; each message has one spelling a version.
//!
//! `specs/` says which bytes spell a message, as a relation, and what is read in bytes, as a function. Whether
//! what a message names by a number is there is asked by tests of ranges, which take no memory: the variables of an entry
//! are those that it lists, a job has block types, and a body slots.
#![tactic(auto)]

mod body_ranges;
mod decoding;
mod encoding;
mod job_ranges;
mod laws;
mod message;
mod message_ranges;
mod rising_kinds;
mod sharing;
mod sink_buffer;
mod table_ranges;
mod term_ranges;

pub use decoding::{ANY_TYPES, decode, decode_full};
pub use encoding::{encode, encode_full, encode_request, length, write, write_counted};
pub use laws::{encoded_is_decoded, one_spelling};
pub use message::{Message, SHARED, Said, VERSION};
pub use message_ranges::{is_in_range, is_request_in_range, is_said_in_range};
pub use rising_kinds::do_kinds_rise;
pub use sharing::share;
pub use table_ranges::{is_drop_within, is_entry_within};

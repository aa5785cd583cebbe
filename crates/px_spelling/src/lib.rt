//! Spellings: plain values as bytes that another process reads again. Each type's `write` and `read` are exactly the
//! definition's spelling, and what is written is read again.
//!
//! Numbers have the width of their type, the high byte first. A struct is its fields in order, an enum one byte, the
//! place of its variant from 0, and the variant's fields, and a list a count of four bytes and its items. Each value in
//! range has one spelling. `specs/` says it twice: `.._bytes` is the spelling of a value, and `.._at` what is read at the
//! front of bytes. Each type's `is_in_range` says exactly whether a value is in range, and takes no memory.
//!
//! How polynomials are spelled in what holds them is a parameter: `Terms` says it, and `InFull` spells each in full.
//!
//! Bytes are put to an `Output`, which sends them on to a target of its kind: to a list, to a count, or to what another crate
//! has. The same bytes are put whatever the output, and nothing that puts them fails.
#![tactic(auto)]

mod bounds;
mod byte_count;
mod byte_list;
mod callees;
mod conjuncts;
mod derivations;
mod entries;
mod fault;
mod laws;
mod mentions;
mod numbers;
mod operands;
mod output;
mod places;
mod polynomial_order;
mod polynomials;
mod spell;
mod tables;
mod term_list;
mod terms;
mod traces;
mod types;

pub use byte_count::ByteCount;
pub use byte_list::ByteList;
pub use fault::WireFault;
pub use laws::{holders_are_read, places_are_read, written_is_read};
pub use mentions::{Mentions, add_all_mentions};
pub use output::Output;
pub use spell::{
    Wire, WireWith, are_in_range, are_in_range_with, read_items, read_items_with, write_count,
    write_items, write_items_with,
};
pub use term_list::{TermList, distinct};
pub use terms::{InFull, Terms};

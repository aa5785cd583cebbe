//! What is listed of a command at a state, by name, and the small changes of a state that acts are made of.
//! `command_ways` is exactly the definition's list, in order, `is_listed` says of one way whether it is there, and each change is the definition's.
//!
//! Nothing here knows the limits of a path: px_steps looks at them before it changes anything.
#![tactic(auto)]

mod atoms;
mod bounds;
mod changes;
mod contents;
mod divisions;
mod listed;
mod meetings;
mod pointers;
mod ways;

pub use atoms::{cell_content, freed, freed_at, place_at, stored, take_block};
pub use bounds::{lacks_least, lacks_most, take_input};
pub use changes::{
    add_conjunct, begin, close_loop, count_added, innermost, mark, open_loop, set_slot,
    unless_there, variable_content,
};
pub use contents::{content_fits, has_type, is_cell, is_int_type, operand_fits};
pub use divisions::{lacks_quotient, take_quotient};
pub use listed::is_listed;
pub use meetings::{cells_of, meet_freed, meet_live};
pub use pointers::accessed;
pub use ways::{command_ways, goes_on};

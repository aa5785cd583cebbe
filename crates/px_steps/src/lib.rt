//! One step of a path: where a way of a command leads, and copies of states. `command_act` is exactly the definition,
//! limits included, and a drop has the state before the act.
//!
//! An act changes the state in its place. It is tested against the limits of a path before it changes anything, so that
//! a drop leaves the state as it was.
#![tactic(auto)]

mod access_effects;
mod accesses;
mod block_acts;
mod commands;
mod control_acts;
mod copies;
mod divide_acts;
mod input_acts;
mod led;
mod meetings;
mod path_limits;
mod reads;
mod return_acts;
mod test_acts;
mod words;

pub use commands::{command_act, command_act_in};
pub use control_acts::{iteration_act, iteration_act_in};
pub use copies::copy_state;
pub use led::Led;

//! Replay, an oracle of tests: the execution of a procedure that takes the choices of a trace and the given inputs.
//! `step_trace` answers how the one execution ends that follows the whole trace, or the mark at which the trace
//! departs.
//!
//! `specs/` says what it is to follow a trace, in terms of px_meaning's executions of typed trees, and how far one
//! that goes on or ends elsewhere can be followed.
#![tactic(auto)]

mod callees;
mod flow;
mod heap;
mod interpreter;
mod laws;
mod locals;
mod operators;
mod pointers;
mod replayed;
mod script;
mod stepping;
mod stop;

pub use heap::{Block, BlockState, Heap};
pub use laws::{followed_is_one, replay_confines, replay_decides, replay_reaches};
pub use replayed::{ReplayFault, Replayed};
pub use stepping::step_trace;

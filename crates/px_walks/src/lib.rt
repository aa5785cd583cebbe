//! Paths through the body of a job, step by step: where a path stands, the call that is going on, what is listed there,
//! and where each way leads. For every body, `start`, `ways`, `is_listed` and `act` are exactly the definitions, and no command is
//! ever copied.
#![tactic(auto)]

mod after;
mod beginning;
mod calls;
mod control;
mod pieces;
mod rules;
mod walk;
mod walking;

pub use beginning::start;
pub use calls::calls_nobody;
pub use control::Upcoming;
pub use pieces::{OpenLoop, Part, Piece};
pub use rules::{freed_rule, is_silent, live_rule};
pub use walk::Walk;
pub use walking::{
    act, act_command, act_in, choice_way, copy_walk, goes_on, is_calling, is_listed, next_item,
    ways,
};

//! Calls that are going on: an entry of the callee is chosen, each block that it requires is met, and what it says is
//! done. Entering, the ways on and where each leads are exactly the definition, limits included.
#![tactic(auto)]

mod acts;
mod arguments;
mod assuming;
mod call;
mod callees;
mod choosing;
mod entering;
mod finishing;
mod keys;
mod leaving;
mod led;
mod meeting;
mod names;
mod possible;
mod required;

pub use acts::{call_act, call_act_in};
pub use call::{Call, CallProgress, Calling, Matching, Stage, copy_call};
pub use entering::enter;
pub use led::CallLed;
pub use names::{call_ways, is_call_way, stage_way};

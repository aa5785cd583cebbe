//! The command that serves: a worker's outcome as the way in which a run ends. `work` gives that of the outcome of `serve`, and
//! a bad request or other domains exactly where the outcome is that.
#![tactic(auto)]

mod laws;
mod working;

pub use laws::whole_requests_are_served;
pub use working::work;

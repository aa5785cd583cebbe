//! What expressions of real C do as statements, and what an initialiser and a `return` need: typed statements of the profile.
#![tactic(auto)]

mod assignments;
mod effects;
mod laws;
mod results;
mod statements;
mod targets;

pub use effects::perform;
pub use laws::worked_effects;
pub use results::{put_begun, put_begun_with, put_return, put_return_of};
pub use statements::{put, put_all_evaluated, put_evaluated};

//! Lists of conjuncts, decided: refuted, where px_plain or a domain refutes them, found with a model, or undecided with
//! the conjuncts that were too hard. Each answer is exactly the definition's; what is decided is one decision, and what
//! is refuted stays so. The same is asked of what a stack and the domains hold, conjunct by conjunct.
#![tactic(auto)]

mod candidates;
mod chains;
mod choosing;
mod components;
mod decision;
mod held;
mod laws;
mod layout;
mod model;
mod outright;
mod search;
mod searching;
mod solver;
mod solving;
mod touching;
mod truth;

pub use decision::{Conjuncts, Decision, Values};
pub use held::{pop, push, refuted_now};
pub use laws::{
    found_models_fit, one_decision, one_plain_model, refuted_have_no_model, refuted_stays,
};
pub use solver::{decide, found, refuted};

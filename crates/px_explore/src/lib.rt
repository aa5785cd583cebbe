//! The search of a job: its prefixes are visited in order, depth first, and asked of the solver, some of them before they are
//! run. `analyse` gives the job's one table, and beside each entry the derivation by its own path, which derives it.
#![tactic(auto)]

mod branch_points;
mod constraints;
mod explore;
mod known;
mod laws;
mod missed;
mod results;
mod said;
mod stops;
mod taken;
mod thin;
mod trail;
mod weigh;

pub use explore::{analyse, analyse_and_count};
pub use laws::{analyses_have_no_ticket, one_analysis, own_derive, paths_are_prefixes};
pub use results::{Analysis, Counted};

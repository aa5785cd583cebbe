//! The jobs of a program's procedures: what each is made of, and whether a given job is one of them. There is one job a
//! ticket, and it stays while the tables that it awaits do.
#![tactic(auto)]

mod callees;
mod flags;
mod laws;
mod same;
mod sources;

pub use callees::callees_of;
pub use laws::jobs_of_procedures;
pub use sources::Sources;

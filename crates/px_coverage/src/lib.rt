//! No code: laws by which each execution of a procedure within the bounds of its job is covered by the job's table,
//! calls included, where the tables of its callees do the same.
#![tactic(auto)]

mod laws;

pub use laws::{cuts_are_honest, tables_cover, worked_covers};

//! The paths of a job: the alternatives of each command, prefixes by the choices that are made, and the table that they
//! give. `alternatives` is exactly the definition's list; a job has one table, and its prefixes are all cases, in
//! order.
#![tactic(auto)]

mod calls;
mod laws;
mod steps;

pub use laws::{
    acts_suffice, one_process, one_table, prefixes_are_cases, prefixes_are_shown, prefixes_next,
    refuted_stays_out, tables_have_no_ticket, worked_one, worked_tables,
};
pub use steps::alternatives;

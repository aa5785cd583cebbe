//! All that the program does, over the files, the input and the sinks that it is handed. `run` reads the words and does
//! what they ask for; docs/MEANING.md reads its clauses, which are the theorem ("`run`, clause by clause").
//!
//! For a report `run` reads each file, then the items of each; it makes the program of them, analyses each function, renders
//! the report and only then begins to write.
#![tactic(auto)]

mod laws;
mod program;
mod sampling;
mod words;
mod working;

pub use laws::{no_false_alarms, unfailed_checks_end_whole};
pub use program::{run, run_given};
pub use words::{Command, ReportAsked, options, read_command};

//! The words after a command's name: options, by name and with defaults (px_base has their ranges), and files, or the
//! numbers of a sample. They are read as exactly what they mean, and as nothing exactly where they are no command.
#![tactic(auto)]

mod command;
mod flag_name;
mod laws;
mod numbers;
mod option_name;
mod reading;
mod sample;

pub use flag_name::FlagName;
pub use laws::{what_is_written_is_read, worked_commands};
pub use option_name::{NumberName, OptionName};
pub use reading::{Options, read_keep, read_options};
pub use sample::{Sample, read_sample};

//! The two forms of a report, a text and JSON. `render` is the report on what was found out of a program, in the form
//! that is asked for, and `render_report` the form of a report, byte for byte.
#![tactic(auto)]

mod forms;
mod json;
mod laws;
mod objects;

pub use forms::{FormAsked, render, render_report};
pub use laws::forms_agree;

//! What a report says of what was found out of a program, and its form as a text. `report_on` is exactly the
//! definition's data, and a `Form` writes a report as its definition says, byte for byte.
#![tactic(auto)]

mod bug_lines;
mod drops;
mod faults;
mod form;
mod laws;
mod left_lines;
mod left_out;
mod reports;
mod shown;
mod text;
mod writing;

pub use bug_lines::{kind_text, put_mark_text, put_marks};
pub use drops::Dropped;
pub use faults::is_same_site;
pub use form::{Form, TextForm};
pub use laws::{bugs_are_of_entries, worked_bugs};
pub use left_lines::left_name;
pub use reports::{Report, report_on, table_count};
pub use shown::{Bug, bugs};
pub use text::{name_at, put, put_number, put_place};
pub use writing::report_text;

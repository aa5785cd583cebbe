//! Evaluates the expressions of real C as far as the profile sees them: each is a value of a profile type, or outside, with the parts that are evaluated
//! before it. What isn't understood is no refusal: where its value is needed it is a `Stop`.
#![tactic(auto)]

mod calls;
mod casts;
mod environment;
mod laws;
mod members;
mod operand;
mod operators;
mod spelling;
mod types;
mod values;
mod words;

pub use environment::{Callee, Environment, Library, Meaning, Signature, TypeSpelled};
pub use laws::{types_are_spelled, worked_values};
pub use operand::{Operand, alone, last_cell, put, put_all, stop};
pub use spelling::type_spelled;
pub use types::{int, is_int, type_id, value_type};
pub use values::{evaluate, first_site, is_zero, no_call, suffix, suffixes};
pub use words::{assignment_text, step_text};

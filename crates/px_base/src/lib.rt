//! Numbers, places, marks, kinds of errors, how much a program and a path may hold (specs/Bounds), and `Limits`, the
//! numbers of `--unroll`, `--paths` and `--nodes`. The numbers in `Limits` are in range.
#![tactic(auto)]

mod bounds;
mod limits;
mod trace;

pub use bounds::MOST_PARAMETERS;
pub use limits::{LimitField, Limits, OutOfRange};
pub use trace::{FieldId, Kind, Mark, MarkKind, ProcId, Site};

//! Samples: C programs of any number of procedures, drawn at random, to try an analysis on. `sample` is the text of the
//! definition, byte for byte, for 1 to 1,000 procedures.
#![tactic(auto)]

mod draws;
mod fault;
mod kind;
mod laws;
mod sampling;
mod text;

pub use fault::GenFault;
pub use laws::worked_sample;
pub use sampling::sample;

//! From the names of files to the program that they say. `load` gives the only program of the files, with left-out
//! items in the order of their places, or why there is none, of which `tell_fault` gives the status and the line.
//!
//! Each file is read once, in order, and then each is cut into items in order; the first that fails is named.
#![tactic(auto)]

mod fault;
mod inputs;
mod laws;
mod loading;
mod sources;
mod telling;
mod texts;

pub use fault::LoadFault;
pub use laws::left_in_order;
pub use loading::load;
pub use telling::tell_fault;

//! The program that files say: which items are kept, numbered and typed, and why the others are left out. `program` is
//! exactly that of the definition, or says that more than 1,024 procedures are kept.
#![tactic(auto)]

mod apart;
mod item_mentions;
mod items;
mod judging;
mod making;
mod marked;
mod marking;
mod mention;
mod numbering;
mod procedures;
mod shapes;
mod sights;
mod typing;
mod walk;

pub use px_syntax::{ParsedFile, ParsedItem};
pub use typing::{ProgramFault, program};

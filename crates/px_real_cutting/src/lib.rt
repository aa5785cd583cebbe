//! The items of a preprocessed C file: where each begins and ends, and whether it defines a function, in the old style too.
//! They are exactly the cutting rule's, by which all tokens are cut in one way.
//!
//! `specs/Pieces.antt` and `specs/Items.antt` say how a file is cut. The code scans the tokens once; that the
//! scan gives the pieces of the definition is proved in `proofs/`.
#![tactic(auto)]

mod brackets;
mod cutting;
mod fault;
mod laws;
mod pieces;
mod roles;
mod scanner;

pub use cutting::{Item, items};
pub use fault::ItemFault;
pub use laws::{one_cutting, some_cutting};

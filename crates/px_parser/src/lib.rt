//! The items of a C source (functions, prototypes, structs) and the tree of each. `parse` is the grammar, both ways, or
//! the one word and place of a refusal, and `function_name` is the name of an item of the shape of a function.
//!
//! Where each item begins and ends is px_cutting's to say, and its calls stand here too. `specs/ItemGrammar.antt`
//! has the grammar of items, over that of px_statements and px_expressions, production by production. The code
//! follows readers that read from left to right; that these read exactly what the grammar says is proved once,
//! in `proofs/`.
#![tactic(auto)]

mod item_parts;
mod names;
mod parsing;

pub use names::{function_name, one_name, some_name};
pub use parsing::{ParseFault, one_item, one_refusal, parse, some_item};
pub use px_cutting::{ItemFault, Span, items, one_cutting};

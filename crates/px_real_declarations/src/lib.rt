//! No code: the grammar of real C's declarations, C11's with the forms of GNU C, and the laws that tokens are one declaration at
//! most. It asks which words are names of types where a declaration begins, and nowhere else: lists of parameters, members and
//! enumerators, initialisers and arguments of attributes are held as their tokens.
#![tactic(auto)]

mod laws;
mod role;
mod trailing;

pub use laws::{one_declaration, one_member, one_parameter, worked_declarations};
pub use role::Role;
pub use trailing::Trailing;

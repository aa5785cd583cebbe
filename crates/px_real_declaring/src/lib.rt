//! Reads the declarations of real C: what declares, what is declared, and what is held. What is read is what the grammar of
//! px_real_declarations says of exactly these tokens, where these words are names of types.
#![tactic(auto)]

pub mod declarations;
pub mod declarators;
pub mod groups;
pub mod reading;
pub mod roles;
pub mod specifiers;
mod tree;

pub use reading::{DeclarationFault, declaration_of, member_of, parameter_of};
pub use roles::{is_storage_word, role_of};
pub use tree::{Declaration, Declarator, Declared, Group, Specifier, Suffix};

//! What the declarations of real C say of types, as far as the profile sees them: the type of what is declared, the function that a declarator
//! declares, the parameters that are kept and the cells of a struct, each as stated of the tree of the declaration.
#![tactic(auto)]

mod cells;
mod declarators;
mod known;
mod linkage;
mod scope;
mod shape;
mod specifiers;
mod words;

pub use cells::{Cell, layout, parameter_of};
pub use declarators::{Signature, declared_name, declared_shape, function_in, is_nothing};
pub use known::{Known, Member};
pub use linkage::{add_weak_names, says_static};
pub use scope::{Scope, Texts};
pub use shape::{Base, ProfileType, Shape};
pub use specifiers::specified;

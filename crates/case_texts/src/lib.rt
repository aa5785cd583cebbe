//! What programs of cases share: the loop over the lines of the input, the short form in which a case gives a text, the
//! file in which such a text stands, and the forms of variables, polynomials and conjuncts. It promises nothing.
#![tactic(auto)]

mod cases;
mod files;
mod terms;
mod texts;

pub use cases::answer_each;
pub use files::{FILE, MOST_BYTES, write_site};
pub use terms::{conjunct, conjuncts, polynomial, variables};
pub use texts::{BETWEEN, expanded};

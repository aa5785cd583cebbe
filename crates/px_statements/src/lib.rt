//! The grammar of C's statements, and of the declarations among them. A reader gives exactly the tree that the grammar
//! has, and there is one at most.
//!
//! `specs/SimpleGrammar.antt` has the productions of declarations, of simple statements and of what stands in the
//! heads of other statements, `specs/StatementGrammar.antt` those of statements. The code follows
//! `specs/SimpleReading.antt` and `specs/StatementReading.antt`, which read from left to right; that this reads
//! exactly what the grammar says is proved once, in `proofs/`.
#![tactic(auto)]

mod clauses;
mod declarations;
mod simple_statements;
mod statements;

pub use declarations::declarator;
pub use statements::body;

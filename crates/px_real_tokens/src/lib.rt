//! The tokens of a preprocessed C file: C11's, with letters beyond ASCII and digraphs. `lex` gives at each place the longest,
//! with its site and, where it is a constant of the profile, its value; or the first fault of the file.
#![tactic(auto)]

mod bytes;
mod cursor;
mod ends;
mod laws;
mod lexing;
mod lines;
mod literals;
mod numbers;
mod piece;
mod pieces;
mod punctuators;
mod token;

pub use laws::{one_reading, some_reading, tokens_stand};
pub use lexing::lex;
pub use token::{LexFault, Token, TokenKind};

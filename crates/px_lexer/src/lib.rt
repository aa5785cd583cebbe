//! The tokens of a C source. `lex` gives at each place the longest, with its site, or the first fault of the file;
//! tokens that are lent stand for those with their sites.
#![tactic(auto)]

mod bytes;
mod ends;
mod kept;
mod laws;
mod lexing;
mod lines;
mod numbers;
mod piece;
mod pieces;
mod places;
mod punctuators;
mod token;
mod tokens;

pub use laws::{one_reading, some_reading, tokens_stand};
pub use lexing::lex;
pub use token::{LexFault, Punctuator, Token, TokenKind};
pub use tokens::{LentToken, TokenSlice, Tokens};

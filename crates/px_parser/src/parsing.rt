ghost use Rattle.std.specs.Prelude.{◌≡◌, ◌<◌, List, ℕ, length, option_map, IfOk, IsErrOf};
ghost use Rattle.px_base.specs.declared.trace.Site.{Site as SpecSite};
ghost use Rattle.px_lexer.specs.declared.token.Token.{Token as SpecToken};
ghost use Rattle.px_lexer.specs.Lent.{as_token, as_tokens};
ghost use Rattle.px_syntax.specs.ItemTree.{ItemTree, item_tree};
ghost use Rattle.px_parser.specs.declared.parsing.ParseFault.TheVariants.{Outside, NoMemory};
ghost use Rattle.px_expressions.specs.Lexemes.{Lexeme, lexemes, seen};
ghost use Rattle.px_parser.specs.ItemReading.{item_at};
ghost use Rattle.px_parser.specs.ItemGrammar.{IsItem};
ghost use Rattle.px_parser.specs.Refusals.{outside_word, IsRefusal};
ghost use Rattle.px_parser.specs.Whole.{whole};
ghost use Rattle.px_parser.specs.Existence.{SomeItem};

use crate::item_parts::item;
use px_base::Site;
use px_expressions::{Fault, Input, is_outside, is_outside_punctuator, text};
use px_lexer::{LentToken, TokenKind, TokenSlice};
use px_syntax::{Item, Name};
use px_terms::NoMemory as OutOfMemory;
use std::alloc::{AllocFailed, Global};

/// Why an item has no tree.
#[derive(Drop)]
pub enum ParseFault {
    /// The grammar gives the item no tree. The word and the site are those of its first token that is
    /// outside the grammar: the token's text, or `string`, `character`, `directive`, and `constant` for a
    /// number that is no decimal constant. Where no token is outside, they are `form` and the first token.
    Outside { word: Name, site: Site },
    NoMemory,
}

impl From<OutOfMemory> for ParseFault {
    ghost from_gives = { λ _ e. e ≡ NoMemory };

    fn from(_error: OutOfMemory) -> ParseFault {
        ParseFault::NoMemory
    }
}

impl<T: Drop> From<AllocFailed<T>> for ParseFault {
    ghost from_gives = { λ _ e. e ≡ NoMemory };

    fn from(_error: AllocFailed<T>) -> ParseFault {
        ParseFault::NoMemory
    }
}

// The word for a token that is outside the grammar.
fn outside_word(alloc: Global, source: &[u8], token: LentToken) -> Result<Option<Name>, OutOfMemory>
    ensures { IfOk result (λ w. w ≡ outside_word source.now (as_token token.entry)) }
{
    let text = text(source, token.start(), token.end());
    let word = match token.kind() {
        TokenKind::Word => {
            if !is_outside(text) {
                return Ok(None);
            }
            text
        }
        TokenKind::Punctuator(punctuator) => {
            if !is_outside_punctuator(punctuator) {
                return Ok(None);
            }
            text
        }
        TokenKind::Constant => return Ok(None),
        TokenKind::OtherNumber => b"constant".as_slice(),
        TokenKind::String => b"string".as_slice(),
        TokenKind::Character => b"character".as_slice(),
        TokenKind::Directive => b"directive".as_slice(),
    };
    Ok(Some(Name::from_slice(alloc, word)?))
}

// The word and the site of an item without a tree.
fn refusal(alloc: Global, source: &[u8], tokens: TokenSlice) -> Result<(Name, Site), OutOfMemory>
    requires { 0 < length (as_tokens tokens) }
    ensures { IfOk result (λ x. IsRefusal source.now (as_tokens tokens.entry) x.0 x.1) }
{
    for i in 0..tokens.len() {
        let token = tokens.at(i);
        if let Some(word) = outside_word(alloc, source, token)? {
            return Ok((word, token.site()));
        }
    }
    Ok((Name::from_slice(alloc, b"form")?, tokens.at(0).site()))
}

// The item that the symbols are, all of them.
fn whole_item<'a>(alloc: Global, site: Site, input: Input<'a>) -> Result<Option<Item>, OutOfMemory>
    ensures { IfOk result (λ r. option_map item_tree r ≡ whole (item_at site (seen input.entry))) }
{
    match item(alloc, site, input) {
        Ok((item, rest)) => {
            if rest.is_empty() {
                Ok(Some(item))
            } else {
                Ok(None)
            }
        }
        Err(Fault::NoParse) => Ok(None),
        Err(Fault::NoMemory) => Err(OutOfMemory),
    }
}

/// The tree of an item, whose tokens these are and whose bytes are those of the source.
pub fn parse(alloc: Global, source: &[u8], tokens: TokenSlice) -> Result<Item, ParseFault>
    requires { 0 < length (as_tokens tokens) }
    // What is given is the item that the grammar gives these tokens.
    ensures found { IfOk result (λ i. IsItem (lexemes source.now (as_tokens tokens.entry)) (item_tree i)) }
    // Where the item is refused the grammar gives none, and the word and the place are those of a refusal.
    ensures outside { (word : List ℕ) (place : SpecSite) → IsErrOf result (Outside word place) → ((a : ItemTree) → IsItem (lexemes source.now (as_tokens tokens.entry)) a → ⊥) × IsRefusal source.now (as_tokens tokens.entry) word place }
{
    match whole_item(alloc, tokens.at(0).site(), Input::new(source, tokens))? {
        Some(item) => Ok(item),
        None => {
            let (word, site) = refusal(alloc, source, tokens)?;
            Err(ParseFault::Outside { word, site })
        }
    }
}

/// Tokens have at most one item.
pub fn one_item()
    ensures { (ts : List Lexeme) (a b : ItemTree) → IsItem ts a → IsItem ts b → a ≡ b }
{}

/// Tokens that aren't none have a tree, or there is none, and a refusal.
pub fn some_item()
    ensures { SomeItem }
{}

/// A refused item has one word and one place.
pub fn one_refusal()
    ensures { (source : List ℕ) (ts : List SpecToken) (word word2 : List ℕ) (place place2 : SpecSite) → IsRefusal source ts word place → IsRefusal source ts word2 place2 → (word ≡ word2) × (place ≡ place2) }
{}

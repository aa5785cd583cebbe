ghost use Rattle.std.specs.Prelude.{◌≡◌, [], false, true, drop};
ghost use Rattle.px_real_symbols.specs.Answers.{Gives};
ghost use Rattle.px_real_symbols.specs.Symbols.{seen, lexemes};
ghost use Rattle.px_real_blocks.specs.Parts.{no_types};
ghost use Rattle.px_real_declarations.specs.Grammar.{IsParameter};
ghost use Rattle.px_real_declarations.specs.Reading.{declaration_by, parameter_at};
ghost use Rattle.px_real_declaring.specs.Items.{nesting_limit, item_at};
ghost use Rattle.px_real_declaring.specs.Whole.{nothing_left, whole_by, IsOneOf, SameKind, IsRead};
ghost use Rattle.px_real_declaring.specs.Trees.{declaration_tree};
ghost use Rattle.px_real_declaring.specs.declared.reading.DeclarationFault.TheVariants.{NoMemory};

use crate::declarations::{declaration, parameter};
use crate::tree::Declaration;
use px_real_symbols::TypeNames;
use px_real_symbols::fault::Fault;
use px_real_symbols::symbol::{Tokens, symbols};
use px_real_tokens::Token;
use px_terms::NoMemory as OutOfMemory;
use std::alloc::Global;
use thiserror::Error;

/// Why tokens aren't read as a declaration. The numbers are of tokens and for messages alone: no clause says at which one it is found.
#[derive(Clone, Copy, Debug, PartialEq, Eq, Error)]
pub enum DeclarationFault {
    /// Nothing goes on with this token.
    #[error("this is no declaration")]
    NotADeclaration(usize),
    /// One more parenthesis or star within another than are read.
    #[error("the declarator nests too deep")]
    Deep(usize),
    /// There is no memory for the tree.
    #[error("out of memory")]
    NoMemory,
}

impl From<OutOfMemory> for DeclarationFault {
    ghost from_gives = { λ _ e. e ≡ NoMemory };

    fn from(_error: OutOfMemory) -> DeclarationFault {
        DeclarationFault::NoMemory
    }
}

/// No word is the name of a type.
pub struct NoTypes;

impl TypeNames for NoTypes {
    ghost named = { λ _ word. false };

    fn is_type(&self, _word: &[u8]) -> bool {
        false
    }
}

/// Whether nothing is left at this number; else it is a fault.
pub fn all_read(on: Tokens, at: usize) -> Result<(), Fault>
    ensures { Gives (seen on.entry) (λ x. (x, [])) result (nothing_left tt (drop at (seen on.entry))) }
{
    if at < on.symbols.len() {
        return Err(Fault::Wrong(at));
    }
    Ok(())
}

/// A fault as callers see it.
pub fn as_fault(fault: Fault, on: Tokens) -> DeclarationFault
    ensures { SameKind fault result }
{
    match fault {
        Fault::Wrong(at) => DeclarationFault::NotADeclaration(at.min(on.symbols.len())),
        Fault::Deep(at) => DeclarationFault::Deep(at.min(on.symbols.len())),
        Fault::NoMemory => DeclarationFault::NoMemory,
    }
}

// The declaration that all is, of members or another.
#[tactic(auto, unfolding(crate::specs::Whole::whole_by))]
fn whole<T: TypeNames>(
    alloc: Global,
    on: Tokens,
    types: &T,
    members: bool,
) -> Result<Declaration, Fault>
    ensures { Gives (seen on.entry) (λ d. (declaration_tree (seen on.entry) d, [])) result (whole_by (declaration_by (T.named types.now) (item_at (T.named types.now) members)) (seen on.entry)) }
{
    let (tree, next) = declaration(alloc, on, types, members, 0)?;
    all_read(on, next)?;
    Ok(tree)
}

// The parameter that all is.
#[tactic(auto, unfolding(crate::specs::Whole::whole_by))]
fn whole_parameter<T: TypeNames>(alloc: Global, on: Tokens, types: &T) -> Result<Declaration, Fault>
    ensures { Gives (seen on.entry) (λ d. (declaration_tree (seen on.entry) d, [])) result (whole_by (parameter_at (T.named types.now) nesting_limit) (seen on.entry)) }
{
    let (tree, next) = parameter(alloc, on, types, 0)?;
    all_read(on, next)?;
    Ok(tree)
}

// The declaration that all is, with faults as callers see them.
fn read<T: TypeNames>(
    alloc: Global,
    on: Tokens,
    types: &T,
    members: bool,
) -> Result<Declaration, DeclarationFault>
    ensures { IsRead (IsOneOf (T.named types.now) members (seen on.entry)) (declaration_tree (seen on.entry)) result }
{
    match whole(alloc, on, types, members) {
        Ok(tree) => Ok(tree),
        Err(fault) => Err(as_fault(fault, on)),
    }
}

// The parameter that all is, with faults as callers see them.
fn read_parameter<T: TypeNames>(
    alloc: Global,
    on: Tokens,
    types: &T,
) -> Result<Declaration, DeclarationFault>
    ensures { IsRead (IsParameter (T.named types.now) nesting_limit (seen on.entry)) (declaration_tree (seen on.entry)) result }
{
    match whole_parameter(alloc, on, types) {
        Ok(tree) => Ok(tree),
        Err(fault) => Err(as_fault(fault, on)),
    }
}

/// The declaration that these tokens are, all of them, without its semicolon; `types` says which words are names of types where it
/// begins. What is held in the tree is numbered as the tokens are.
pub fn declaration_of<T: TypeNames>(
    alloc: Global,
    source: &[u8],
    tokens: &[Token],
    types: &T,
) -> Result<Declaration, DeclarationFault>
    // What is given is the declaration of the grammar; where they are said to be none, or to nest too deep, they are none that nests
    // no deeper than declarators are read.
    ensures { IsRead (IsOneOf (T.named types.now) false (lexemes no_types source.now tokens.now)) (declaration_tree (lexemes no_types source.now tokens.now)) result }
{
    let symbols = symbols(alloc, source, &NoTypes, tokens)?;
    let on = Tokens {
        source,
        symbols: &symbols,
    };
    read(alloc, on, types, false)
}

/// The declaration of members that these tokens are, without its semicolon.
pub fn member_of<T: TypeNames>(
    alloc: Global,
    source: &[u8],
    tokens: &[Token],
    types: &T,
) -> Result<Declaration, DeclarationFault>
    ensures { IsRead (IsOneOf (T.named types.now) true (lexemes no_types source.now tokens.now)) (declaration_tree (lexemes no_types source.now tokens.now)) result }
{
    let symbols = symbols(alloc, source, &NoTypes, tokens)?;
    let on = Tokens {
        source,
        symbols: &symbols,
    };
    read(alloc, on, types, true)
}

/// The parameter that these tokens are; the name of a type is one whose name is missing.
pub fn parameter_of<T: TypeNames>(
    alloc: Global,
    source: &[u8],
    tokens: &[Token],
    types: &T,
) -> Result<Declaration, DeclarationFault>
    ensures { IsRead (IsParameter (T.named types.now) nesting_limit (lexemes no_types source.now tokens.now)) (declaration_tree (lexemes no_types source.now tokens.now)) result }
{
    let symbols = symbols(alloc, source, &NoTypes, tokens)?;
    let on = Tokens {
        source,
        symbols: &symbols,
    };
    read_parameter(alloc, on, types)
}

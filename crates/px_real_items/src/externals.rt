ghost use Rattle.std.specs.Prelude.{◌≡◌, map};
ghost use Rattle.px_real_symbols.specs.Symbols.{lexemes};
ghost use Rattle.px_real_declarations.specs.Grammar.{IsDeclaration, IsHead};
ghost use Rattle.px_real_declarations.specs.Names.{is_type};
ghost use Rattle.px_real_blocks.specs.Parts.{no_types, IsBracedBody};
ghost use Rattle.px_real_blocks.specs.Trees.{statement_tree};
ghost use Rattle.px_real_declaring.specs.Items.{nesting_limit};
ghost use Rattle.px_real_declaring.specs.Trees.{declaration_tree};
ghost use Rattle.px_real_declaring.specs.Whole.{IsRead};
ghost use Rattle.px_real_members.specs.Trees.{head_tree};
ghost use Rattle.px_real_names.specs.Behind.{of_head};
ghost use Rattle.px_real_items.specs.Ends.{end_of};
ghost use Rattle.px_real_items.specs.declared.ends.End.TheVariants.{Semicolon};
ghost use Rattle.px_real_items.specs.Trees.{itself, InScope, IsFunctionRead, IsExternalRead};

use crate::ends::{End, end_of};
use crate::tree::External;
use px_real_blocks::{BodyFault, Statement, body_of};
use px_real_declaring::{Declaration, DeclarationFault, declaration_of};
use px_real_members::{Head, head_of};
use px_real_names::Names;
use px_real_names::slices::{skip, some_first};
use px_real_tokens::Token;
use px_real_types::Texts;
use std::alloc::Global;

// The declaration that these tokens are, with what it brings into scope.
fn declaration(
    alloc: Global,
    source: &[u8],
    tokens: &[Token],
    names: &mut Names,
) -> Result<Declaration, DeclarationFault>
    ensures { InScope (IsDeclaration (is_type names.old) nesting_limit (lexemes no_types source.now tokens.now)) itself (declaration_tree (lexemes no_types source.now tokens.now)) names.old names.new result }
{
    let declaration = declaration_of(alloc, source, tokens, &*names)?;
    names.declare(alloc, Texts { source, tokens }, &declaration)?;
    Ok(declaration)
}

// The head of a function that these tokens are, with what it brings into scope.
fn head(
    alloc: Global,
    source: &[u8],
    tokens: &[Token],
    names: &mut Names,
) -> Result<Head, DeclarationFault>
    ensures { InScope (IsHead (is_type names.old) nesting_limit (lexemes no_types source.now tokens.now)) of_head (head_tree (lexemes no_types source.now tokens.now)) names.old names.new result }
{
    let head = head_of(alloc, source, tokens, &*names)?;
    names.declare_function(alloc, Texts { source, tokens }, &head)?;
    Ok(head)
}

// The body of a function that these tokens are.
fn body(alloc: Global, source: &[u8], tokens: &[Token]) -> Result<Vec<Statement>, DeclarationFault>
    ensures { IsRead (IsBracedBody (lexemes no_types source.now tokens.now)) (λ ss. map (statement_tree (lexemes no_types source.now tokens.now)) ss.items) result }
{
    match body_of(alloc, source, tokens) {
        Ok(statements) => Ok(statements),
        Err(BodyFault::NotBraced) => Err(DeclarationFault::NotADeclaration(0)),
        Err(BodyFault::NoMemory) => Err(DeclarationFault::NoMemory),
    }
}

// The function that these tokens are, whose body begins at this number.
fn function(
    alloc: Global,
    source: &[u8],
    tokens: &[Token],
    start: usize,
    names: &mut Names,
) -> Result<External, DeclarationFault>
    ensures { IsFunctionRead names.old (lexemes no_types source.now tokens.now) start names.new result }
{
    let body = body(alloc, source, skip(tokens, start))?;
    let head = head(alloc, source, some_first(tokens, start), names)?;
    Ok(External::Function { head, start, body })
}

// The declaration that these tokens are, if a semicolon ends them.
fn declared(
    alloc: Global,
    source: &[u8],
    tokens: &[Token],
    names: &mut Names,
) -> Result<External, DeclarationFault>
    ensures { end_of (lexemes no_types source.now tokens.now) ≡ Semicolon → IsExternalRead names.old (lexemes no_types source.now tokens.now) names.new result }
{
    let before = some_first(tokens, tokens.len().saturating_sub(1));
    match declaration(alloc, source, before, names) {
        Ok(declaration) => Ok(External::Declaration(declaration)),
        Err(fault) => Err(fault),
    }
}

// What these tokens declare or define, where these names are in scope; and they are then those in scope behind it.
pub fn external(
    alloc: Global,
    source: &[u8],
    tokens: &[Token],
    names: &mut Names,
) -> Result<External, DeclarationFault>
    ensures { IsExternalRead names.old (lexemes no_types source.now tokens.now) names.new result }
{
    match end_of(alloc, source, tokens)? {
        End::Semicolon => declared(alloc, source, tokens, names),
        End::Body(start) => function(alloc, source, tokens, start, names),
        End::Neither => Err(DeclarationFault::NotADeclaration(0)),
    }
}

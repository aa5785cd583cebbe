ghost use Rattle.std.specs.Prelude.{[], map};
ghost use Rattle.px_real_symbols.specs.Answers.{Gives};
ghost use Rattle.px_real_symbols.specs.Symbols.{seen, lexemes};
ghost use Rattle.px_real_blocks.specs.Parts.{no_types};
ghost use Rattle.px_real_declarations.specs.Grammar.{Members, Enumerators, Parameters as AreParameters, IsHead};
ghost use Rattle.px_real_declarations.specs.HeldReading.{members_at, enumerators_at, parameters_at, head_at};
ghost use Rattle.px_real_declaring.specs.Items.{nesting_limit};
ghost use Rattle.px_real_declaring.specs.Trees.{declaration_tree};
ghost use Rattle.px_real_declaring.specs.Whole.{whole_by, IsRead};
ghost use Rattle.px_real_members.specs.Trees.{enumerator_tree, parameters_tree, head_tree};

use crate::enumerators::enumerators;
use crate::heads::head;
use crate::lines::lines;
use crate::parameters::parameters;
use crate::tree::{Enumerator, Head, Parameters};
use px_real_declaring::reading::{NoTypes, all_read, as_fault};
use px_real_declaring::{Declaration, DeclarationFault};
use px_real_symbols::TypeNames;
use px_real_symbols::fault::Fault;
use px_real_symbols::symbol::{Tokens, symbols};
use px_real_tokens::Token;
use std::alloc::Global;

// The members that all are.
#[tactic(auto, unfolding(px_real_declaring::specs::Whole::whole_by))]
fn whole_members<T: TypeNames>(
    alloc: Global,
    on: Tokens,
    types: &T,
) -> Result<Vec<Declaration>, Fault>
    ensures { Gives (seen on.entry) (λ ds. (map (declaration_tree (seen on.entry)) ds.items, [])) result (whole_by (members_at (T.named types.now) nesting_limit) (seen on.entry)) }
{
    let (members, next) = lines(alloc, on, types, true, 0)?;
    all_read(on, next)?;
    Ok(members)
}

// The enumerators that all are.
#[tactic(auto, unfolding(px_real_declaring::specs::Whole::whole_by))]
fn whole_enumerators(alloc: Global, on: Tokens) -> Result<Vec<Enumerator>, Fault>
    ensures { Gives (seen on.entry) (λ es. (map (enumerator_tree (seen on.entry)) es.items, [])) result (whole_by enumerators_at (seen on.entry)) }
{
    let (enumerators, next) = enumerators(alloc, on, 0)?;
    all_read(on, next)?;
    Ok(enumerators)
}

// The parameters that all are.
#[tactic(auto, unfolding(px_real_declaring::specs::Whole::whole_by))]
fn whole_parameters<T: TypeNames>(alloc: Global, on: Tokens, types: &T) -> Result<Parameters, Fault>
    ensures { Gives (seen on.entry) (λ p. (parameters_tree (seen on.entry) p, [])) result (whole_by (parameters_at (T.named types.now) nesting_limit) (seen on.entry)) }
{
    let (parameters, next) = parameters(alloc, on, types, 0)?;
    all_read(on, next)?;
    Ok(parameters)
}

// The head that all is.
#[tactic(auto, unfolding(px_real_declaring::specs::Whole::whole_by))]
fn whole_head<T: TypeNames>(alloc: Global, on: Tokens, types: &T) -> Result<Head, Fault>
    ensures { Gives (seen on.entry) (λ h. (head_tree (seen on.entry) h, [])) result (whole_by (head_at (T.named types.now) nesting_limit) (seen on.entry)) }
{
    let (head, next) = head(alloc, on, types, 0)?;
    all_read(on, next)?;
    Ok(head)
}

// The members that all are, with faults as callers see them.
fn read_members<T: TypeNames>(
    alloc: Global,
    on: Tokens,
    types: &T,
) -> Result<Vec<Declaration>, DeclarationFault>
    ensures { IsRead (Members (T.named types.now) nesting_limit (seen on.entry)) (λ ds. map (declaration_tree (seen on.entry)) ds.items) result }
{
    match whole_members(alloc, on, types) {
        Ok(members) => Ok(members),
        Err(fault) => Err(as_fault(fault, on)),
    }
}

// The enumerators that all are, with faults as callers see them.
fn read_enumerators(alloc: Global, on: Tokens) -> Result<Vec<Enumerator>, DeclarationFault>
    ensures { IsRead (Enumerators (seen on.entry)) (λ es. map (enumerator_tree (seen on.entry)) es.items) result }
{
    match whole_enumerators(alloc, on) {
        Ok(enumerators) => Ok(enumerators),
        Err(fault) => Err(as_fault(fault, on)),
    }
}

// The parameters that all are, with faults as callers see them.
fn read_parameters<T: TypeNames>(
    alloc: Global,
    on: Tokens,
    types: &T,
) -> Result<Parameters, DeclarationFault>
    ensures { IsRead (AreParameters (T.named types.now) nesting_limit (seen on.entry)) (parameters_tree (seen on.entry)) result }
{
    match whole_parameters(alloc, on, types) {
        Ok(parameters) => Ok(parameters),
        Err(fault) => Err(as_fault(fault, on)),
    }
}

// The head that all is, with faults as callers see them.
fn read_head<T: TypeNames>(alloc: Global, on: Tokens, types: &T) -> Result<Head, DeclarationFault>
    ensures { IsRead (IsHead (T.named types.now) nesting_limit (seen on.entry)) (head_tree (seen on.entry)) result }
{
    match whole_head(alloc, on, types) {
        Ok(head) => Ok(head),
        Err(fault) => Err(as_fault(fault, on)),
    }
}

/// The members that these tokens are, all that stands between the braces of a struct or union; `types` says which words are names of
/// types where it begins. What is held in the trees is numbered as the tokens are.
pub fn members_of<T: TypeNames>(
    alloc: Global,
    source: &[u8],
    tokens: &[Token],
    types: &T,
) -> Result<Vec<Declaration>, DeclarationFault>
    // What is given is what the grammar has; where there is a fault but for memory, it has nothing that nests no deeper than
    // declarators are read.
    ensures { IsRead (Members (T.named types.now) nesting_limit (lexemes no_types source.now tokens.now)) (λ ds. map (declaration_tree (lexemes no_types source.now tokens.now)) ds.items) result }
{
    let symbols = symbols(alloc, source, &NoTypes, tokens)?;
    let on = Tokens {
        source,
        symbols: &symbols,
    };
    read_members(alloc, on, types)
}

/// The enumerators that these tokens are, all that stands between the braces of an enumeration.
pub fn enumerators_of(
    alloc: Global,
    source: &[u8],
    tokens: &[Token],
) -> Result<Vec<Enumerator>, DeclarationFault>
    ensures { IsRead (Enumerators (lexemes no_types source.now tokens.now)) (λ es. map (enumerator_tree (lexemes no_types source.now tokens.now)) es.items) result }
{
    let symbols = symbols(alloc, source, &NoTypes, tokens)?;
    let on = Tokens {
        source,
        symbols: &symbols,
    };
    read_enumerators(alloc, on)
}

/// The parameters that these tokens are, all that stands between the parentheses behind a declarator; or names alone.
pub fn parameters_of<T: TypeNames>(
    alloc: Global,
    source: &[u8],
    tokens: &[Token],
    types: &T,
) -> Result<Parameters, DeclarationFault>
    ensures { IsRead (AreParameters (T.named types.now) nesting_limit (lexemes no_types source.now tokens.now)) (parameters_tree (lexemes no_types source.now tokens.now)) result }
{
    let symbols = symbols(alloc, source, &NoTypes, tokens)?;
    let on = Tokens {
        source,
        symbols: &symbols,
    };
    read_parameters(alloc, on, types)
}

/// The head of a function that these tokens are, all that stands before its body.
pub fn head_of<T: TypeNames>(
    alloc: Global,
    source: &[u8],
    tokens: &[Token],
    types: &T,
) -> Result<Head, DeclarationFault>
    ensures { IsRead (IsHead (T.named types.now) nesting_limit (lexemes no_types source.now tokens.now)) (head_tree (lexemes no_types source.now tokens.now)) result }
{
    let symbols = symbols(alloc, source, &NoTypes, tokens)?;
    let on = Tokens {
        source,
        symbols: &symbols,
    };
    read_head(alloc, on, types)
}

ghost use Rattle.std.specs.Prelude.{◌≡◌, drop, map, option_map, true};
ghost use Rattle.px_real_symbols.specs.Answers.{Gives};
ghost use Rattle.px_real_symbols.specs.Symbols.{seen, held_in};
ghost use Rattle.px_real_expressions.specs.declared.terminal.Terminal.TheVariants.{Equal};
ghost use Rattle.px_real_declarations.specs.Reading.{value_at, declared_at, member_at, is_over, listed_at, some_specifiers, declaration_by, parameter_at};
ghost use Rattle.px_real_declaring.specs.Trees.{specifier_tree, declared_tree, declaration_tree};
ghost use Rattle.px_real_declaring.specs.Items.{nesting_limit, item_at, with_more};

use crate::declarators::declarator;
use crate::groups::{attributes, group};
use crate::specifiers::specifiers;
use crate::tree::{Declaration, Declarator, Declared, Specifier};
use px_real_blocks::phrases::part;
use px_real_declarations::Role;
use px_real_expressions::Terminal;
use px_real_symbols::fault::Fault;
use px_real_symbols::fronts::front;
use px_real_symbols::symbol::{Tokens, first, left};
use px_real_symbols::{Span, TypeNames};
use std::alloc::Global;

/// How many parentheses and stars may stand within one another in a declarator.
pub const NESTING_LIMIT: u32 = 200;

/// What stands behind a `=` or a `:` at this number, if one stands there, and the number of the token after it.
#[tactic(auto, unfolding(px_real_declarations::specs::Reading::value_at))]
pub fn value(
    alloc: Global,
    mark: Terminal,
    on: Tokens,
    at: usize,
) -> Result<(Option<Span>, usize), Fault>
    ensures { Gives (seen on.entry) (λ x. (option_map (held_in (seen on.entry)) x.0, drop x.1 (seen on.entry))) result (value_at mark (drop at (seen on.entry))) }
{
    let Some((_, next)) = front(mark, on, at) else {
        return Ok((None, at));
    };
    let (held, after) = part(alloc, on, next)?;
    Ok((Some(held), after))
}

// A declarator and what belongs to it, from this number on, and the number of the token after.
#[tactic(auto, unfolding(px_real_declarations::specs::Reading::declared_at))]
fn declared<T: TypeNames>(
    alloc: Global,
    on: Tokens,
    types: &T,
    mark: Terminal,
    at: usize,
) -> Result<(Declared, usize), Fault>
    ensures { Gives (seen on.entry) (λ x. (declared_tree (seen on.entry) x.0, drop x.1 (seen on.entry))) result (declared_at (T.named types.now) nesting_limit mark (drop at (seen on.entry))) }
{
    let (before, next) = attributes(alloc, on, at)?;
    let (declarator, next) = declarator(alloc, on, types, false, NESTING_LIMIT, next)?;
    let (label, next) = group(alloc, Role::Assembler, on, next)?;
    let (after, next) = attributes(alloc, on, next)?;
    let (value, last) = value(alloc, mark, on, next)?;
    Ok((
        Declared {
            before,
            declarator,
            label,
            after,
            value,
        },
        last,
    ))
}

// A member, which may be a width alone.
#[tactic(auto, unfolding(px_real_declarations::specs::Reading::member_at), using(crate::proofs::DeclaratorEquations::trees))]
fn member<T: TypeNames>(
    alloc: Global,
    on: Tokens,
    types: &T,
    at: usize,
) -> Result<(Declared, usize), Fault>
    ensures { Gives (seen on.entry) (λ x. (declared_tree (seen on.entry) x.0, drop x.1 (seen on.entry))) result (member_at (T.named types.now) nesting_limit (drop at (seen on.entry))) }
{
    let Some((_, next)) = front(Terminal::Colon, on, at) else {
        return declared(alloc, on, types, Terminal::Colon, at);
    };
    let (held, last) = part(alloc, on, next)?;
    Ok((
        Declared {
            before: Vec::new(alloc),
            declarator: Declarator::NoName,
            label: None,
            after: Vec::new(alloc),
            value: Some(held),
        },
        last,
    ))
}

// One of those that are declared: a member or another.
fn item<T: TypeNames>(
    alloc: Global,
    on: Tokens,
    types: &T,
    members: bool,
    at: usize,
) -> Result<(Declared, usize), Fault>
    ensures { Gives (seen on.entry) (λ x. (declared_tree (seen on.entry) x.0, drop x.1 (seen on.entry))) result (item_at (T.named types.now) members (drop at (seen on.entry))) }
{
    if members {
        member(alloc, on, types, at)
    } else {
        declared(alloc, on, types, Terminal::Equal, at)
    }
}

// What was declared first and what follows it, each behind a comma, and the number of the token after.
fn more<T: TypeNames>(
    alloc: Global,
    on: Tokens,
    types: &T,
    members: bool,
    first: Declared,
    start: usize,
) -> Result<(Vec<Declared>, usize), Fault>
    ensures { Gives (seen on.entry) (λ x. (map (declared_tree (seen on.entry)) x.0.items, drop x.1 (seen on.entry))) result (with_more (item_at (T.named types.now) members) (declared_tree (seen on.entry) first) (drop start (seen on.entry))) }
{
    let mut all = Vec::new(alloc);
    all.push(first)?;
    let mut at = start;
    for _ in 0..left(on, start) {
        let Some((_, next)) = front(Terminal::Comma, on, at) else {
            return Ok((all, at));
        };
        let (item, after) = item(alloc, on, types, members, next)?;
        all.push(item)?;
        at = after;
    }
    Ok((all, at))
}

// Whether nothing more is listed at this number: nothing follows, or a semicolon.
fn is_over(on: Tokens, at: usize) -> bool
    ensures { result ≡ is_over (drop at (seen on.entry)) }
{
    match first(on, at) {
        Some((symbol, _)) => symbol.terminal == Terminal::Semicolon,
        None => true,
    }
}

// All that is declared from this number on, with commas between, and the number of the token after.
fn listed<T: TypeNames>(
    alloc: Global,
    on: Tokens,
    types: &T,
    members: bool,
    start: usize,
) -> Result<(Vec<Declared>, usize), Fault>
    ensures { Gives (seen on.entry) (λ x. (map (declared_tree (seen on.entry)) x.0.items, drop x.1 (seen on.entry))) result (listed_at (item_at (T.named types.now) members) (drop start (seen on.entry))) }
{
    if is_over(on, start) {
        let nothing = Vec::new(alloc);
        return Ok((nothing, start));
    }
    let (first, after) = item(alloc, on, types, members, start)?;
    more(alloc, on, types, members, first, after)
}

/// These specifiers, where there is one at least; this number stands behind them.
pub fn non_empty(on: Tokens, specifiers: Vec<Specifier>, at: usize) -> Result<Vec<Specifier>, Fault>
    ensures { Gives (seen on.entry) (λ ss. (map (specifier_tree (seen on.entry)) ss.items, drop at (seen on.entry))) result (some_specifiers (map (specifier_tree (seen on.entry)) specifiers.items) (drop at (seen on.entry))) }
{
    if specifiers.is_empty() {
        return Err(Fault::Wrong(at));
    }
    Ok(specifiers)
}

/// The declaration without its semicolon that stands at this number, of members or another, and the number of the token after it.
#[tactic(auto, unfolding(px_real_declarations::specs::Reading::declaration_by))]
pub fn declaration<T: TypeNames>(
    alloc: Global,
    on: Tokens,
    types: &T,
    members: bool,
    at: usize,
) -> Result<(Declaration, usize), Fault>
    ensures { Gives (seen on.entry) (λ x. (declaration_tree (seen on.entry) x.0, drop x.1 (seen on.entry))) result (declaration_by (T.named types.now) (item_at (T.named types.now) members) (drop at (seen on.entry))) }
{
    let (assertion, after) = group(alloc, Role::Assertion, on, at)?;
    if let Some(assertion) = assertion {
        return Ok((Declaration::Assertion(assertion), after));
    }
    let (specifiers, next) = specifiers(alloc, on, types, at)?;
    let specifiers = non_empty(on, specifiers, next)?;
    let (declared, last) = listed(alloc, on, types, members, next)?;
    Ok((
        Declaration::Declaration {
            specifiers,
            declared,
        },
        last,
    ))
}

/// The parameter that stands at this number, or with no name the name of a type, and the number of the token after it.
#[tactic(auto, unfolding(px_real_declarations::specs::Reading::parameter_at))]
pub fn parameter<T: TypeNames>(
    alloc: Global,
    on: Tokens,
    types: &T,
    at: usize,
) -> Result<(Declaration, usize), Fault>
    ensures { Gives (seen on.entry) (λ x. (declaration_tree (seen on.entry) x.0, drop x.1 (seen on.entry))) result (parameter_at (T.named types.now) nesting_limit (drop at (seen on.entry))) }
{
    let (specifiers, next) = specifiers(alloc, on, types, at)?;
    let specifiers = non_empty(on, specifiers, next)?;
    let (declarator, next) = declarator(alloc, on, types, true, NESTING_LIMIT, next)?;
    let (after, last) = attributes(alloc, on, next)?;
    let mut declared = Vec::new(alloc);
    declared.push(Declared {
        before: Vec::new(alloc),
        declarator,
        label: None,
        after,
        value: None,
    })?;
    Ok((
        Declaration::Declaration {
            specifiers,
            declared,
        },
        last,
    ))
}

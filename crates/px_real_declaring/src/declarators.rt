ghost use Rattle.std.specs.Prelude.{◌≡◌, List, drop, map, length, option_map, IfOk, Option, Some, None};
ghost use Rattle.px_real_expressions.specs.Lexemes.{Lexeme};
ghost use Rattle.px_real_symbols.specs.Answers.{Gives};
ghost use Rattle.px_real_symbols.specs.Symbols.{see, seen};
ghost use Rattle.px_real_declarations.specs.Roles.{is_qualifier};
ghost use Rattle.px_real_declarations.specs.Reading.{role_front, qualifier_at, many_at, opens_parameters, declarator_at, declarator_of, pointer_at, inner_at, core_at, missing, behind_at};
ghost use Rattle.px_real_declaring.specs.Trees.{specifier_tree, declarator_tree, all_suffixed};
ghost use Rattle.px_real_declaring.specs.Suffixes.{suffix_at, suffix_tree};

use crate::groups::{attributes, group};
use crate::roles::role;
use crate::specifiers::{begins_keyword, is_type_name};
use crate::tree::{Declarator, Specifier, Suffix};
use px_real_declarations::Role;
use px_real_expressions::Terminal;
use px_real_symbols::TypeNames;
use px_real_symbols::fault::Fault;
use px_real_symbols::fronts::{front, identifier_front};
use px_real_symbols::held::held_group;
use px_real_symbols::symbol::{Symbol, Tokens, first, left, name};
use px_terms::NoMemory;
use std::alloc::Global;

// The qualifier or the attribute at this number, if one stands there, and the number of the token after it.
#[tactic(auto, unfolding(px_real_declarations::specs::Reading::qualifier_at))]
fn qualifier(alloc: Global, on: Tokens, at: usize) -> Result<(Option<Specifier>, usize), Fault>
    ensures { Gives (seen on.entry) (λ x. (option_map (specifier_tree (seen on.entry)) x.0, drop x.1 (seen on.entry))) result (qualifier_at (drop at (seen on.entry))) }
{
    if let Some((symbol, next)) = qualifier_front(on, at) {
        let word = name(alloc, on, symbol)?;
        let site = symbol.site;
        return Ok((Some(Specifier::Keyword { word, site }), next));
    }
    let (group, after) = group(alloc, Role::Attribute, on, at)?;
    match group {
        Some(group) => Ok((Some(Specifier::Group(group)), after)),
        None => Ok((None, after)),
    }
}

// Whether a keyword of this role is a qualifier behind a star.
fn is_qualifier(role: Role) -> bool
    ensures { result ≡ is_qualifier role }
{
    match role {
        Role::Qualifier | Role::Atomic => true,
        _ => false,
    }
}

// The word at this number, where it is a qualifier, and the number of the token after it.
fn qualifier_front(on: Tokens, at: usize) -> Option<(Symbol, usize)>
    ensures { option_map (λ x. (see on.entry.source.now x.0, drop x.1 (seen on.entry))) result ≡ role_front is_qualifier (drop at (seen on.entry)) }
{
    let (symbol, next) = first(on, at)?;
    if !is_qualifier(role(on, symbol)) {
        return None;
    }
    Some((symbol, next))
}

// The qualifiers and the attributes from this number on, and the number of the token after them.
fn qualifiers(alloc: Global, on: Tokens, start: usize) -> Result<(Vec<Specifier>, usize), Fault>
    ensures { Gives (seen on.entry) (λ x. (map (specifier_tree (seen on.entry)) x.0.items, drop x.1 (seen on.entry))) result (many_at (length (drop start (seen on.entry))) qualifier_at (drop start (seen on.entry))) }
{
    let mut all = Vec::new(alloc);
    let mut at = start;
    for _ in 0..left(on, start) {
        let (qualifier, after) = qualifier(alloc, on, at)?;
        let Some(qualifier) = qualifier else {
            return Ok((all, at));
        };
        all.push(qualifier)?;
        at = after;
    }
    Ok((all, at))
}

// Whether a list of parameters stands at this number, behind a parenthesis.
fn opens_parameters<T: TypeNames>(on: Tokens, types: &T, at: usize) -> bool
    ensures { result ≡ opens_parameters (T.named types.now) (drop at (seen on.entry)) }
{
    let Some((symbol, _)) = first(on, at) else {
        return false;
    };
    let mut opens = symbol.terminal == Terminal::CloseParenthesis;
    opens |= begins_keyword(role(on, symbol));
    opens |= is_type_name(on, types, symbol);
    opens
}

/// The declarator at this number, where so many parentheses and stars may stand within one another, and its name may be missing or not;
/// and the number of the token after it.
#[cycle(declarator)]
pub fn declarator<T: TypeNames>(
    alloc: Global,
    on: Tokens,
    types: &T,
    may_miss: bool,
    depth: u32,
    at: usize,
) -> Result<(Declarator, usize), Fault>
    ensures { Gives (seen on.entry) (λ x. (declarator_tree (seen on.entry) x.0, drop x.1 (seen on.entry))) result (declarator_at (T.named types.now) may_miss depth (drop at (seen on.entry))) }
{
    if depth == 0 {
        return Err(Fault::Deep(at));
    }
    opened(alloc, on, types, may_miss, depth - 1, at)
}

// The same, where so many may stand within it.
#[cycle(declarator)]
#[tactic(auto, unfolding(px_real_declarations::specs::Reading::declarator_of, px_real_declarations::specs::Reading::direct_at))]
fn opened<T: TypeNames>(
    alloc: Global,
    on: Tokens,
    types: &T,
    may_miss: bool,
    depth: u32,
    at: usize,
) -> Result<(Declarator, usize), Fault>
    ensures { Gives (seen on.entry) (λ x. (declarator_tree (seen on.entry) x.0, drop x.1 (seen on.entry))) result (declarator_of (T.named types.now) may_miss (declarator_at (T.named types.now) may_miss depth) (drop at (seen on.entry))) }
{
    if let Some((star, next)) = front(Terminal::Star, on, at) {
        return pointer(alloc, on, types, may_miss, depth, star, next);
    }
    let (core, next) = core(alloc, on, types, may_miss, depth, at)?;
    behind(alloc, on, core, next)
}

// What follows a star.
#[cycle(declarator)]
#[tactic(auto, unfolding(px_real_declarations::specs::Reading::pointer_at), using(crate::proofs::DeclaratorEquations::trees))]
fn pointer<T: TypeNames>(
    alloc: Global,
    on: Tokens,
    types: &T,
    may_miss: bool,
    depth: u32,
    star: Symbol,
    at: usize,
) -> Result<(Declarator, usize), Fault>
    ensures { Gives (seen on.entry) (λ x. (declarator_tree (seen on.entry) x.0, drop x.1 (seen on.entry))) result (pointer_at (declarator_at (T.named types.now) may_miss depth) (see on.entry.source.now star) (drop at (seen on.entry))) }
{
    let site = star.site;
    let (qualifiers, next) = qualifiers(alloc, on, at)?;
    let (target, after) = declarator(alloc, on, types, may_miss, depth, next)?;
    let target = Box::new(alloc, target)?;
    Ok((
        Declarator::Pointer {
            site,
            qualifiers,
            target,
        },
        after,
    ))
}

// What a declarator without a star begins with.
#[cycle(declarator)]
#[tactic(auto, unfolding(px_real_declarations::specs::Reading::core_at), using(crate::proofs::DeclaratorEquations::trees))]
fn core<T: TypeNames>(
    alloc: Global,
    on: Tokens,
    types: &T,
    may_miss: bool,
    depth: u32,
    at: usize,
) -> Result<(Declarator, usize), Fault>
    ensures { Gives (seen on.entry) (λ x. (declarator_tree (seen on.entry) x.0, drop x.1 (seen on.entry))) result (core_at (T.named types.now) may_miss (declarator_at (T.named types.now) may_miss depth) (drop at (seen on.entry))) }
{
    if let Some((symbol, next)) = identifier_front(on, at) {
        let name = name(alloc, on, symbol)?;
        let site = symbol.site;
        return Ok((Declarator::Name { name, site }, next));
    }
    let Some((bracket, inside)) = front(Terminal::OpenParenthesis, on, at) else {
        return missing(may_miss, on, at);
    };
    if may_miss && opens_parameters(on, types, inside) {
        return Ok((Declarator::NoName, at));
    }
    inner(alloc, on, types, may_miss, depth, bracket, inside)
}

// What follows the parenthesis that opens a declarator, up to the one that closes it.
#[cycle(declarator)]
#[tactic(auto, unfolding(px_real_declarations::specs::Reading::inner_at), using(crate::proofs::DeclaratorEquations::trees))]
fn inner<T: TypeNames>(
    alloc: Global,
    on: Tokens,
    types: &T,
    may_miss: bool,
    depth: u32,
    bracket: Symbol,
    at: usize,
) -> Result<(Declarator, usize), Fault>
    ensures { Gives (seen on.entry) (λ x. (declarator_tree (seen on.entry) x.0, drop x.1 (seen on.entry))) result (inner_at (declarator_at (T.named types.now) may_miss depth) (see on.entry.source.now bracket) (drop at (seen on.entry))) }
{
    let site = bracket.site;
    let (attributes, next) = attributes(alloc, on, at)?;
    let (inner, last) = declarator(alloc, on, types, may_miss, depth, next)?;
    let Some((_, after)) = front(Terminal::CloseParenthesis, on, last) else {
        return Err(Fault::Wrong(last));
    };
    let inner = Box::new(alloc, inner)?;
    Ok((
        Declarator::Inner {
            site,
            attributes,
            inner,
        },
        after,
    ))
}

// Where no name is, and no parenthesis.
#[tactic(auto, using(crate::proofs::DeclaratorEquations::trees))]
fn missing(may_miss: bool, on: Tokens, at: usize) -> Result<(Declarator, usize), Fault>
    ensures { Gives (seen on.entry) (λ x. (declarator_tree (seen on.entry) x.0, drop x.1 (seen on.entry))) result (missing may_miss (drop at (seen on.entry))) }
{
    if may_miss {
        Ok((Declarator::NoName, at))
    } else {
        Err(Fault::Wrong(at))
    }
}

// The bracket or the parenthesis at this number and what it holds, if one stands there, and the number of the token after.
#[tactic(auto, unfolding(crate::specs::Suffixes::suffix_at))]
fn suffix(alloc: Global, on: Tokens, at: usize) -> Result<(Option<Suffix>, usize), Fault>
    ensures { Gives (seen on.entry) (λ x. (option_map (suffix_tree (seen on.entry)) x.0, drop x.1 (seen on.entry))) result (suffix_at (drop at (seen on.entry))) }
{
    if let Some((symbol, next)) = front(Terminal::OpenBracket, on, at) {
        let (held, after) = held_group(alloc, Terminal::CloseBracket, on, next)?;
        let site = symbol.site;
        return Ok((Some(Suffix::Array { site, held }), after));
    }
    let Some((symbol, next)) = front(Terminal::OpenParenthesis, on, at) else {
        return Ok((None, at));
    };
    let (held, after) = held_group(alloc, Terminal::CloseParenthesis, on, next)?;
    let site = symbol.site;
    Ok((Some(Suffix::Function { site, held }), after))
}

// A declarator and what stands behind it, from this number on.
fn behind(
    alloc: Global,
    on: Tokens,
    core: Declarator,
    start: usize,
) -> Result<(Declarator, usize), Fault>
    ensures { Gives (seen on.entry) (λ x. (declarator_tree (seen on.entry) x.0, drop x.1 (seen on.entry))) result (behind_at (length (drop start (seen on.entry))) (declarator_tree (seen on.entry) core) (drop start (seen on.entry))) }
{
    let mut suffixes = Vec::new(alloc);
    let mut at = start;
    for _ in 0..left(on, start) {
        let (suffix, after) = suffix(alloc, on, at)?;
        let Some(suffix) = suffix else {
            let tree = suffixed(alloc, core, suffixes)?;
            return Ok((tree, after));
        };
        suffixes.push(suffix)?;
        at = after;
    }
    let tree = suffixed(alloc, core, suffixes)?;
    Ok((tree, at))
}

// A declarator with these behind it, if there are some.
#[tactic(auto, using(crate::proofs::DeclaratorEquations::trees))]
fn suffixed(alloc: Global, core: Declarator, suffixes: Vec<Suffix>) -> Result<Declarator, NoMemory>
    ensures { IfOk result (λ d. (all : List Lexeme) → declarator_tree all d ≡ all_suffixed all (declarator_tree all core) suffixes.items) }
{
    if suffixes.is_empty() {
        return Ok(core);
    }
    let core = Box::new(alloc, core)?;
    Ok(Declarator::Suffixed { core, suffixes })
}

ghost use Rattle.std.specs.Prelude.{◌≡◌, List, drop, map, length, false, option_map, is_some, IfOk, ◌&&◌, ◌||◌};
ghost use Rattle.px_real_expressions.specs.Lexemes.{Lexeme};
ghost use Rattle.px_real_expressions.specs.Operators.{is_identifier};
ghost use Rattle.px_real_symbols.specs.Answers.{Gives};
ghost use Rattle.px_real_symbols.specs.Symbols.{see, seen, held_in};
ghost use Rattle.px_real_declarations.specs.DeclarationTree.{keyword, says_type};
ghost use Rattle.px_real_declarations.specs.Roles.{begins_keyword, is_basic, says_in_group, role};
ghost use Rattle.px_real_declarations.specs.Reading.{tagged_at, tag_at, atomic_at, name_at, specifier_by, specifier_at, specifiers_at};
ghost use Rattle.px_real_declaring.specs.Trees.{specifier_tree};

use crate::groups::{attributes, braces, group_behind};
use crate::roles::{role, role_of};
use crate::tree::Specifier;
use px_expressions::text;
use px_real_declarations::Role;
use px_real_expressions::Terminal;
use px_real_symbols::fault::Fault;
use px_real_symbols::fronts::{front, identifier_front};
use px_real_symbols::operators::is_identifier;
use px_real_symbols::symbol::{Symbol, Tokens, first, left, name};
use px_real_symbols::{Span, TypeNames};
use px_syntax::Name;
use px_terms::NoMemory;
use std::alloc::Global;

/// Whether a token is a word that is the name of a type.
pub fn is_type_name<T: TypeNames>(on: Tokens, types: &T, symbol: Symbol) -> bool
    ensures { result ≡ is_identifier (see on.entry.source.now symbol).terminal && T.named types.now (see on.entry.source.now symbol).text }
{
    if !is_identifier(symbol.terminal) {
        return false;
    }
    types.is_type(text(on.source, symbol.start, symbol.end))
}

/// Whether a specifier begins with a keyword of this role.
pub fn begins_keyword(role: Role) -> bool
    ensures { result ≡ begins_keyword role }
{
    match role {
        Role::Assembler | Role::Assertion | Role::Ellipsis | Role::Other => false,
        _ => true,
    }
}

// A keyword alone.
fn keyword(alloc: Global, on: Tokens, symbol: Symbol) -> Result<Specifier, NoMemory>
    ensures { IfOk result (λ s. (all : List Lexeme) → specifier_tree all s ≡ keyword (see on.entry.source.now symbol).text symbol.site) }
{
    let word = name(alloc, on, symbol)?;
    let site = symbol.site;
    Ok(Specifier::Keyword { word, site })
}

// Whether there is a tag, or something held between braces.
fn has_either(tag: &Option<Name>, held: &Option<Span>) -> bool
    ensures { (all : List Lexeme) → result ≡ (is_some tag.now || is_some (option_map (held_in all) held.now)) }
{
    match tag {
        Some(_) => true,
        None => match held {
            Some(_) => true,
            None => false,
        },
    }
}

// What follows `struct`, `union` or `enum`.
#[tactic(auto, unfolding(px_real_declarations::specs::Reading::tagged_at))]
fn tagged(alloc: Global, on: Tokens, symbol: Symbol, at: usize) -> Result<(Specifier, usize), Fault>
    ensures { Gives (seen on.entry) (λ x. (specifier_tree (seen on.entry) x.0, drop x.1 (seen on.entry))) result (tagged_at (see on.entry.source.now symbol) (drop at (seen on.entry))) }
{
    let (attributes, next) = attributes(alloc, on, at)?;
    let (tag, next) = tag(alloc, on, next)?;
    let (held, after) = braces(alloc, on, next)?;
    if !has_either(&tag, &held) {
        return Err(Fault::Wrong(after));
    }
    let word = name(alloc, on, symbol)?;
    let site = symbol.site;
    let specifier = Specifier::Tagged {
        word,
        site,
        attributes,
        tag,
        held,
    };
    Ok((specifier, after))
}

// The tag at this number, if one stands there, and the number of the token after it.
#[tactic(auto, unfolding(px_real_declarations::specs::Reading::tag_at))]
fn tag(alloc: Global, on: Tokens, at: usize) -> Result<(Option<Name>, usize), Fault>
    ensures { Gives (seen on.entry) (λ x. (x.0, drop x.1 (seen on.entry))) result (tag_at (drop at (seen on.entry))) }
{
    let Some((symbol, next)) = identifier_front(on, at) else {
        return Ok((None, at));
    };
    let tag = name(alloc, on, symbol)?;
    Ok((Some(tag), next))
}

// `_Atomic` with its parentheses, or alone.
#[tactic(auto, unfolding(px_real_declarations::specs::Reading::atomic_at))]
fn atomic(alloc: Global, on: Tokens, symbol: Symbol, at: usize) -> Result<(Specifier, usize), Fault>
    ensures { Gives (seen on.entry) (λ x. (specifier_tree (seen on.entry) x.0, drop x.1 (seen on.entry))) result (atomic_at (see on.entry.source.now symbol) (drop at (seen on.entry))) }
{
    if let Some(_) = front(Terminal::OpenParenthesis, on, at) {
        let (group, after) = group_behind(alloc, on, symbol, at)?;
        return Ok((Specifier::Group(group), after));
    }
    let specifier = keyword(alloc, on, symbol)?;
    Ok((specifier, at))
}

// The name of a type, where no specifier before it said one; or no specifier.
fn named<T: TypeNames>(
    alloc: Global,
    on: Tokens,
    types: &T,
    said: bool,
    symbol: Symbol,
    at: usize,
    next: usize,
) -> Result<(Option<Specifier>, usize), Fault>
    ensures { Gives (seen on.entry) (λ x. (option_map (specifier_tree (seen on.entry)) x.0, drop x.1 (seen on.entry))) result (name_at (T.named types.now) said (drop at (seen on.entry)) (see on.entry.source.now symbol) (drop next (seen on.entry))) }
{
    if said {
        return Ok((None, at));
    }
    if !is_type_name(on, types, symbol) {
        return Ok((None, at));
    }
    let name = name(alloc, on, symbol)?;
    let site = symbol.site;
    Ok((Some(Specifier::TypeName { name, site }), next))
}

// The specifier that begins with this symbol, if one does; the symbol has the number `at`.
fn specifier_by<T: TypeNames>(
    alloc: Global,
    on: Tokens,
    types: &T,
    said: bool,
    symbol: Symbol,
    at: usize,
    next: usize,
) -> Result<(Option<Specifier>, usize), Fault>
    ensures { Gives (seen on.entry) (λ x. (option_map (specifier_tree (seen on.entry)) x.0, drop x.1 (seen on.entry))) result (specifier_by (role (see on.entry.source.now symbol)) (T.named types.now) said (drop at (seen on.entry)) (see on.entry.source.now symbol) (drop next (seen on.entry))) }
{
    match role(on, symbol) {
        Role::Storage | Role::Qualifier | Role::Basic => {
            let specifier = keyword(alloc, on, symbol)?;
            Ok((Some(specifier), next))
        }
        Role::Atomic => {
            let (specifier, after) = atomic(alloc, on, symbol, next)?;
            Ok((Some(specifier), after))
        }
        Role::Record | Role::Enumeration => {
            let (specifier, after) = tagged(alloc, on, symbol, next)?;
            Ok((Some(specifier), after))
        }
        Role::Typeof | Role::Alignment | Role::Attribute => {
            let (group, after) = group_behind(alloc, on, symbol, next)?;
            Ok((Some(Specifier::Group(group)), after))
        }
        _ => named(alloc, on, types, said, symbol, at, next),
    }
}

// The specifier at this number, if one stands there, and the number of the token after it; `said` says whether one before it said a type.
fn specifier<T: TypeNames>(
    alloc: Global,
    on: Tokens,
    types: &T,
    said: bool,
    at: usize,
) -> Result<(Option<Specifier>, usize), Fault>
    ensures { Gives (seen on.entry) (λ x. (option_map (specifier_tree (seen on.entry)) x.0, drop x.1 (seen on.entry))) result (specifier_at (T.named types.now) said (drop at (seen on.entry))) }
{
    let Some((symbol, next)) = first(on, at) else {
        return Ok((None, at));
    };
    specifier_by(alloc, on, types, said, symbol, at, next)
}

// Whether it says a type.
fn says_type(specifier: &Specifier) -> bool
    ensures { (all : List Lexeme) → result ≡ says_type (specifier_tree all specifier.now) }
{
    match specifier {
        Specifier::Keyword { word, .. } => is_basic(role_of(word.as_slice())),
        Specifier::Group(group) => says_in_group(role_of(group.word.as_slice())),
        Specifier::TypeName { .. } | Specifier::Tagged { .. } => true,
    }
}

// Whether a word of this role says a type alone.
fn is_basic(role: Role) -> bool
    ensures { result ≡ is_basic role }
{
    match role {
        Role::Basic => true,
        _ => false,
    }
}

// Whether a word of this role says a type with its parentheses.
fn says_in_group(role: Role) -> bool
    ensures { result ≡ says_in_group role }
{
    match role {
        Role::Atomic | Role::Typeof => true,
        _ => false,
    }
}

/// The specifiers from this number on, and the number of the token after them.
pub fn specifiers<T: TypeNames>(
    alloc: Global,
    on: Tokens,
    types: &T,
    start: usize,
) -> Result<(Vec<Specifier>, usize), Fault>
    ensures { Gives (seen on.entry) (λ x. (map (specifier_tree (seen on.entry)) x.0.items, drop x.1 (seen on.entry))) result (specifiers_at (T.named types.now) (length (drop start (seen on.entry))) false (drop start (seen on.entry))) }
{
    let mut all = Vec::new(alloc);
    let mut said = false;
    let mut at = start;
    for _ in 0..left(on, start) {
        let (specifier, after) = specifier(alloc, on, types, said, at)?;
        let Some(specifier) = specifier else {
            return Ok((all, at));
        };
        said |= says_type(&specifier);
        all.push(specifier)?;
        at = after;
    }
    Ok((all, at))
}

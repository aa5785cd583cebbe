ghost use Rattle.std.specs.Prelude.{◌≡◌, drop, map, length, option_map};
ghost use Rattle.px_real_symbols.specs.Answers.{Gives};
ghost use Rattle.px_real_symbols.specs.Symbols.{see, seen, held_in};
ghost use Rattle.px_real_declarations.specs.Reading.{role_front, group_behind, group_at, many_at, attributes_at, braces_at};
ghost use Rattle.px_real_declarations.specs.declared.role.Role.TheVariants.{Attribute};
ghost use Rattle.px_real_declarations.specs.Roles.{same_role};
ghost use Rattle.px_real_declaring.specs.Trees.{group_tree};

use crate::roles::role;
use crate::tree::Group;
use px_real_declarations::Role;
use px_real_expressions::Terminal;
use px_real_symbols::Span;
use px_real_symbols::fault::Fault;
use px_real_symbols::fronts::front;
use px_real_symbols::held::held_group;
use px_real_symbols::symbol::{Symbol, Tokens, first, left, name};
use std::alloc::Global;

/// The keyword at this number, where it has this role, and the number of the token after it.
pub fn role_front(wanted: Role, on: Tokens, at: usize) -> Option<(Symbol, usize)>
    ensures { option_map (λ x. (see on.entry.source.now x.0, drop x.1 (seen on.entry))) result ≡ role_front (same_role wanted) (drop at (seen on.entry)) }
{
    let (symbol, next) = first(on, at)?;
    if role(on, symbol) != wanted {
        return None;
    }
    Some((symbol, next))
}

/// A keyword and what stands in the parentheses at this number, and the number of the token after them.
#[tactic(auto, unfolding(px_real_declarations::specs::Reading::group_behind))]
pub fn group_behind(
    alloc: Global,
    on: Tokens,
    symbol: Symbol,
    at: usize,
) -> Result<(Group, usize), Fault>
    ensures { Gives (seen on.entry) (λ x. (group_tree (seen on.entry) x.0, drop x.1 (seen on.entry))) result (group_behind (see on.entry.source.now symbol) (drop at (seen on.entry))) }
{
    let Some((_, inner)) = front(Terminal::OpenParenthesis, on, at) else {
        return Err(Fault::Wrong(at));
    };
    let (held, after) = held_group(alloc, Terminal::CloseParenthesis, on, inner)?;
    let word = name(alloc, on, symbol)?;
    let site = symbol.site;
    Ok((Group { word, site, held }, after))
}

/// A keyword of this role with its parentheses, if one stands at this number.
#[tactic(auto, unfolding(px_real_declarations::specs::Reading::group_at))]
pub fn group(
    alloc: Global,
    wanted: Role,
    on: Tokens,
    at: usize,
) -> Result<(Option<Group>, usize), Fault>
    ensures { Gives (seen on.entry) (λ x. (option_map (group_tree (seen on.entry)) x.0, drop x.1 (seen on.entry))) result (group_at (same_role wanted) (drop at (seen on.entry))) }
{
    let Some((symbol, next)) = role_front(wanted, on, at) else {
        return Ok((None, at));
    };
    let (group, after) = group_behind(alloc, on, symbol, next)?;
    Ok((Some(group), after))
}

// The attributes from this number on, and the number of the token after them.
fn many(alloc: Global, on: Tokens, start: usize) -> Result<(Vec<Group>, usize), Fault>
    ensures { Gives (seen on.entry) (λ x. (map (group_tree (seen on.entry)) x.0.items, drop x.1 (seen on.entry))) result (many_at (length (drop start (seen on.entry))) (group_at (same_role Attribute)) (drop start (seen on.entry))) }
{
    let mut all = Vec::new(alloc);
    let mut at = start;
    for _ in 0..left(on, start) {
        let (group, after) = group(alloc, Role::Attribute, on, at)?;
        let Some(group) = group else {
            return Ok((all, at));
        };
        all.push(group)?;
        at = after;
    }
    Ok((all, at))
}

/// The same, as the grammar's reader of attributes.
#[tactic(auto, unfolding(px_real_declarations::specs::Reading::attributes_at))]
pub fn attributes(alloc: Global, on: Tokens, start: usize) -> Result<(Vec<Group>, usize), Fault>
    ensures { Gives (seen on.entry) (λ x. (map (group_tree (seen on.entry)) x.0.items, drop x.1 (seen on.entry))) result (attributes_at (drop start (seen on.entry))) }
{
    many(alloc, on, start)
}

/// What stands between braces at this number, if they stand there, and the number of the token after them.
#[tactic(auto, unfolding(px_real_declarations::specs::Reading::braces_at))]
pub fn braces(alloc: Global, on: Tokens, at: usize) -> Result<(Option<Span>, usize), Fault>
    ensures { Gives (seen on.entry) (λ x. (option_map (held_in (seen on.entry)) x.0, drop x.1 (seen on.entry))) result (braces_at (drop at (seen on.entry))) }
{
    let Some((_, inner)) = front(Terminal::OpenBrace, on, at) else {
        return Ok((None, at));
    };
    let (held, after) = held_group(alloc, Terminal::CloseBrace, on, inner)?;
    Ok((Some(held), after))
}

ghost use Rattle.std.specs.Prelude.{◌≡◌, map};
ghost use Rattle.px_syntax.specs.StatementTree.{init_tree, declaration_tree};
ghost use Rattle.px_expressions.specs.Lexemes.{seen};
ghost use Rattle.px_expressions.specs.Reading.{Gives, separated_at};
ghost use Rattle.px_statements.specs.SimpleReading.{declarator_at, init_at, declaration_at};

use px_expressions::{Fault, Input, Terminal, base, expression, front, name, stars};
use px_syntax::{Declaration, Declarator, InitDeclarator};
use px_terms::Items;
use std::alloc::Global;

/// The declarator at the front.
#[tactic(auto, unfolding(crate::specs::SimpleReading::declarator_at))]
pub fn declarator<'a>(alloc: Global, input: Input<'a>) -> Result<(Declarator, Input<'a>), Fault>
    ensures { Gives (λ x. (x.0, seen x.1)) result (declarator_at (seen input.entry)) }
{
    let (stars, rest) = stars(input);
    let Some((symbol, rest)) = front(Terminal::Name, rest) else {
        return Err(Fault::NoParse);
    };
    let name = name(alloc, rest.source, symbol)?;
    Ok((Declarator { stars, name }, rest))
}

// The declarator at the front, and the value that it begins with.
#[tactic(auto, unfolding(crate::specs::SimpleReading::init_at))]
fn init<'a>(
    alloc: Global,
    depth: u32,
    input: Input<'a>,
) -> Result<(InitDeclarator, Input<'a>), Fault>
    ensures { Gives (λ x. (init_tree x.0, seen x.1)) result (init_at depth (seen input.entry)) }
{
    let (declarator, rest) = declarator(alloc, input)?;
    let Some((_, after)) = front(Terminal::Equal, rest) else {
        return Ok((
            InitDeclarator {
                declarator,
                value: None,
            },
            rest,
        ));
    };
    let (value, rest) = expression(alloc, depth, after)?;
    Ok((
        InitDeclarator {
            declarator,
            value: Some(value),
        },
        rest,
    ))
}

// Declarators with their values, with commas between.
#[tactic(auto, unfolding(px_expressions::specs::Reading::separated_at))]
fn inits<'a>(
    alloc: Global,
    depth: u32,
    input: Input<'a>,
) -> Result<(Vec<InitDeclarator>, Input<'a>), Fault>
    ensures { Gives (λ x. (map init_tree x.0.items, seen x.1)) result (separated_at (init_at depth) (seen input.entry)) }
{
    let mut all = Vec::new(alloc);
    let (first, after) = init(alloc, depth, input)?;
    all.push(first)?;
    let mut rest = after;
    for _ in 0..after.len() {
        let Some((_, after)) = front(Terminal::Comma, rest) else {
            return Ok((all, rest));
        };
        let (next, after) = init(alloc, depth, after)?;
        all.push(next)?;
        rest = after;
    }
    Ok((all, rest))
}

/// The declaration at the front, without its semicolon.
#[tactic(auto, unfolding(crate::specs::SimpleReading::declaration_at))]
pub fn declaration<'a>(
    alloc: Global,
    depth: u32,
    input: Input<'a>,
) -> Result<(Declaration, Input<'a>), Fault>
    ensures { Gives (λ x. (declaration_tree x.0, seen x.1)) result (declaration_at depth (seen input.entry)) }
{
    let (base, rest) = base(alloc, input)?;
    let (all, rest) = inits(alloc, depth, rest)?;
    Ok((
        Declaration {
            base,
            declarators: Items::from_vec(all),
        },
        rest,
    ))
}

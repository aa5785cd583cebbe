ghost use Rattle.std.specs.Prelude.{◌≡◌, Some};
ghost use Rattle.px_expressions.specs.Lexemes.{seen};
ghost use Rattle.px_expressions.specs.Reading.{Gives, base_at, stars_at, type_at, begins_type};

use crate::fault::Fault;
use crate::fronts::front;
use crate::symbol::{Input, name};
use crate::terminal::Terminal;
use px_syntax::{Base, TypeName};
use std::alloc::Global;

/// The base at the front, and the symbols after it.
#[tactic(auto, unfolding(crate::specs::Reading::base_at))]
pub fn base<'a>(alloc: Global, input: Input<'a>) -> Result<(Base, Input<'a>), Fault>
    ensures { Gives (λ x. (x.0, seen x.1)) result (base_at (seen input.entry)) }
{
    if let Some((_, rest)) = front(Terminal::Int, input) {
        return Ok((Base::Int, rest));
    }
    let Some((_, rest)) = front(Terminal::Struct, input) else {
        return Err(Fault::NoParse);
    };
    let Some((tag, rest)) = front(Terminal::Name, rest) else {
        return Err(Fault::NoParse);
    };
    Ok((Base::Struct(name(alloc, rest.source, tag)?), rest))
}

/// The stars at the front, two at most, and the symbols after them.
#[tactic(auto, unfolding(crate::specs::Reading::stars_at))]
pub fn stars<'a>(input: Input<'a>) -> (u32, Input<'a>)
    ensures { stars_at (seen input.entry) ≡ Some (result.0, seen result.1) }
{
    let Some((_, rest)) = front(Terminal::Star, input) else {
        return (0, input);
    };
    match front(Terminal::Star, rest) {
        Some((_, rest)) => (2, rest),
        None => (1, rest),
    }
}

/// The type at the front, and the symbols after it.
#[tactic(auto, unfolding(crate::specs::Reading::type_at))]
pub fn type_name<'a>(alloc: Global, input: Input<'a>) -> Result<(TypeName, Input<'a>), Fault>
    ensures { Gives (λ x. (x.0, seen x.1)) result (type_at (seen input.entry)) }
{
    let (base, rest) = base(alloc, input)?;
    let (stars, rest) = stars(rest);
    Ok((TypeName { base, stars }, rest))
}

/// Whether a type begins here.
pub fn begins_type(input: Input) -> bool
    ensures { result ≡ begins_type (seen input.entry) }
{
    if input.is_empty() {
        return false;
    }
    input.terminal == Terminal::Int || input.terminal == Terminal::Struct
}

ghost use Rattle.std.specs.Prelude.{◌≡◌, drop, length, map};
ghost use Rattle.px_real_symbols.specs.Answers.{Gives};
ghost use Rattle.px_real_symbols.specs.Symbols.{see, seen};
ghost use Rattle.px_real_declarations.specs.Reading.{parameter_at};
ghost use Rattle.px_real_declarations.specs.HeldReading.{is_other_name, other_at, separated_from, parameters_at};
ghost use Rattle.px_real_declarations.specs.declared.trailing.Trailing.TheVariants.{Nothing, Dots};
ghost use Rattle.px_real_declaring.specs.Items.{nesting_limit};
ghost use Rattle.px_real_declaring.specs.Trees.{declaration_tree};
ghost use Rattle.px_real_members.specs.Trees.{parameters_tree};

use crate::commas::{Next, next_of};
use crate::tree::Parameters;
use px_expressions::text;
use px_real_declarations::Trailing;
use px_real_declaring::Declaration;
use px_real_declaring::declarations::parameter;
use px_real_symbols::TypeNames;
use px_real_symbols::fault::Fault;
use px_real_symbols::operators::is_identifier;
use px_real_symbols::symbol::{Symbol, Tokens, first, left, name};
use px_syntax::Name;
use std::alloc::Global;

// Whether a token is a name that is no type's.
fn is_other_name<T: TypeNames>(on: Tokens, types: &T, symbol: Symbol) -> bool
    ensures { result ≡ is_other_name (T.named types.now) (see on.entry.source.now symbol) }
{
    if !is_identifier(symbol.terminal) {
        return false;
    }
    !types.is_type(text(on.source, symbol.start, symbol.end))
}

// The name at this number that is no type's, and the number of the token after it.
#[tactic(auto, unfolding(px_real_declarations::specs::HeldReading::other_at))]
fn other<T: TypeNames>(
    alloc: Global,
    on: Tokens,
    types: &T,
    at: usize,
) -> Result<(Name, usize), Fault>
    ensures { Gives (seen on.entry) (λ x. (x.0, drop x.1 (seen on.entry))) result (other_at (T.named types.now) (drop at (seen on.entry))) }
{
    let Some((symbol, next)) = first(on, at) else {
        return Err(Fault::Wrong(at));
    };
    if !is_other_name(on, types, symbol) {
        return Err(Fault::Wrong(at));
    }
    let name = name(alloc, on, symbol)?;
    Ok((name, next))
}

// One name and those behind it, with commas between, and the number of the token after them.
fn names<T: TypeNames>(
    alloc: Global,
    on: Tokens,
    types: &T,
    start: usize,
) -> Result<(Vec<Name>, bool, usize), Fault>
    ensures { Gives (seen on.entry) (λ x. ((x.0.items, x.1), drop x.2 (seen on.entry))) result (separated_from Nothing (length (drop start (seen on.entry))) (other_at (T.named types.now)) (drop start (seen on.entry))) }
{
    let mut all = Vec::new(alloc);
    let mut at = start;
    for _ in 0..left(on, start) {
        let (name, after) = other(alloc, on, types, at)?;
        all.push(name)?;
        let next = next_of(Trailing::Nothing, on, after)?;
        match next {
            Next::Last(last) => return Ok((all, false, last)),
            Next::Dots(last) => return Ok((all, true, last)),
            Next::Another(another) => at = another,
        }
    }
    Err(Fault::Wrong(at))
}

// One parameter and those behind it, with commas between, whether `...` follows them, and the number of the token after.
fn declared<T: TypeNames>(
    alloc: Global,
    on: Tokens,
    types: &T,
    start: usize,
) -> Result<(Vec<Declaration>, bool, usize), Fault>
    ensures { Gives (seen on.entry) (λ x. ((map (declaration_tree (seen on.entry)) x.0.items, x.1), drop x.2 (seen on.entry))) result (separated_from Dots (length (drop start (seen on.entry))) (parameter_at (T.named types.now) nesting_limit) (drop start (seen on.entry))) }
{
    let mut all = Vec::new(alloc);
    let mut at = start;
    for _ in 0..left(on, start) {
        let (parameter, after) = parameter(alloc, on, types, at)?;
        all.push(parameter)?;
        let next = next_of(Trailing::Dots, on, after)?;
        match next {
            Next::Last(last) => return Ok((all, false, last)),
            Next::Dots(last) => return Ok((all, true, last)),
            Next::Another(another) => at = another,
        }
    }
    Err(Fault::Wrong(at))
}

// The parameters from this number on, or the names, and the number of the token after them.
pub fn parameters<T: TypeNames>(
    alloc: Global,
    on: Tokens,
    types: &T,
    start: usize,
) -> Result<(Parameters, usize), Fault>
    ensures { Gives (seen on.entry) (λ x. (parameters_tree (seen on.entry) x.0, drop x.1 (seen on.entry))) result (parameters_at (T.named types.now) nesting_limit (drop start (seen on.entry))) }
{
    let Some((symbol, _)) = first(on, start) else {
        let nothing = Vec::new(alloc);
        return Ok((Parameters::Names(nothing), start));
    };
    if is_other_name(on, types, symbol) {
        let (names, _, after) = names(alloc, on, types, start)?;
        return Ok((Parameters::Names(names), after));
    }
    let (parameters, variadic, after) = declared(alloc, on, types, start)?;
    Ok((
        Parameters::Declared {
            parameters,
            variadic,
        },
        after,
    ))
}

ghost use Rattle.std.specs.Prelude.{◌≡◌, drop, option_map};
ghost use Rattle.px_real_expressions.specs.Lexemes.{front, front_if};
ghost use Rattle.px_real_expressions.specs.Operators.{begins_type, is_identifier, front_by, operator_at, prefix_of, step_of, measure_of, assignment_of};
ghost use Rattle.px_real_expressions.specs.Reading.{after_strings};
ghost use Rattle.px_real_symbols.specs.Symbols.{see, seen};

use crate::operators::{
    assignment_of, begins_type, is_identifier, measure_of, operator_at, prefix_of, step_of,
};
use crate::symbol::{Symbol, Tokens, first};
use px_real_expressions::{Measure, Operator, Prefix, Step, Terminal};

/// The symbol with this number where it is that terminal, and the number of the next.
pub fn front(terminal: Terminal, on: Tokens, at: usize) -> Option<(Symbol, usize)>
    ensures { option_map (λ x. (see on.entry.source.now x.0, drop x.1 (seen on.entry))) result ≡ front terminal (drop at (seen on.entry)) }
{
    let (symbol, next) = first(on, at)?;
    if symbol.terminal != terminal {
        return None;
    }
    Some((symbol, next))
}

/// The same where it begins a type's name.
pub fn type_front(on: Tokens, at: usize) -> Option<(Symbol, usize)>
    ensures { option_map (λ x. (see on.entry.source.now x.0, drop x.1 (seen on.entry))) result ≡ front_if begins_type (drop at (seen on.entry)) }
{
    let (symbol, next) = first(on, at)?;
    if !begins_type(symbol.terminal) {
        return None;
    }
    Some((symbol, next))
}

/// The same where it is an identifier.
pub fn identifier_front(on: Tokens, at: usize) -> Option<(Symbol, usize)>
    ensures { option_map (λ x. (see on.entry.source.now x.0, drop x.1 (seen on.entry))) result ≡ front_if is_identifier (drop at (seen on.entry)) }
{
    let (symbol, next) = first(on, at)?;
    if !is_identifier(symbol.terminal) {
        return None;
    }
    Some((symbol, next))
}

/// The operator of this level that it is between operands.
pub fn operator(level: u32, on: Tokens, at: usize) -> Option<(Operator, Symbol, usize)>
    ensures { option_map (λ x. (x.0, see on.entry.source.now x.1, drop x.2 (seen on.entry))) result ≡ front_by (operator_at level) (drop at (seen on.entry)) }
{
    let (symbol, next) = first(on, at)?;
    let operator = operator_at(level, symbol.terminal)?;
    Some((operator, symbol, next))
}

/// The operator that it is before an operand.
pub fn prefix(on: Tokens, at: usize) -> Option<(Prefix, Symbol, usize)>
    ensures { option_map (λ x. (x.0, see on.entry.source.now x.1, drop x.2 (seen on.entry))) result ≡ front_by prefix_of (drop at (seen on.entry)) }
{
    let (symbol, next) = first(on, at)?;
    let operator = prefix_of(symbol.terminal)?;
    Some((operator, symbol, next))
}

/// The operator that it is after an operand.
pub fn step(on: Tokens, at: usize) -> Option<(Step, Symbol, usize)>
    ensures { option_map (λ x. (x.0, see on.entry.source.now x.1, drop x.2 (seen on.entry))) result ≡ front_by step_of (drop at (seen on.entry)) }
{
    let (symbol, next) = first(on, at)?;
    let operator = step_of(symbol.terminal)?;
    Some((operator, symbol, next))
}

/// The measure that it is.
pub fn measure(on: Tokens, at: usize) -> Option<(Measure, Symbol, usize)>
    ensures { option_map (λ x. (x.0, see on.entry.source.now x.1, drop x.2 (seen on.entry))) result ≡ front_by measure_of (drop at (seen on.entry)) }
{
    let (symbol, next) = first(on, at)?;
    let measure = measure_of(symbol.terminal)?;
    Some((measure, symbol, next))
}

/// The assignment that it is.
pub fn assignment(on: Tokens, at: usize) -> Option<(Option<Operator>, Symbol, usize)>
    ensures { option_map (λ x. (x.0, see on.entry.source.now x.1, drop x.2 (seen on.entry))) result ≡ front_by assignment_of (drop at (seen on.entry)) }
{
    let (symbol, next) = first(on, at)?;
    let operator = assignment_of(symbol.terminal)?;
    Some((operator, symbol, next))
}

/// The number of the token after the strings.
pub fn after_strings(on: Tokens, start: usize) -> usize
    ensures { drop result (seen on.entry) ≡ after_strings (drop start (seen on.entry)) }
{
    for at in start..on.symbols.len() {
        if on.symbols[at].terminal != Terminal::String {
            return at;
        }
    }
    on.symbols.len()
}

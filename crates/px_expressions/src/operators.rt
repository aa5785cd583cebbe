ghost use Rattle.std.specs.Prelude.{◌≡◌, option_map};
ghost use Rattle.px_expressions.specs.Lexemes.{see, seen};
ghost use Rattle.px_expressions.specs.Reading.{level_of, binary_of, operator_at, prefix_of, operator_front, prefix_front};

use crate::symbol::{Input, Symbol};
use crate::terminal::Terminal;
use px_syntax::{BinaryOperator, UnaryOperator};

// How loosely the terminal ties what stands before it to what follows.
fn level_of(terminal: Terminal) -> u32
    ensures { result ≡ level_of terminal }
{
    match terminal {
        Terminal::Arrow | Terminal::OpenParenthesis => 0,
        Terminal::Star | Terminal::Slash | Terminal::Percent => 1,
        Terminal::Plus | Terminal::Minus => 2,
        Terminal::Less | Terminal::LessEqual | Terminal::Greater | Terminal::GreaterEqual => 3,
        Terminal::EqualEqual | Terminal::NotEqual => 4,
        Terminal::AndAnd => 5,
        Terminal::OrOr => 6,
        _ => 7,
    }
}

// The operator that the terminal is between operands.
fn binary_of(terminal: Terminal) -> Option<BinaryOperator>
    ensures { result ≡ binary_of terminal }
{
    match terminal {
        Terminal::Star => Some(BinaryOperator::Multiply),
        Terminal::Slash => Some(BinaryOperator::Divide),
        Terminal::Percent => Some(BinaryOperator::Remainder),
        Terminal::Plus => Some(BinaryOperator::Add),
        Terminal::Minus => Some(BinaryOperator::Subtract),
        Terminal::Less => Some(BinaryOperator::Less),
        Terminal::LessEqual => Some(BinaryOperator::LessEqual),
        Terminal::Greater => Some(BinaryOperator::Greater),
        Terminal::GreaterEqual => Some(BinaryOperator::GreaterEqual),
        Terminal::EqualEqual => Some(BinaryOperator::Equal),
        Terminal::NotEqual => Some(BinaryOperator::NotEqual),
        Terminal::AndAnd => Some(BinaryOperator::And),
        Terminal::OrOr => Some(BinaryOperator::Or),
        _ => None,
    }
}

// The operator of this level that the terminal is.
fn operator_at(level: u32, terminal: Terminal) -> Option<BinaryOperator>
    ensures { result ≡ operator_at level terminal }
{
    if level_of(terminal) == level {
        binary_of(terminal)
    } else {
        None
    }
}

// The operator that the terminal is before an operand.
fn prefix_of(terminal: Terminal) -> Option<UnaryOperator>
    ensures { result ≡ prefix_of terminal }
{
    match terminal {
        Terminal::Minus => Some(UnaryOperator::Minus),
        Terminal::Not => Some(UnaryOperator::Not),
        Terminal::Star => Some(UnaryOperator::Indirection),
        _ => None,
    }
}

// The operator of this level at the front, its symbol, and those after it.
pub fn operator<'a>(level: u32, input: Input<'a>) -> Option<(BinaryOperator, Symbol, Input<'a>)>
    ensures { option_map (λ x. (x.0, see x.2.source.now x.1, seen x.2)) result ≡ operator_front level (seen input.entry) }
{
    let operator = operator_at(level, input.terminal)?;
    let (symbol, rest) = input.first()?;
    Some((operator, symbol, Input::new(input.source, rest)))
}

// The operator before an operand, its symbol, and those after it.
pub fn prefix<'a>(input: Input<'a>) -> Option<(UnaryOperator, Symbol, Input<'a>)>
    ensures { option_map (λ x. (x.0, see x.2.source.now x.1, seen x.2)) result ≡ prefix_front (seen input.entry) }
{
    let operator = prefix_of(input.terminal)?;
    let (symbol, rest) = input.first()?;
    Some((operator, symbol, Input::new(input.source, rest)))
}

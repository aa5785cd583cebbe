ghost use Rattle.std.specs.Prelude.{◌≡◌};
ghost use Rattle.px_real_expressions.specs.Operators.{begins_type, is_identifier, begins_expression, opens_group, level_of, binary_of, operator_at, assignment_of, prefix_of, wants_unary, step_of, measure_of};
ghost use Rattle.px_real_expressions.specs.Held.{closing, closes_something};

use px_real_expressions::{Measure, Operator, Prefix, Step, Terminal};

/// Whether it begins the name of a type.
pub fn begins_type(terminal: Terminal) -> bool
    ensures { result ≡ begins_type terminal }
{
    match terminal {
        Terminal::Type | Terminal::TypeName => true,
        _ => false,
    }
}

/// Whether it is a word that is no keyword.
pub fn is_identifier(terminal: Terminal) -> bool
    ensures { result ≡ is_identifier terminal }
{
    match terminal {
        Terminal::Name | Terminal::TypeName => true,
        _ => false,
    }
}

/// Whether an expression begins with it.
pub fn begins_expression(terminal: Terminal) -> bool
    ensures { result ≡ begins_expression terminal }
{
    match terminal {
        Terminal::Name
        | Terminal::Constant
        | Terminal::String
        | Terminal::Form
        | Terminal::Sizeof
        | Terminal::Alignof
        | Terminal::Extension
        | Terminal::Real
        | Terminal::Imaginary
        | Terminal::OpenParenthesis
        | Terminal::PlusPlus
        | Terminal::MinusMinus
        | Terminal::Ampersand
        | Terminal::Star
        | Terminal::Plus
        | Terminal::Minus
        | Terminal::Tilde
        | Terminal::Not
        | Terminal::AndAnd => true,
        _ => false,
    }
}

/// Whether it may stand behind an opening parenthesis, where no type's name does.
pub fn opens_group(terminal: Terminal) -> bool
    ensures { result ≡ opens_group terminal }
{
    match terminal {
        Terminal::OpenBrace => true,
        _ => begins_expression(terminal),
    }
}

// How loosely it ties what stands before it to what follows.
fn level_of(terminal: Terminal) -> u32
    ensures { result ≡ level_of terminal }
{
    match terminal {
        Terminal::OpenBrace
        | Terminal::OpenParenthesis
        | Terminal::OpenBracket
        | Terminal::Dot
        | Terminal::Arrow
        | Terminal::PlusPlus
        | Terminal::MinusMinus
        | Terminal::String => 0,
        Terminal::Star | Terminal::Slash | Terminal::Percent => 1,
        Terminal::Plus | Terminal::Minus => 2,
        Terminal::ShiftLeft | Terminal::ShiftRight => 3,
        Terminal::Less | Terminal::Greater | Terminal::LessEqual | Terminal::GreaterEqual => 4,
        Terminal::EqualEqual | Terminal::NotEqual => 5,
        Terminal::Ampersand => 6,
        Terminal::Caret => 7,
        Terminal::Bar => 8,
        Terminal::AndAnd => 9,
        Terminal::OrOr => 10,
        Terminal::Question => 11,
        Terminal::Equal
        | Terminal::StarEqual
        | Terminal::SlashEqual
        | Terminal::PercentEqual
        | Terminal::PlusEqual
        | Terminal::MinusEqual
        | Terminal::ShiftLeftEqual
        | Terminal::ShiftRightEqual
        | Terminal::AmpersandEqual
        | Terminal::CaretEqual
        | Terminal::BarEqual => 12,
        Terminal::Comma => 13,
        _ => 14,
    }
}

// The operator that it is between operands.
fn binary_of(terminal: Terminal) -> Option<Operator>
    ensures { result ≡ binary_of terminal }
{
    match terminal {
        Terminal::Star => Some(Operator::Multiply),
        Terminal::Slash => Some(Operator::Divide),
        Terminal::Percent => Some(Operator::Remainder),
        Terminal::Plus => Some(Operator::Add),
        Terminal::Minus => Some(Operator::Subtract),
        Terminal::ShiftLeft => Some(Operator::ShiftLeft),
        Terminal::ShiftRight => Some(Operator::ShiftRight),
        Terminal::Less => Some(Operator::Less),
        Terminal::Greater => Some(Operator::Greater),
        Terminal::LessEqual => Some(Operator::LessEqual),
        Terminal::GreaterEqual => Some(Operator::GreaterEqual),
        Terminal::EqualEqual => Some(Operator::Equal),
        Terminal::NotEqual => Some(Operator::NotEqual),
        Terminal::Ampersand => Some(Operator::BitAnd),
        Terminal::Caret => Some(Operator::BitXor),
        Terminal::Bar => Some(Operator::BitOr),
        Terminal::AndAnd => Some(Operator::And),
        Terminal::OrOr => Some(Operator::Or),
        Terminal::Comma => Some(Operator::Comma),
        _ => None,
    }
}

/// The same, at this level.
pub fn operator_at(level: u32, terminal: Terminal) -> Option<Operator>
    ensures { result ≡ operator_at level terminal }
{
    if level_of(terminal) == level {
        binary_of(terminal)
    } else {
        None
    }
}

/// The operator that goes with the assignment that it is, if one does.
pub fn assignment_of(terminal: Terminal) -> Option<Option<Operator>>
    ensures { result ≡ assignment_of terminal }
{
    match terminal {
        Terminal::Equal => Some(None),
        Terminal::StarEqual => Some(Some(Operator::Multiply)),
        Terminal::SlashEqual => Some(Some(Operator::Divide)),
        Terminal::PercentEqual => Some(Some(Operator::Remainder)),
        Terminal::PlusEqual => Some(Some(Operator::Add)),
        Terminal::MinusEqual => Some(Some(Operator::Subtract)),
        Terminal::ShiftLeftEqual => Some(Some(Operator::ShiftLeft)),
        Terminal::ShiftRightEqual => Some(Some(Operator::ShiftRight)),
        Terminal::AmpersandEqual => Some(Some(Operator::BitAnd)),
        Terminal::CaretEqual => Some(Some(Operator::BitXor)),
        Terminal::BarEqual => Some(Some(Operator::BitOr)),
        _ => None,
    }
}

/// The operator that it is before an operand.
pub fn prefix_of(terminal: Terminal) -> Option<Prefix>
    ensures { result ≡ prefix_of terminal }
{
    match terminal {
        Terminal::Ampersand => Some(Prefix::Address),
        Terminal::Star => Some(Prefix::Indirection),
        Terminal::Plus => Some(Prefix::Plus),
        Terminal::Minus => Some(Prefix::Minus),
        Terminal::Tilde => Some(Prefix::Complement),
        Terminal::Not => Some(Prefix::Not),
        Terminal::PlusPlus => Some(Prefix::Increment),
        Terminal::MinusMinus => Some(Prefix::Decrement),
        Terminal::Extension => Some(Prefix::Extension),
        Terminal::Real => Some(Prefix::Real),
        Terminal::Imaginary => Some(Prefix::Imaginary),
        _ => None,
    }
}

/// Whether the operator stands before unary expressions alone.
pub fn wants_unary(operator: Prefix) -> bool
    ensures { result ≡ wants_unary operator }
{
    match operator {
        Prefix::Increment | Prefix::Decrement => true,
        _ => false,
    }
}

/// The operator that it is after an operand.
pub fn step_of(terminal: Terminal) -> Option<Step>
    ensures { result ≡ step_of terminal }
{
    match terminal {
        Terminal::PlusPlus => Some(Step::Increment),
        Terminal::MinusMinus => Some(Step::Decrement),
        _ => None,
    }
}

/// The measure that it is.
pub fn measure_of(terminal: Terminal) -> Option<Measure>
    ensures { result ≡ measure_of terminal }
{
    match terminal {
        Terminal::Sizeof => Some(Measure::Size),
        Terminal::Alignof => Some(Measure::Alignment),
        _ => None,
    }
}

/// The terminal that closes what it opens.
pub fn closing(terminal: Terminal) -> Option<Terminal>
    ensures { result ≡ closing terminal }
{
    match terminal {
        Terminal::OpenParenthesis => Some(Terminal::CloseParenthesis),
        Terminal::OpenBracket => Some(Terminal::CloseBracket),
        Terminal::OpenBrace => Some(Terminal::CloseBrace),
        _ => None,
    }
}

/// Whether it closes a bracket.
pub fn closes_something(terminal: Terminal) -> bool
    ensures { result ≡ closes_something terminal }
{
    match terminal {
        Terminal::CloseParenthesis | Terminal::CloseBracket | Terminal::CloseBrace => true,
        _ => false,
    }
}

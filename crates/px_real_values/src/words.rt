ghost use Rattle.std.specs.Prelude.{◌≡◌};
ghost use Rattle.px_real_values.specs.Operators as Rules;

use px_real_expressions::{Measure, Operator, Step};

// How an operator is spelled.
pub fn operator_text(operator: Operator) -> &'static [u8]
    ensures { result.now ≡ Rules.operator_text operator }
{
    match operator {
        Operator::Multiply => b"*".as_slice(),
        Operator::Divide => b"/".as_slice(),
        Operator::Remainder => b"%".as_slice(),
        Operator::Add => b"+".as_slice(),
        Operator::Subtract => b"-".as_slice(),
        Operator::ShiftLeft => b"<<".as_slice(),
        Operator::ShiftRight => b">>".as_slice(),
        Operator::Less => b"<".as_slice(),
        Operator::Greater => b">".as_slice(),
        Operator::LessEqual => b"<=".as_slice(),
        Operator::GreaterEqual => b">=".as_slice(),
        Operator::Equal => b"==".as_slice(),
        Operator::NotEqual => b"!=".as_slice(),
        Operator::BitAnd => b"&".as_slice(),
        Operator::BitXor => b"^".as_slice(),
        Operator::BitOr => b"|".as_slice(),
        Operator::And => b"&&".as_slice(),
        Operator::Or => b"||".as_slice(),
        Operator::Comma => b",".as_slice(),
    }
}

// The assignment that an operator stands in.
fn with_equals(operator: Operator) -> &'static [u8]
    ensures { result.now ≡ Rules.assignment_text (Some operator) }
{
    match operator {
        Operator::Multiply => b"*=".as_slice(),
        Operator::Divide => b"/=".as_slice(),
        Operator::Remainder => b"%=".as_slice(),
        Operator::Add => b"+=".as_slice(),
        Operator::Subtract => b"-=".as_slice(),
        Operator::ShiftLeft => b"<<=".as_slice(),
        Operator::ShiftRight => b">>=".as_slice(),
        Operator::Less => b"<=".as_slice(),
        Operator::Greater => b">=".as_slice(),
        Operator::LessEqual => b"<==".as_slice(),
        Operator::GreaterEqual => b">==".as_slice(),
        Operator::Equal => b"===".as_slice(),
        Operator::NotEqual => b"!==".as_slice(),
        Operator::BitAnd => b"&=".as_slice(),
        Operator::BitXor => b"^=".as_slice(),
        Operator::BitOr => b"|=".as_slice(),
        Operator::And => b"&&=".as_slice(),
        Operator::Or => b"||=".as_slice(),
        Operator::Comma => b",=".as_slice(),
    }
}

// `=`, or an operator with it.
pub fn assignment_text(operator: Option<Operator>) -> &'static [u8]
    ensures { result.now ≡ Rules.assignment_text operator }
{
    match operator {
        Some(operator) => with_equals(operator),
        None => b"=".as_slice(),
    }
}

pub fn step_text(step: Step) -> &'static [u8]
    ensures { result.now ≡ Rules.step_text step }
{
    match step {
        Step::Increment => b"++".as_slice(),
        Step::Decrement => b"--".as_slice(),
    }
}

pub fn measure_text(measure: Measure) -> &'static [u8]
    ensures { result.now ≡ Rules.measure_text measure }
{
    match measure {
        Measure::Size => b"sizeof".as_slice(),
        Measure::Alignment => b"_Alignof".as_slice(),
    }
}

ghost use Rattle.std.specs.Prelude.{◌≡◌, ◌<◌, ◌^◌, option_map, IfSome};
ghost use Rattle.px_expressions.specs.Reading.{constant_value};

// The greatest value of an `int`.
const GREATEST: u64 = 2147483647;

// The value of a decimal constant, where an `int` has it.
pub fn constant_value(text: &[u8]) -> Option<u32>
    ensures { result ≡ constant_value text.now }
{
    let mut value: u64 = 0;
    for &digit in text {
        value = value * 10 + u64::from(digit.saturating_sub(48));
        if value > GREATEST {
            return None;
        }
    }
    Some(value as u32)
}

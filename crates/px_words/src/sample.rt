ghost use Rattle.std.specs.Prelude.{◌≡◌, ◌≤◌, ◌∷◌, [], option_map, IfSome};
ghost use Rattle.px_base.specs.Texts.{texts};
ghost use Rattle.px_words.specs.Samples.{sample_asked, start_written, count_written, view_of};

use crate::numbers::{are_digits, number_written};

/// A sample that is asked for.
#[derive(Clone, Copy, Debug, PartialEq, Eq)]
pub struct Sample {
    /// Where its draws start.
    pub start: u64,
    /// How many procedures it has, from 1 to 1,000.
    pub count: u32,
}

/// Reads `START N`, or answers none where the words aren't that.
pub fn read_sample(words: &[String]) -> Option<Sample>
    ensures sample { option_map view_of result ≡ sample_asked (texts words.now) }
    ensures count { IfSome result (λ s. (1 ≤ s.count) × (s.count ≤ 1000)) }
{
    match words {
        [start, count] => sample_of(start, count),
        _ => None,
    }
}

fn sample_of(start: &str, count: &str) -> Option<Sample>
    ensures sample { option_map view_of result ≡ sample_asked (start.now ∷ count.now ∷ []) }
    ensures count { IfSome result (λ s. (1 ≤ s.count) × (s.count ≤ 1000)) }
{
    Some(Sample {
        start: start_written(start)?,
        count: count_written(count)?,
    })
}

// The number below 2^64 that one to twenty digits write.
fn start_written(text: &str) -> Option<u64>
    ensures { result ≡ start_written text.now }
{
    if 1 <= text.len() && text.len() <= 20 && are_digits(text) {
        text.parse().ok()
    } else {
        None
    }
}

fn count_written(text: &str) -> Option<u32>
    ensures count { result ≡ count_written text.now }
    ensures range { IfSome result (λ n. (1 ≤ n) × (n ≤ 1000)) }
{
    let count = number_written(text)?;
    if 1 <= count && count <= 1_000 {
        Some(count)
    } else {
        None
    }
}

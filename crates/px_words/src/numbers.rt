ghost use Rattle.std.specs.Prelude.{◌≡◌};
ghost use Rattle.std.specs.Char.{is_ascii_digit};
ghost use Rattle.std.specs.List.{list_all};
ghost use Rattle.px_words.specs.Meaning.{is_numeral, number_written};

// The number that one to six decimal digits write, with zeros in front or not.
pub(crate) fn number_written(text: &str) -> Option<u32>
    ensures { result ≡ number_written text.now }
{
    if is_numeral(text) {
        text.parse().ok()
    } else {
        None
    }
}

fn is_numeral(text: &str) -> bool
    ensures { result ≡ is_numeral text.now }
{
    1 <= text.len() && text.len() <= 6 && are_digits(text)
}

pub(crate) fn are_digits(text: &str) -> bool
    ensures { result ≡ list_all is_ascii_digit text.now }
{
    for byte in text.as_bytes() {
        if !byte.is_ascii_digit() {
            return false;
        }
    }
    true
}

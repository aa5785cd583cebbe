ghost use Rattle.std.specs.Prelude.{◌≡◌, ◌≢◌, ◌↔◌, true};
ghost use Rattle.std.specs.Int.{w32, IsNonZero};
ghost use Rattle.px_terms.specs.Words.{quotient_of, word_quotient, IsQuotient};

// The quotient of two signed numbers, truncated towards zero. That of the least by -1 is the least.
fn signed_quotient(a: i32, b: i32) -> i32
    requires { IsNonZero w32 b }
    ensures { result ≡ quotient_of a b }
{
    a.wrapping_div(b)
}

/// The quotient of two words as signed numbers, truncated towards zero and wrapped. Takes no memory.
pub fn quotient(m: u32, n: u32) -> u32
    requires { n ≢ 0 }
    ensures { result ≡ word_quotient m n }
{
    signed_quotient(m.cast_signed(), n.cast_signed()).cast_unsigned()
}

/// Whether a word is the quotient of two others; nothing is one by 0. Takes no memory.
pub fn is_quotient(q: u32, m: u32, n: u32) -> bool
    ensures { result ≡ true ↔ IsQuotient q m n }
{
    n != 0 && q == quotient(m, n)
}

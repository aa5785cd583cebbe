ghost use Rattle.std.specs.Prelude.{◌≡◌, take, drop};

use px_real_tokens::Token;

/// All but the first so many.
pub fn skip<'a>(tokens: &'a [Token], count: usize) -> &'a [Token]
    ensures { result.now ≡ drop count tokens.entry.now }
{
    if count < tokens.len() {
        &tokens[count..]
    } else {
        &tokens[tokens.len()..]
    }
}

/// The first so many.
pub fn some_first<'a>(tokens: &'a [Token], count: usize) -> &'a [Token]
    ensures { result.now ≡ take count tokens.entry.now }
{
    if count < tokens.len() {
        &tokens[..count]
    } else {
        tokens
    }
}

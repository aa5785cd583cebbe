ghost use Rattle.std.specs.Prelude.{◌≡◌, ℕ, List};
ghost use Rattle.px_real_symbols.specs.Symbols.{held_in};
ghost use Rattle.px_real_types.specs.Scopes.{Meanings, texts, any_marks};

use crate::shape::Shape;
use crate::words::{Mark, is_mark};
use px_base::Site;
use px_expressions::text;
use px_real_symbols::Span;
use px_real_tokens::Token;

/// What the declarations in scope say.
pub trait Scope {
    /// All that they say.
    ghost meanings: { Self → Meanings };

    /// The type that a word names.
    fn named(&self, word: &[u8]) -> Shape
        ensures { result ≡ (meanings self.now).named word.now };

    /// The struct with this tag.
    fn tagged(&self, tag: &[u8]) -> Shape
        ensures { result ≡ (meanings self.now).tagged tag.now };

    /// The struct without a tag at this place.
    fn placed(&self, site: Site) -> Shape
        ensures { result ≡ (meanings self.now).placed site };
}

/// The tokens by whose numbers a declaration holds its parts, and the source that has their texts.
#[derive(Clone, Copy)]
pub struct Texts<'a> {
    pub source: &'a [u8],
    pub tokens: &'a [Token],
}

// Whether a word that is looked for stands in what is held.
pub fn any_marks(mark: Mark, on: Texts, held: Span) -> bool
    ensures { result ≡ any_marks mark (held_in (texts on.entry) held) }
{
    let mut at = held.first;
    while at < held.after && at < on.tokens.len() {
        let token = on.tokens[at];
        if is_mark(mark, text(on.source, token.start, token.end)) {
            return true;
        }
        at += 1;
    }
    false
}

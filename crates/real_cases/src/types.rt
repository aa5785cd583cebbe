ghost use Rattle.std.specs.Prelude.{codes, ◌∷◌, []};
ghost use Rattle.px_expressions.specs.Terminals.{is_in};

use px_real_symbols::TypeNames;

/// The words that are names of types in a case.
pub struct SomeTypes;

impl TypeNames for SomeTypes {
    ghost named = { λ _ word. is_in (codes "T" ∷ codes "list" ∷ codes "size_t" ∷ []) word };

    fn is_type(&self, word: &[u8]) -> bool {
        word == b"T".as_slice() || word == b"list".as_slice() || word == b"size_t".as_slice()
    }
}

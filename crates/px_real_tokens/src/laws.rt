ghost use Rattle.std.specs.Prelude.{◌≡◌, ◌≢◌, ◌⊎◌, ℕ, List, Result, Ok, Err, All};
ghost use Rattle.px_real_tokens.specs.Tokens.{Lexes, StandsIn};
ghost use Rattle.px_real_tokens.specs.declared.token.LexFault.{LexFault};
ghost use Rattle.px_real_tokens.specs.declared.token.LexFault.TheVariants.{NoMemory};
ghost use Rattle.px_real_tokens.specs.declared.token.Token.{Token};

/// A file is read in one way: it has the tokens of one list, or one first fault.
pub fn one_reading()
    ensures { (file : ℕ) (source : List ℕ) (a b : Result (List Token) LexFault) → Lexes file source a → Lexes file source b → a ≡ b }
{}

/// Each file has tokens or a first fault, and this is never `NoMemory`.
pub fn some_reading()
    ensures { (file : ℕ) (source : List ℕ) → ((tokens : List Token) × Lexes file source (Ok tokens)) ⊎ ((fault : LexFault) × Lexes file source (Err fault) × (fault ≢ NoMemory)) }
{}

/// Each token stands in its file: its bytes, from `start` up to `end`, spell its kind, and its site is
/// that of the first of them.
pub fn tokens_stand()
    ensures { (file : ℕ) (source : List ℕ) (tokens : List Token) → Lexes file source (Ok tokens) → All (StandsIn file source) tokens }
{}

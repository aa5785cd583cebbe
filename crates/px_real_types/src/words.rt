ghost use Rattle.std.specs.Prelude.{◌≡◌};
ghost use Rattle.px_expressions.specs.Terminals.{is_in};
ghost use Rattle.px_real_types.specs.Words.{signed_words, constant_words, spoiling_words, weak_words, words_of, says_of, is_struct_word, is_static_word};

use px_real_declaring::is_storage_word;

/// What a keyword does to the type that specifiers say.
#[derive(Clone, Copy)]
pub enum Says {
    Nothing,
    Int,
    Signed,
    /// The type is none that the profile sees.
    Spoils,
}

// Whether it is `signed`, in one of its spellings.
fn is_signed_word(word: &[u8]) -> bool
    ensures { result ≡ is_in signed_words word.now }
{
    word == b"signed".as_slice()
        || word == b"__signed".as_slice()
        || word == b"__signed__".as_slice()
}

// Whether it is a qualifier that changes no type.
fn is_constant_word(word: &[u8]) -> bool
    ensures { result ≡ is_in constant_words word.now }
{
    word == b"const".as_slice()
        || word == b"__const".as_slice()
        || word == b"__const__".as_slice()
        || word == b"restrict".as_slice()
        || word == b"__restrict".as_slice()
        || word == b"__restrict__".as_slice()
}

/// What an attribute is looked through for.
#[derive(Clone, Copy)]
pub enum Mark {
    /// That it makes a type another.
    Spoils,
    /// That it makes a function weak, or another's.
    Weakens,
}

// Whether it is an attribute's word that makes a function weak, or another's.
fn is_weak_word(word: &[u8]) -> bool
    ensures { result ≡ is_in weak_words word.now }
{
    word == b"weak".as_slice()
        || word == b"__weak__".as_slice()
        || word == b"alias".as_slice()
        || word == b"__alias__".as_slice()
        || word == b"ifunc".as_slice()
        || word == b"__ifunc__".as_slice()
}

// Whether it is a word that is looked for.
pub fn is_mark(mark: Mark, word: &[u8]) -> bool
    ensures { result ≡ is_in (words_of mark) word.now }
{
    match mark {
        Mark::Spoils => is_spoiling_word(word),
        Mark::Weakens => is_weak_word(word),
    }
}

// Whether it is an attribute's word that makes a type another.
fn is_spoiling_word(word: &[u8]) -> bool
    ensures { result ≡ is_in spoiling_words word.now }
{
    word == b"mode".as_slice()
        || word == b"__mode__".as_slice()
        || word == b"vector_size".as_slice()
        || word == b"__vector_size__".as_slice()
}

// Whether it is the word of structs, and not that of unions or enumerations.
pub fn is_struct_word(word: &[u8]) -> bool
    ensures { result ≡ is_struct_word word.now }
{
    word == b"struct".as_slice()
}

// Whether it is the storage class of functions that no other file sees.
pub fn is_static_word(word: &[u8]) -> bool
    ensures { result ≡ is_static_word word.now }
{
    word == b"static".as_slice()
}

// What a keyword says.
pub fn says_of(word: &[u8]) -> Says
    ensures { result ≡ says_of word.now }
{
    if word == b"int".as_slice() {
        Says::Int
    } else if is_signed_word(word) {
        Says::Signed
    } else if is_storage_word(word) {
        Says::Nothing
    } else if is_constant_word(word) {
        Says::Nothing
    } else {
        Says::Spoils
    }
}

ghost use Rattle.std.specs.Prelude.{◌≡◌};
ghost use Rattle.px_expressions.specs.Terminals.{is_in};
ghost use Rattle.px_real_declarations.specs.Roles.{storage_words, qualifier_words, basic_words, built_in_words, record_words, typeof_words, attribute_words, assembler_words, single_role, role_of, has_role, role};
ghost use Rattle.px_real_symbols.specs.Symbols.{see};

use px_expressions::text;
use px_real_declarations::Role;
use px_real_expressions::Terminal;
use px_real_symbols::symbol::{Symbol, Tokens};

/// Whether it is a word of storage or of functions.
pub fn is_storage_word(word: &[u8]) -> bool
    ensures { result ≡ is_in storage_words word.now }
{
    word == b"typedef".as_slice()
        || word == b"extern".as_slice()
        || word == b"static".as_slice()
        || word == b"auto".as_slice()
        || word == b"register".as_slice()
        || word == b"_Thread_local".as_slice()
        || word == b"__thread".as_slice()
        || word == b"inline".as_slice()
        || word == b"__inline".as_slice()
        || word == b"__inline__".as_slice()
        || word == b"_Noreturn".as_slice()
        || word == b"__extension__".as_slice()
}

// Whether it is a qualifier.
fn is_qualifier_word(word: &[u8]) -> bool
    ensures { result ≡ is_in qualifier_words word.now }
{
    word == b"const".as_slice()
        || word == b"__const".as_slice()
        || word == b"__const__".as_slice()
        || word == b"restrict".as_slice()
        || word == b"__restrict".as_slice()
        || word == b"__restrict__".as_slice()
        || word == b"volatile".as_slice()
        || word == b"__volatile".as_slice()
        || word == b"__volatile__".as_slice()
}

// Whether it is a word of a type's name.
fn is_basic_word(word: &[u8]) -> bool
    ensures { result ≡ is_in basic_words word.now }
{
    word == b"void".as_slice()
        || word == b"char".as_slice()
        || word == b"short".as_slice()
        || word == b"int".as_slice()
        || word == b"long".as_slice()
        || word == b"float".as_slice()
        || word == b"double".as_slice()
        || word == b"signed".as_slice()
        || word == b"unsigned".as_slice()
        || word == b"_Bool".as_slice()
        || word == b"_Complex".as_slice()
        || word == b"_Imaginary".as_slice()
        || word == b"__signed".as_slice()
        || word == b"__signed__".as_slice()
        || word == b"__complex__".as_slice()
        || word == b"__complex".as_slice()
}

// Whether it is one of GNU C for a type of its own.
fn is_built_in_word(word: &[u8]) -> bool
    ensures { result ≡ is_in built_in_words word.now }
{
    word == b"__builtin_va_list".as_slice()
        || word == b"__int128".as_slice()
        || word == b"__int128_t".as_slice()
        || word == b"__uint128_t".as_slice()
        || word == b"_Float16".as_slice()
        || word == b"_Float32".as_slice()
        || word == b"_Float64".as_slice()
        || word == b"_Float128".as_slice()
        || word == b"_Float32x".as_slice()
        || word == b"_Float64x".as_slice()
        || word == b"__float80".as_slice()
        || word == b"__float128".as_slice()
        || word == b"__ibm128".as_slice()
        || word == b"_Decimal32".as_slice()
        || word == b"_Decimal64".as_slice()
        || word == b"_Decimal128".as_slice()
        || word == b"__auto_type".as_slice()
}

fn is_record_word(word: &[u8]) -> bool
    ensures { result ≡ is_in record_words word.now }
{
    word == b"struct".as_slice() || word == b"union".as_slice()
}

fn is_typeof_word(word: &[u8]) -> bool
    ensures { result ≡ is_in typeof_words word.now }
{
    word == b"typeof".as_slice()
        || word == b"__typeof".as_slice()
        || word == b"__typeof__".as_slice()
}

fn is_attribute_word(word: &[u8]) -> bool
    ensures { result ≡ is_in attribute_words word.now }
{
    word == b"__attribute__".as_slice() || word == b"__attribute".as_slice()
}

fn is_assembler_word(word: &[u8]) -> bool
    ensures { result ≡ is_in assembler_words word.now }
{
    word == b"asm".as_slice() || word == b"__asm".as_slice() || word == b"__asm__".as_slice()
}

/// The role of a keyword, or of another text that is no name.
#[tactic(auto, unfolding(px_real_declarations::specs::Roles::role_of))]
pub fn role_of(word: &[u8]) -> Role
    ensures { result ≡ role_of word.now }
{
    if is_storage_word(word) {
        return Role::Storage;
    }
    if is_qualifier_word(word) {
        return Role::Qualifier;
    }
    if is_basic_word(word) {
        return Role::Basic;
    }
    if is_built_in_word(word) {
        return Role::Basic;
    }
    if is_record_word(word) {
        return Role::Record;
    }
    if is_typeof_word(word) {
        return Role::Typeof;
    }
    if is_attribute_word(word) {
        return Role::Attribute;
    }
    if is_assembler_word(word) {
        return Role::Assembler;
    }
    single_role(word)
}

// The same of those that are words of one kind alone.
fn single_role(word: &[u8]) -> Role
    ensures { result ≡ single_role word.now }
{
    if word == b"enum".as_slice() {
        Role::Enumeration
    } else if word == b"_Atomic".as_slice() {
        Role::Atomic
    } else if word == b"_Alignas".as_slice() {
        Role::Alignment
    } else if word == b"_Static_assert".as_slice() {
        Role::Assertion
    } else if word == b"...".as_slice() {
        Role::Ellipsis
    } else {
        Role::Other
    }
}

// Whether a terminal is one that such words have.
fn has_role(terminal: Terminal) -> bool
    ensures { result ≡ has_role terminal }
{
    match terminal {
        Terminal::Type | Terminal::Outside | Terminal::Extension => true,
        _ => false,
    }
}

/// The role of a token.
#[tactic(auto, unfolding(px_real_declarations::specs::Roles::role))]
pub fn role(on: Tokens, symbol: Symbol) -> Role
    ensures { result ≡ role (see on.entry.source.now symbol) }
{
    if !has_role(symbol.terminal) {
        return Role::Other;
    }
    role_of(text(on.source, symbol.start, symbol.end))
}

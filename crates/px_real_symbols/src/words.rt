ghost use Rattle.std.specs.Prelude.{◌≡◌};
ghost use Rattle.px_expressions.specs.Terminals.{is_in};
ghost use Rattle.px_real_symbols.specs.Words.{type_words, gnu_type_words, built_in_types, outside_words, gnu_outside_words, form_words, own_words, statement_words, keyword_in, keyword_of, punctuator_terminal, value_of};

use px_lexer::Punctuator;
use px_real_expressions::Terminal;
use px_real_tokens::TokenKind;

// Whether the word is one of C11 that begins a type's name.
fn is_type_word(word: &[u8]) -> bool
    ensures { result ≡ is_in type_words word.now }
{
    word == b"void".as_slice()
        || word == b"char".as_slice()
        || word == b"short".as_slice()
        || word == b"int".as_slice()
        || word == b"long".as_slice()
        || word == b"float".as_slice()
        || word == b"double".as_slice()
        || word == b"signed".as_slice()
        || word == b"unsigned".as_slice()
        || word == b"_Bool".as_slice()
        || word == b"_Complex".as_slice()
        || word == b"_Imaginary".as_slice()
        || word == b"struct".as_slice()
        || word == b"union".as_slice()
        || word == b"enum".as_slice()
        || word == b"const".as_slice()
        || word == b"restrict".as_slice()
        || word == b"volatile".as_slice()
        || word == b"_Atomic".as_slice()
}

// Whether it is such a one of GNU C.
fn is_gnu_type_word(word: &[u8]) -> bool
    ensures { result ≡ is_in gnu_type_words word.now }
{
    word == b"__const".as_slice()
        || word == b"__const__".as_slice()
        || word == b"__restrict".as_slice()
        || word == b"__restrict__".as_slice()
        || word == b"__volatile".as_slice()
        || word == b"__volatile__".as_slice()
        || word == b"__signed".as_slice()
        || word == b"__signed__".as_slice()
        || word == b"__complex__".as_slice()
        || word == b"__complex".as_slice()
        || word == b"__typeof__".as_slice()
        || word == b"__typeof".as_slice()
        || word == b"typeof".as_slice()
        || word == b"__attribute__".as_slice()
        || word == b"__attribute".as_slice()
}

// Whether it is one of GNU C for a type of its own.
fn is_built_in_type(word: &[u8]) -> bool
    ensures { result ≡ is_in built_in_types word.now }
{
    word == b"__builtin_va_list".as_slice()
        || word == b"__int128".as_slice()
        || word == b"__int128_t".as_slice()
        || word == b"__uint128_t".as_slice()
        || word == b"_Float16".as_slice()
        || word == b"_Float32".as_slice()
        || word == b"_Float64".as_slice()
        || word == b"_Float128".as_slice()
        || word == b"_Float32x".as_slice()
        || word == b"_Float64x".as_slice()
        || word == b"__float80".as_slice()
        || word == b"__float128".as_slice()
        || word == b"__ibm128".as_slice()
        || word == b"_Decimal32".as_slice()
        || word == b"_Decimal64".as_slice()
        || word == b"_Decimal128".as_slice()
        || word == b"__auto_type".as_slice()
}

// Whether it is one of C11 for declarations.
fn is_outside_word(word: &[u8]) -> bool
    ensures { result ≡ is_in outside_words word.now }
{
    word == b"auto".as_slice()
        || word == b"extern".as_slice()
        || word == b"inline".as_slice()
        || word == b"register".as_slice()
        || word == b"static".as_slice()
        || word == b"typedef".as_slice()
        || word == b"_Alignas".as_slice()
        || word == b"_Noreturn".as_slice()
        || word == b"_Static_assert".as_slice()
        || word == b"_Thread_local".as_slice()
}

// Whether it is such a one of GNU C.
fn is_gnu_outside_word(word: &[u8]) -> bool
    ensures { result ≡ is_in gnu_outside_words word.now }
{
    word == b"__inline".as_slice()
        || word == b"__inline__".as_slice()
        || word == b"asm".as_slice()
        || word == b"__asm".as_slice()
        || word == b"__asm__".as_slice()
        || word == b"__thread".as_slice()
        || word == b"__label__".as_slice()
}

// Whether it has parentheses of its own, whose arguments aren't expressions alone.
fn is_form_word(word: &[u8]) -> bool
    ensures { result ≡ is_in form_words word.now }
{
    word == b"_Generic".as_slice()
        || word == b"__builtin_choose_expr".as_slice()
        || word == b"__builtin_offsetof".as_slice()
        || word == b"__builtin_types_compatible_p".as_slice()
        || word == b"__builtin_va_arg".as_slice()
}

// The terminal of its own that the word is.
fn own_word(text: &[u8]) -> Option<Terminal>
    ensures { result ≡ keyword_in own_words text.now }
{
    if text == b"sizeof".as_slice() {
        Some(Terminal::Sizeof)
    } else if text == b"_Alignof".as_slice() {
        Some(Terminal::Alignof)
    } else if text == b"__alignof__".as_slice() {
        Some(Terminal::Alignof)
    } else if text == b"__alignof".as_slice() {
        Some(Terminal::Alignof)
    } else if text == b"__extension__".as_slice() {
        Some(Terminal::Extension)
    } else if text == b"__real__".as_slice() {
        Some(Terminal::Real)
    } else if text == b"__real".as_slice() {
        Some(Terminal::Real)
    } else if text == b"__imag__".as_slice() {
        Some(Terminal::Imaginary)
    } else if text == b"__imag".as_slice() {
        Some(Terminal::Imaginary)
    } else {
        None
    }
}

// The word of a statement that it is.
fn statement_word(text: &[u8]) -> Option<Terminal>
    ensures { result ≡ keyword_in statement_words text.now }
{
    if text == b"if".as_slice() {
        Some(Terminal::If)
    } else if text == b"else".as_slice() {
        Some(Terminal::Else)
    } else if text == b"switch".as_slice() {
        Some(Terminal::Switch)
    } else if text == b"while".as_slice() {
        Some(Terminal::While)
    } else if text == b"do".as_slice() {
        Some(Terminal::Do)
    } else if text == b"for".as_slice() {
        Some(Terminal::For)
    } else if text == b"goto".as_slice() {
        Some(Terminal::Goto)
    } else if text == b"break".as_slice() {
        Some(Terminal::Break)
    } else if text == b"continue".as_slice() {
        Some(Terminal::Continue)
    } else if text == b"return".as_slice() {
        Some(Terminal::Return)
    } else if text == b"case".as_slice() {
        Some(Terminal::Case)
    } else if text == b"default".as_slice() {
        Some(Terminal::Default)
    } else {
        None
    }
}

// The terminal that a keyword is.
pub fn keyword_of(word: &[u8]) -> Option<Terminal>
    ensures { result ≡ keyword_of word.now }
{
    if is_type_word(word) {
        return Some(Terminal::Type);
    }
    if is_gnu_type_word(word) {
        return Some(Terminal::Type);
    }
    if is_built_in_type(word) {
        return Some(Terminal::Type);
    }
    if is_outside_word(word) {
        return Some(Terminal::Outside);
    }
    if is_gnu_outside_word(word) {
        return Some(Terminal::Outside);
    }
    if is_form_word(word) {
        return Some(Terminal::Form);
    }
    match own_word(word) {
        Some(terminal) => Some(terminal),
        None => statement_word(word),
    }
}

// The terminal that the punctuator is.
pub fn punctuator_terminal(punctuator: Punctuator) -> Terminal
    ensures { result ≡ punctuator_terminal punctuator }
{
    match punctuator {
        Punctuator::OpenBrace => Terminal::OpenBrace,
        Punctuator::CloseBrace => Terminal::CloseBrace,
        Punctuator::OpenParenthesis => Terminal::OpenParenthesis,
        Punctuator::CloseParenthesis => Terminal::CloseParenthesis,
        Punctuator::OpenBracket => Terminal::OpenBracket,
        Punctuator::CloseBracket => Terminal::CloseBracket,
        Punctuator::Dot => Terminal::Dot,
        Punctuator::Arrow => Terminal::Arrow,
        Punctuator::PlusPlus => Terminal::PlusPlus,
        Punctuator::MinusMinus => Terminal::MinusMinus,
        Punctuator::Ampersand => Terminal::Ampersand,
        Punctuator::Star => Terminal::Star,
        Punctuator::Plus => Terminal::Plus,
        Punctuator::Minus => Terminal::Minus,
        Punctuator::Tilde => Terminal::Tilde,
        Punctuator::Not => Terminal::Not,
        Punctuator::Slash => Terminal::Slash,
        Punctuator::Percent => Terminal::Percent,
        Punctuator::ShiftLeft => Terminal::ShiftLeft,
        Punctuator::ShiftRight => Terminal::ShiftRight,
        Punctuator::Less => Terminal::Less,
        Punctuator::Greater => Terminal::Greater,
        Punctuator::LessEqual => Terminal::LessEqual,
        Punctuator::GreaterEqual => Terminal::GreaterEqual,
        Punctuator::EqualEqual => Terminal::EqualEqual,
        Punctuator::NotEqual => Terminal::NotEqual,
        Punctuator::Caret => Terminal::Caret,
        Punctuator::Bar => Terminal::Bar,
        Punctuator::AndAnd => Terminal::AndAnd,
        Punctuator::OrOr => Terminal::OrOr,
        Punctuator::Question => Terminal::Question,
        Punctuator::Colon => Terminal::Colon,
        Punctuator::Equal => Terminal::Equal,
        Punctuator::StarEqual => Terminal::StarEqual,
        Punctuator::SlashEqual => Terminal::SlashEqual,
        Punctuator::PercentEqual => Terminal::PercentEqual,
        Punctuator::PlusEqual => Terminal::PlusEqual,
        Punctuator::MinusEqual => Terminal::MinusEqual,
        Punctuator::ShiftLeftEqual => Terminal::ShiftLeftEqual,
        Punctuator::ShiftRightEqual => Terminal::ShiftRightEqual,
        Punctuator::AmpersandEqual => Terminal::AmpersandEqual,
        Punctuator::CaretEqual => Terminal::CaretEqual,
        Punctuator::BarEqual => Terminal::BarEqual,
        Punctuator::Comma => Terminal::Comma,
        Punctuator::Semicolon => Terminal::Semicolon,
        _ => Terminal::Outside,
    }
}

// The value of a constant of the profile.
pub fn value_of(kind: TokenKind) -> Option<u32>
    ensures { result ≡ value_of kind }
{
    match kind {
        TokenKind::Number(value) => value,
        TokenKind::Character(value) => value,
        _ => None,
    }
}

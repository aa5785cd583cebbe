ghost use Rattle.std.specs.Prelude.{◌≡◌, ◌<◌, IfOk, is_some, reverse};
ghost use Rattle.px_real_expressions.specs.Lexemes.{front};
ghost use Rattle.px_real_expressions.specs.declared.terminal.Terminal.TheVariants.{Semicolon};
ghost use Rattle.px_real_symbols.specs.Symbols.{seen, lexemes};
ghost use Rattle.px_real_blocks.specs.Parts.{no_types};
ghost use Rattle.px_real_items.specs.Ends.{opened, passed, taken, body_start, end_of};

use px_real_declaring::reading::NoTypes;
use px_real_expressions::Terminal;
use px_real_symbols::symbol::{Tokens, symbols};
use px_real_tokens::Token;
use px_terms::NoMemory;
use std::alloc::Global;

// What a token does to the braces that are closed behind it and not opened yet.
#[derive(Clone, Copy)]
pub enum Nesting {
    // So many are then.
    Within(usize),
    // It opens the first that is closed.
    Opens,
    // None is closed.
    Outside,
}

// How the tokens of an item end.
#[derive(Clone, Copy)]
pub enum End {
    Semicolon,
    // With a body, which begins at the token with this number.
    Body(usize),
    Neither,
}

// What a brace that opens does, where so many are.
fn opened(closed: usize) -> Nesting
    ensures { result ≡ opened closed }
{
    if closed == 0 {
        return Nesting::Outside;
    }
    if closed == 1 {
        return Nesting::Opens;
    }
    Nesting::Within(closed - 1)
}

// What a token does that is no brace.
fn passed(closed: usize) -> Nesting
    ensures { result ≡ passed closed }
{
    if closed == 0 {
        return Nesting::Outside;
    }
    Nesting::Within(closed)
}

// What a token does.
fn taken(terminal: Terminal, closed: usize) -> Nesting
    requires { closed < usize.MAX }
    ensures { result ≡ taken terminal closed }
{
    match terminal {
        Terminal::CloseBrace => Nesting::Within(closed + 1),
        Terminal::OpenBrace => opened(closed),
        _ => passed(closed),
    }
}

// The number of the token with which the body begins that ends all that is read.
fn body_start(on: Tokens) -> Option<usize>
    ensures { result ≡ body_start (seen on.entry) }
{
    let mut closed = 0;
    let mut at = on.symbols.len();
    while at > 0 {
        at -= 1;
        match taken(on.symbols[at].terminal, closed) {
            Nesting::Within(next) => closed = next,
            Nesting::Opens => return Some(at),
            Nesting::Outside => return None,
        }
    }
    None
}

// Whether the last token is a semicolon.
fn ends_in_semicolon(on: Tokens) -> bool
    ensures { result ≡ is_some (front Semicolon (reverse (seen on.entry))) }
{
    let count = on.symbols.len();
    if count == 0 {
        return false;
    }
    on.symbols[count - 1].terminal == Terminal::Semicolon
}

// How all that is read ends.
fn end_of_symbols(on: Tokens) -> End
    ensures { result ≡ end_of (seen on.entry) }
{
    if ends_in_semicolon(on) {
        return End::Semicolon;
    }
    match body_start(on) {
        Some(start) => End::Body(start),
        None => End::Neither,
    }
}

// How these tokens end.
pub fn end_of(alloc: Global, source: &[u8], tokens: &[Token]) -> Result<End, NoMemory>
    ensures { IfOk result (λ e. e ≡ end_of (lexemes no_types source.now tokens.now)) }
{
    let symbols = symbols(alloc, source, &NoTypes, tokens)?;
    let on = Tokens {
        source,
        symbols: &symbols,
    };
    Ok(end_of_symbols(on))
}

ghost use Rattle.std.specs.Prelude.{◌≡◌, ◌∷◌, [], List, drop, OnOk, IfOk, IfSome, IfNone};
ghost use Rattle.px_real_expressions.specs.Lexemes.{Lexeme};
ghost use Rattle.px_real_expressions.specs.Held.{held_at};
ghost use Rattle.px_real_expressions.specs.Reading.{closed_at, held_up_to, type_at};
ghost use Rattle.px_real_expressions.specs.declared.terminal.Terminal.TheVariants.{CloseParenthesis};
ghost use Rattle.px_real_symbols.specs.Answers.{Gives};
ghost use Rattle.px_real_symbols.specs.Symbols.{seen};
ghost use Rattle.px_real_symbols.specs.Symbols.{held_in};
ghost use Rattle.px_real_symbols.specs.Turns.{after_turn, closing_at};

use crate::fault::Fault;
use crate::fronts::{front, type_front};
use crate::operators::{closes_something, closing};
use crate::symbol::Tokens;
use px_real_expressions::Terminal;
use px_terms::NoMemory;
use std::alloc::Global;
use std::marker::Model;

/// Tokens that are held: from the one with the number `first` up to the one before `after`, among those that were read.
#[derive(Clone, Copy, Debug, PartialEq, Eq)]
pub struct Span {
    pub first: usize,
    pub after: usize,
}

/// Terminals that would close brackets. Contracts see a list of them, the last first.
#[derive(Drop)]
pub struct Closers {
    items: Vec<Terminal>,
}

impl Model for Closers {
    ghost use Rattle.std.specs.Prelude.{List, reverse};
    ghost use Rattle.px_real_expressions.specs.declared.terminal.Terminal.{Terminal};

    ghost Value = { List Terminal };

    ghost view = { λ b. reverse b.items.items };
}

impl Closers {
    // None. Takes no memory.
    fn new(alloc: Global) -> Closers
        ensures { result ≡ [] }
    {
        Closers {
            items: Vec::new(alloc),
        }
    }

    fn push(&mut self, terminal: Terminal) -> Result<(), NoMemory>
        ensures { OnOk result (self.new ≡ terminal ∷ self.old) }
    {
        self.items.push(terminal)?;
        Ok(())
    }

    fn pop(&mut self) -> Option<Terminal>
        ensures some { IfSome result (λ x. self.old ≡ x ∷ self.new) }
        ensures none { IfNone result ((self.old ≡ []) × (self.new ≡ [])) }
    {
        self.items.pop()
    }
}

/// The brackets that are open: what closes the last, and what closes those before it.
#[derive(Drop)]
pub struct Open {
    pub last: Terminal,
    pub before: Closers,
}

/// What a token does to them.
#[derive(Clone, Copy)]
pub enum Turn {
    /// Some are still open.
    GoesOn,
    /// It closes the first of them.
    Closes,
    /// It closes another than the last.
    Mismatches,
}

// The brackets take a token.
fn take(brackets: &mut Open, terminal: Terminal) -> Result<Turn, NoMemory>
    ensures { IfOk result (λ s. (t : Lexeme) (ts : List Lexeme) → t.terminal ≡ terminal → held_at brackets.old.last brackets.old.before (t ∷ ts) ≡ after_turn s t brackets.new.last brackets.new.before ts) }
{
    if let Some(close) = closing(terminal) {
        brackets.before.push(brackets.last)?;
        brackets.last = close;
        return Ok(Turn::GoesOn);
    }
    if closes_something(terminal) {
        return Ok(close(brackets, terminal));
    }
    Ok(Turn::GoesOn)
}

// The brackets take one that closes.
fn close(brackets: &mut Open, terminal: Terminal) -> Turn
    ensures { (t : Lexeme) (ts : List Lexeme) → t.terminal ≡ terminal → closing_at brackets.old.last brackets.old.before t ts ≡ after_turn result t brackets.new.last brackets.new.before ts }
{
    if terminal != brackets.last {
        return Turn::Mismatches;
    }
    match brackets.before.pop() {
        Some(last) => {
            brackets.last = last;
            Turn::GoesOn
        }
        None => Turn::Closes,
    }
}

/// What stands before the bracket of this terminal, and the number of that bracket.
#[tactic(auto, unfolding(px_real_expressions::specs::Reading::held_up_to))]
pub fn held(
    alloc: Global,
    close: Terminal,
    on: Tokens,
    start: usize,
) -> Result<(Span, usize), Fault>
    ensures { Gives (seen on.entry) (λ x. (held_in (seen on.entry) x.0, drop x.1 (seen on.entry))) result (held_up_to close (drop start (seen on.entry))) }
{
    let mut brackets = Open {
        last: close,
        before: Closers::new(alloc),
    };
    for at in start..on.symbols.len() {
        match take(&mut brackets, on.symbols[at].terminal)? {
            Turn::GoesOn => {}
            Turn::Closes => {
                let span = Span {
                    first: start,
                    after: at,
                };
                return Ok((span, at));
            }
            Turn::Mismatches => return Err(Fault::Wrong(at)),
        }
    }
    Err(Fault::Wrong(on.symbols.len()))
}

/// What stands between brackets, after the one that opens them, and the number of the token after them.
#[tactic(auto, unfolding(px_real_expressions::specs::Reading::closed_at))]
pub fn held_group(
    alloc: Global,
    close: Terminal,
    on: Tokens,
    at: usize,
) -> Result<(Span, usize), Fault>
    ensures { Gives (seen on.entry) (λ x. (held_in (seen on.entry) x.0, drop x.1 (seen on.entry))) result (closed_at close (held_up_to close) (drop at (seen on.entry))) }
{
    let (span, next) = held(alloc, close, on, at)?;
    match front(close, on, next) {
        Some((_, after)) => Ok((span, after)),
        None => Err(Fault::Wrong(next)),
    }
}

/// A type's name, after the parenthesis that opens it, and the number of the token after its `)`.
#[tactic(auto, unfolding(px_real_expressions::specs::Reading::closed_at, px_real_expressions::specs::Reading::type_at, px_real_expressions::specs::Reading::held_up_to))]
pub fn type_group(alloc: Global, on: Tokens, at: usize) -> Result<(Span, usize), Fault>
    ensures { Gives (seen on.entry) (λ x. (held_in (seen on.entry) x.0, drop x.1 (seen on.entry))) result (closed_at CloseParenthesis type_at (drop at (seen on.entry))) }
{
    let Some(_) = type_front(on, at) else {
        return Err(Fault::Wrong(at));
    };
    held_group(alloc, Terminal::CloseParenthesis, on, at)
}

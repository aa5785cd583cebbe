ghost use Rattle.std.specs.Prelude.{◌≡◌, drop};
ghost use Rattle.px_real_symbols.specs.Answers.{Gives};
ghost use Rattle.px_real_symbols.specs.Symbols.{seen, held_in};
ghost use Rattle.px_real_statements.specs.PhraseReading.{phrase_at, part_at};
ghost use Rattle.px_real_statements.specs.Reading.{up_to, condition_at};
ghost use Rattle.px_real_blocks.specs.Turns.{turn_of, outside_of, stretch_at};

use px_real_expressions::Terminal;
use px_real_symbols::Span;
use px_real_symbols::fault::Fault;
use px_real_symbols::fronts::front;
use px_real_symbols::held::held_group;
use px_real_symbols::symbol::Tokens;
use std::alloc::Global;

// What a token does outside of brackets.
#[derive(Clone, Copy)]
enum Turn {
    /// It opens a bracket, which this terminal closes.
    Opens(Terminal),
    /// It is a `?`.
    Asks,
    /// It is the `:` of one.
    Answers,
    /// It is any other token of the phrase.
    GoesOn,
    /// The phrase ends before it.
    Ends,
    /// A choice is open where it would end.
    Mismatches,
}

// What a terminal does outside of brackets, where so many choices are open, and a comma ends what is read or not.
fn turn_at(commas: bool, choices: usize, terminal: Terminal) -> Turn
    ensures { turn_of choices result ≡ outside_of commas choices terminal }
{
    match terminal {
        Terminal::Comma if commas && choices == 0 => Turn::Ends,
        Terminal::OpenParenthesis => Turn::Opens(Terminal::CloseParenthesis),
        Terminal::OpenBracket => Turn::Opens(Terminal::CloseBracket),
        Terminal::OpenBrace => Turn::Opens(Terminal::CloseBrace),
        Terminal::Question => Turn::Asks,
        Terminal::Colon if choices == 0 => Turn::Ends,
        Terminal::Colon => Turn::Answers,
        Terminal::Semicolon
        | Terminal::CloseParenthesis
        | Terminal::CloseBracket
        | Terminal::CloseBrace => {
            if choices == 0 {
                Turn::Ends
            } else {
                Turn::Mismatches
            }
        }
        _ => Turn::GoesOn,
    }
}

// What stands up to a semicolon, a colon or a closing bracket, or to a comma too, and the number of the token that ends it.
#[tactic(auto, unfolding(crate::specs::Turns::stretch_at))]
fn stretch(alloc: Global, on: Tokens, commas: bool, start: usize) -> Result<(Span, usize), Fault>
    ensures { Gives (seen on.entry) (λ x. (held_in (seen on.entry) x.0, drop x.1 (seen on.entry))) result (stretch_at commas (drop start (seen on.entry))) }
{
    let mut choices: usize = 0;
    let mut at = start;
    while at < on.symbols.len() {
        match turn_at(commas, choices, on.symbols[at].terminal) {
            Turn::Opens(close) => {
                let (_, after) = held_group(alloc, close, on, at + 1)?;
                at = after;
            }
            Turn::Asks => {
                choices += 1;
                at += 1;
            }
            Turn::Answers => {
                choices -= 1;
                at += 1;
            }
            Turn::GoesOn => at += 1,
            Turn::Ends => return Ok((
                Span {
                    first: start,
                    after: at,
                },
                at,
            )),
            Turn::Mismatches => return Err(Fault::Wrong(at)),
        }
    }
    if choices > 0 {
        return Err(Fault::Wrong(at));
    }
    Ok((
        Span {
            first: start,
            after: at,
        },
        at,
    ))
}

// The same, where commas end nothing.
#[tactic(auto, unfolding(px_real_statements::specs::PhraseReading::phrase_at, crate::specs::Turns::stretch_at))]
fn phrase(alloc: Global, on: Tokens, start: usize) -> Result<(Span, usize), Fault>
    ensures { Gives (seen on.entry) (λ x. (held_in (seen on.entry) x.0, drop x.1 (seen on.entry))) result (phrase_at (drop start (seen on.entry))) }
{
    stretch(alloc, on, false, start)
}

/// What stands up to a comma outside of brackets, or to what ends a phrase, and the number of the token that ends it.
#[tactic(auto, unfolding(px_real_statements::specs::PhraseReading::part_at, crate::specs::Turns::stretch_at))]
pub fn part(alloc: Global, on: Tokens, start: usize) -> Result<(Span, usize), Fault>
    ensures { Gives (seen on.entry) (λ x. (held_in (seen on.entry) x.0, drop x.1 (seen on.entry))) result (part_at (drop start (seen on.entry))) }
{
    stretch(alloc, on, true, start)
}

/// A phrase that this terminal must end, and the number of the token after that.
#[tactic(auto, unfolding(px_real_expressions::specs::Reading::closed_at))]
pub fn up_to(alloc: Global, end: Terminal, on: Tokens, at: usize) -> Result<(Span, usize), Fault>
    ensures { Gives (seen on.entry) (λ x. (held_in (seen on.entry) x.0, drop x.1 (seen on.entry))) result (up_to end (drop at (seen on.entry))) }
{
    let (span, next) = phrase(alloc, on, at)?;
    match front(end, on, next) {
        Some((_, after)) => Ok((span, after)),
        None => Err(Fault::Wrong(next)),
    }
}

/// What stands in parentheses, and the number of the token after them.
#[tactic(auto, unfolding(px_real_statements::specs::Reading::condition_at))]
pub fn condition(alloc: Global, on: Tokens, at: usize) -> Result<(Span, usize), Fault>
    ensures { Gives (seen on.entry) (λ x. (held_in (seen on.entry) x.0, drop x.1 (seen on.entry))) result (condition_at (drop at (seen on.entry))) }
{
    let Some((_, inner)) = front(Terminal::OpenParenthesis, on, at) else {
        return Err(Fault::Wrong(at));
    };
    held_group(alloc, Terminal::CloseParenthesis, on, inner)
}

ghost use Rattle.std.specs.Prelude.{◌≡◌, option_map};
ghost use Rattle.px_expressions.specs.Lexemes.{see, seen, front};

use crate::symbol::{Input, Symbol};
use crate::terminal::Terminal;

/// The symbol at the front where it is that terminal, and those after it.
pub fn front<'a>(terminal: Terminal, input: Input<'a>) -> Option<(Symbol, Input<'a>)>
    ensures { option_map (λ x. (see x.1.source.now x.0, seen x.1)) result ≡ front terminal (seen input.entry) }
{
    if input.terminal != terminal {
        return None;
    }
    let (symbol, rest) = input.first()?;
    Some((symbol, Input::new(input.source, rest)))
}

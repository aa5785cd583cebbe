ghost use Rattle.std.specs.Prelude.{◌≡◌, drop};
ghost use Rattle.px_real_symbols.specs.Answers.{Gives};
ghost use Rattle.px_real_symbols.specs.Symbols.{seen};
ghost use Rattle.px_real_declarations.specs.HeldReading.{behind_comma, next_of};
ghost use Rattle.px_real_members.specs.Trees.{next_view};

use px_real_declarations::{Role, Trailing};
use px_real_declaring::roles::role;
use px_real_expressions::Terminal;
use px_real_symbols::fault::Fault;
use px_real_symbols::fronts::front;
use px_real_symbols::symbol::{Tokens, first};

/// What follows one of several that have commas between. The number is that of the token after it.
#[derive(Clone, Copy)]
pub enum Next {
    /// Nothing more.
    Last(usize),
    /// A comma and `...`.
    Dots(usize),
    /// A comma and another.
    Another(usize),
}

// What follows a comma.
fn behind_comma(trailing: Trailing, on: Tokens, at: usize) -> Next
    ensures { next_view (seen on.entry) result ≡ behind_comma trailing (drop at (seen on.entry)) }
{
    let Some((symbol, next)) = first(on, at) else {
        return match trailing {
            Trailing::Comma => Next::Last(at),
            _ => Next::Another(at),
        };
    };
    if trailing == Trailing::Dots && role(on, symbol) == Role::Ellipsis {
        return Next::Dots(next);
    }
    Next::Another(at)
}

// What stands at this number, behind one of several.
pub fn next_of(trailing: Trailing, on: Tokens, at: usize) -> Result<Next, Fault>
    ensures { Gives (seen on.entry) (next_view (seen on.entry)) result (next_of trailing (drop at (seen on.entry))) }
{
    if at >= on.symbols.len() {
        return Ok(Next::Last(at));
    }
    let Some((_, next)) = front(Terminal::Comma, on, at) else {
        return Err(Fault::Wrong(at));
    };
    Ok(behind_comma(trailing, on, next))
}

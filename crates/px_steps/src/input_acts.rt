ghost use Rattle.std.specs.Prelude.{◌≡◌, ◌+◌, IfOk};
ghost use Rattle.px_callgraph.specs.States.{begun};
ghost use Rattle.px_callgraph.specs.Commands as commands;
ghost use Rattle.px_steps.specs.Led.{at_state, led_of};
ghost use Rattle.px_steps.specs.Additions.{ones};

use crate::led::{self, Led};
use crate::path_limits::COMMAND;
use px_base::Site;
use px_callgraph::State;
use px_match::{Growth, limit_passed};
use px_terms::NoMemory;
use px_ways::{lacks_least, lacks_most, take_input};
use std::alloc::Global;

/// A slot gets a value from -1 to 255, by a new variable.
pub(crate) fn input(alloc: Global, state: &mut State, to: u32, site: Site) -> Result<Led, NoMemory>
    ensures { IfOk result (λ r. at_state r state.new ≡ led_of state.old (commands.input_done to site (begun state.old))) }
{
    let least = lacks_least(state);
    let most = lacks_most(state);
    let growth = Growth {
        marks: 1,
        conjuncts: count_both(least, most),
        variables: 1,
        ..COMMAND
    };
    match limit_passed(state, &growth) {
        Some(passed) => led::cut(alloc, state, passed),
        None => {
            take_input(alloc, state, to, site, least, most)?;
            Ok(Led::Goes)
        }
    }
}

// How many of two are to be added.
fn count_both(first: bool, second: bool) -> usize
    ensures { result ≡ ones first + ones second }
{
    match (first, second) {
        (true, true) => 2,
        (false, false) => 0,
        _ => 1,
    }
}

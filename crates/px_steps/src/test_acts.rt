ghost use Rattle.std.specs.Prelude.{◌≡◌, ℕ, Option, Some, pos, true, IfOk};
ghost use Rattle.px_base.specs.declared.trace.Site.{Site};
ghost use Rattle.px_base.specs.declared.trace.MarkKind.{MarkKind};
ghost use Rattle.px_base.specs.declared.trace.MarkKind.TheVariants as kind;
ghost use Rattle.px_terms.specs.declared.conjuncts.Conj.{Conj as conjunct};
ghost use Rattle.px_terms.specs.declared.conjuncts.Content.TheVariants as content;
ghost use Rattle.px_entry.specs.Sorts.{is_long_conjunct};
ghost use Rattle.px_callgraph.specs.States.{on, begun, marked, assumed, number, operand_content};
ghost use Rattle.px_callgraph.specs.States as states;
ghost use Rattle.px_callgraph.specs.Operations as operations;
ghost use Rattle.px_callgraph.specs.Commands as commands;
ghost use Rattle.px_match.specs.Operated.{IsCompared};
ghost use Rattle.px_steps.specs.Led.{at_state, led_of};

use crate::control_acts::{begin_alone, mark_alone};
use crate::led::{self, Led};
use crate::path_limits::{COMMAND, assuming};
use crate::words::operand_of;
use px_base::{MarkKind, Site};
use px_callgraph::{State, Way};
use px_core::{Comparison, Operand};
use px_match::{Compared, Growth, condition, contrary, limit_of_long, limit_passed};
use px_terms::{Conj, Content, NoMemory, Poly};
use px_ways::{add_conjunct, begin, mark, set_slot, unless_there};
use std::alloc::Global;

/// What a test compares, and where its outcome goes.
#[derive(Clone, Copy)]
pub(crate) struct Test {
    pub to: u32,
    pub how: Comparison,
    pub a: Operand,
    pub b: Operand,
    pub site: Site,
}

impl Test {
    /// A test with its operands.
    pub(crate) fn new(to: u32, how: Comparison, a: Operand, b: Operand, site: Site) -> Self
        ensures { result ≡ record { to = to; how = how; a = a; b = b; site = site } }
    {
        Test {
            to,
            how,
            a,
            b,
            site,
        }
    }
}

/// A test is true or false.
pub(crate) fn take_side(
    alloc: Global,
    state: &mut State,
    test: Test,
    way: Way,
) -> Result<Led, NoMemory>
    ensures { IfOk result (λ r. at_state r state.new ≡ led_of state.old (commands.test_done test.to test.site (operations.condition test.how (operand_content (begun state.old) test.a) (operand_content (begun state.old) test.b)) (operations.contrary test.how (operand_content (begun state.old) test.a) (operand_content (begun state.old) test.b)) way (begun state.old))) }
{
    match way {
        Way::Then => test_then(alloc, state, test),
        Way::Else => test_else(alloc, state, test),
        _ => begin_alone(alloc, state),
    }
}

fn test_then(alloc: Global, state: &mut State, test: Test) -> Result<Led, NoMemory>
    ensures { IfOk result (λ r. at_state r state.new ≡ led_of state.old (commands.test_outcome test.to 1 (operations.condition test.how (operand_content (begun state.old) test.a) (operand_content (begun state.old) test.b)) (marked kind.Then test.site (begun state.old)))) }
{
    let a = operand_of(alloc, state, test.a)?;
    let b = operand_of(alloc, state, test.b)?;
    let compared = condition(alloc, test.how, &a, &b)?;
    test_by(
        alloc,
        state,
        test.to,
        1,
        compared,
        MarkKind::Then,
        test.site,
    )
}

fn test_else(alloc: Global, state: &mut State, test: Test) -> Result<Led, NoMemory>
    ensures { IfOk result (λ r. at_state r state.new ≡ led_of state.old (commands.test_outcome test.to 0 (operations.contrary test.how (operand_content (begun state.old) test.a) (operand_content (begun state.old) test.b)) (marked kind.Else test.site (begun state.old)))) }
{
    let a = operand_of(alloc, state, test.a)?;
    let b = operand_of(alloc, state, test.b)?;
    let compared = contrary(alloc, test.how, &a, &b)?;
    test_by(
        alloc,
        state,
        test.to,
        0,
        compared,
        MarkKind::Else,
        test.site,
    )
}

// The outcome of a test is marked, and where the comparison fits the contents, it is assumed and the slot gets it.
fn test_by(
    alloc: Global,
    state: &mut State,
    to: u32,
    outcome: u8,
    compared: Compared,
    kind: MarkKind,
    site: Site,
) -> Result<Led, NoMemory>
    ensures { IfOk result (λ r. (o : Option conjunct) → IsCompared compared o → at_state r state.new ≡ led_of state.old (commands.test_outcome to outcome o (marked kind site (begun state.old)))) }
{
    match compared {
        Compared::Unfit => mark_alone(alloc, state, kind, site),
        Compared::Assumes(conjunct) => assume_outcome(
            alloc, state, to, outcome, conjunct, kind, site,
        ),
        Compared::TooLong => cut_test(alloc, state),
    }
}

// The conjunct is assumed, and the slot gets the outcome.
fn assume_outcome(
    alloc: Global,
    state: &mut State,
    to: u32,
    outcome: u8,
    conjunct: Conj,
    kind: MarkKind,
    site: Site,
) -> Result<Led, NoMemory>
    ensures { IfOk result (λ r. at_state r state.new ≡ led_of state.old (on (states.set_slot to (content.Word (number (pos outcome))) (assumed conjunct (marked kind site (begun state.old)))))) }
{
    let added = unless_there(state, conjunct);
    let growth = assuming(1, &added);
    match limit_passed(state, &growth) {
        Some(passed) => led::cut(alloc, state, passed),
        None => {
            begin(state);
            mark(state, kind, site)?;
            add_conjunct(state, added)?;
            set_slot(
                state,
                to,
                Content::Word(Poly::word(alloc, i32::from(outcome))?),
            );
            Ok(Led::Goes)
        }
    }
}

// Where the conjunct of a test is too long, some limit is passed, whatever the test's outcome, mark and place.
fn cut_test(alloc: Global, state: &mut State) -> Result<Led, NoMemory>
    ensures { IfOk result (λ r. (to outcome : ℕ) (k : MarkKind) (site : Site) (c : conjunct) → is_long_conjunct c ≡ true → at_state r state.new ≡ led_of state.old (commands.test_outcome to outcome (Some c) (marked k site (begun state.old)))) }
{
    let growth = Growth {
        marks: 1,
        conjuncts: 1,
        long_term: true,
        ..COMMAND
    };
    let passed = limit_of_long(state, &growth);
    led::cut(alloc, state, passed)
}

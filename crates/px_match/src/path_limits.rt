ghost use Rattle.std.specs.Prelude.{◌≡◌, ◌+◌, ◌≤◌, Some, true, nat_lt, length, IfNone, IfOk};
ghost use Rattle.px_base.specs.Bounds.{most_steps, most_atoms, most_variables};
ghost use Rattle.px_entry.specs.declared.tables.Cause.TheVariants.{Long};
ghost use Rattle.px_callgraph.specs.Alternatives.{dropped};
ghost use Rattle.px_match.specs.PathLimits.{passes_grown};

use px_callgraph::{State, StepOutcome};
use px_entry::{Cause, LongKind};
use px_terms::NoMemory;
use std::alloc::Global;

/// How many marks a trace has at most.
const MARKS: usize = 256;
/// How many commands a path begins at most.
const COMMANDS: u32 = 4000;
/// How many conjuncts a state has at most.
const CONJUNCTS: usize = 200;
/// How many blocks a state has at most.
const ATOMS: usize = 64;
/// How many variables a state has at most.
const VARIABLES: usize = 8192;

/// How much an act adds to a state.
#[derive(Clone, Copy)]
pub struct Growth {
    pub marks: usize,
    pub commands: u32,
    pub conjuncts: usize,
    pub atoms: usize,
    pub variables: usize,
    /// Whether it makes a polynomial that is too long.
    pub long_term: bool,
}

/// An act that adds nothing.
pub const NOTHING: Growth = Growth {
    marks: 0,
    commands: 0,
    conjuncts: 0,
    atoms: 0,
    variables: 0,
    long_term: false,
};

/// The first limit of a path that a state passes where it grows so.
pub fn limit_passed(state: &State, growth: &Growth) -> Option<LongKind>
    ensures first { result ≡ passes_grown state.now growth.now }
    ensures room { IfNone result (state.now.steps + growth.now.commands ≤ most_steps) }
    ensures few_blocks { IfNone result (length state.now.atoms + growth.now.atoms ≤ most_atoms) }
    ensures few { IfNone result (length state.now.vars + growth.now.variables ≤ most_variables) }
{
    if is_beyond(MARKS, state.trace.len(), growth.marks) {
        Some(LongKind::Trace)
    } else if is_beyond_steps(state.steps, growth.commands) {
        Some(LongKind::Steps)
    } else if is_beyond(CONJUNCTS, state.pure.len(), growth.conjuncts) {
        Some(LongKind::Conjuncts)
    } else if is_beyond(ATOMS, state.atoms.len(), growth.atoms) {
        Some(LongKind::Atoms)
    } else if is_beyond(VARIABLES, state.vars.len(), growth.variables) {
        Some(LongKind::Variables)
    } else if growth.long_term {
        Some(LongKind::Term)
    } else {
        None
    }
}

/// The same where the act makes a polynomial that is too long.
#[tactic(auto, using(crate::proofs::PathLimitLemmas::long_passes))]
pub fn limit_of_long(state: &State, growth: &Growth) -> LongKind
    requires { growth.now.long_term ≡ true }
    ensures { Some result ≡ passes_grown state.now growth.now }
{
    match limit_passed(state, growth) {
        Some(kind) => kind,
        None => LongKind::Term,
    }
}

/// The path isn't followed, since an act passes this limit.
pub fn cut<T>(alloc: Global, state: State, kind: LongKind) -> Result<StepOutcome<T>, NoMemory>
    ensures { IfOk result (λ to. to ≡ dropped state (Long kind)) }
{
    StepOutcome::dropped(alloc, state, Cause::Long(kind))
}

// Whether there are more than so many, where some are added.
fn is_beyond(limit: usize, now: usize, added: usize) -> bool
    ensures { result ≡ nat_lt limit (now + added) }
{
    now > limit || added > limit - now
}

// Whether more commands are begun than the limit allows.
fn is_beyond_steps(now: u32, added: u32) -> bool
    ensures { result ≡ nat_lt most_steps (now + added) }
{
    now > COMMANDS || added > COMMANDS - now
}

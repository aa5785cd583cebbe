ghost use Rattle.std.specs.Prelude.{◌≡◌, ◌++◌, List, Some, IfOk, OnOk};
ghost use Rattle.px_core.specs.Control.{Item};
ghost use Rattle.px_callgraph.specs.Renaming.{Substitution};
ghost use Rattle.px_callgraph.specs.Calls as spec;
ghost use Rattle.px_callgraph.specs.Alternatives as paths;
ghost use Rattle.px_entry.specs.declared.entries.Exit.TheVariants as exits;
ghost use Rattle.px_calls.specs.Calls.{calling_of, called, IsFewCalled};
ghost use Rattle.px_calls.specs.Progress.{progress_at};
ghost use Rattle.px_calls.specs.Finishing.{IsSaid, IsGiven, nothing_given, adding, applied, finish_by};

use crate::Calling;
use crate::assuming::{Assumed, assume_all, one_more};
use crate::leaving::{Left, leave_all, with_states};
use crate::led::{self, CallLed};
use crate::meeting::Progress;
use crate::possible::{all_variables, put_all};
use px_base::{Kind, Mark, MarkKind, Site};
use px_callgraph::State;
use px_entry::{Entry, Exit};
use px_match::{Growth, NOTHING, content_through, count_new, limit_passed};
use px_terms::{Content, Items, NoMemory, Var, VarInfo};
use px_ways::{mark, set_slot};
use std::alloc::Global;
use std::mem;

/// What an entry says of its caller's state, built beside it.
#[derive(Drop)]
pub(crate) struct Said {
    /// The caller's variables, and those that are new.
    pub vars: Items<VarInfo>,
    pub assumed: Assumed,
    pub left: Left,
}

/// What a call gives.
#[derive(Drop)]
pub(crate) struct Given {
    pub content: Content,
    /// Whether a polynomial of it is too long. The content is another then.
    pub long: bool,
}

/// All blocks that an entry requires are met, and what it says is done.
pub(crate) fn finish<'a>(
    alloc: Global,
    state: &mut State,
    calling: Calling,
    entry: &Entry,
    progress: Progress,
) -> Result<CallLed<'a>, NoMemory>
    ensures leads { IfOk result (λ led. (k : List Item) → called k (progress_at led state.new) ≡ paths.leads state.old (spec.finish_call (calling_of calling) entry.now progress.substitution.items progress.used.items state.old) (paths.at k)) }
    ensures few { IfOk result (λ led. IsFewCalled (progress_at led state.new)) }
{
    let Progress {
        substitution,
        used,
        ..
    } = progress;
    let mut all = substitution;
    put_all(alloc, &mut all, state.vars.len(), entry.vars.as_slice())?;
    let said = say(alloc, state, &all, entry)?;
    match entry.exit {
        Exit::Ok => return_from(alloc, state, calling, &all, &used, entry, said),
        Exit::Error(kind, site) => fail_by(alloc, state, &used, entry, said, kind, site),
    }
}

fn say(
    alloc: Global,
    state: &State,
    substitution: &[(Var, Content)],
    entry: &Entry,
) -> Result<Said, NoMemory>
    ensures { IfOk result (λ said. IsSaid state.now substitution.now entry.now said) }
{
    let vars = all_variables(alloc, state.vars.as_slice(), entry.vars.as_slice())?;
    let assumed = assume_all(
        alloc,
        vars.as_slice(),
        state.pure.as_slice(),
        substitution,
        entry.pure.as_slice(),
    )?;
    let left = leave_all(
        alloc,
        entry.vars.as_slice(),
        substitution,
        entry.post.as_slice(),
    )?;
    Ok(Said {
        vars,
        assumed,
        left,
    })
}

// The caller goes on with what the callee gives.
fn return_from<'a>(
    alloc: Global,
    state: &mut State,
    calling: Calling,
    substitution: &[(Var, Content)],
    used: &[u32],
    entry: &Entry,
    said: Said,
) -> Result<CallLed<'a>, NoMemory>
    requires said { IsSaid state.old substitution.now entry.now said }
    ensures leads { IfOk result (λ led. (k : List Item) → called k (progress_at led state.new) ≡ paths.leads state.old (finish_by (calling_of calling) entry.now substitution.now used.now state.old exits.Ok) (paths.at k)) }
    ensures few { IfOk result (λ led. IsFewCalled (progress_at led state.new)) }
{
    let given = result_given(alloc, substitution, calling.to, &entry.result)?;
    let marks = one_more(entry.trace.len())?;
    let growth = growth_of(entry, &said, marks, given.long);
    match limit_passed(state, &growth) {
        Some(kind) => led::cut(alloc, state, kind),
        None => {
            apply(alloc, state, said, used, entry.trace.as_slice())?;
            mark(state, MarkKind::Leave, calling.site)?;
            keep_result(state, calling.to, given.content);
            Ok(CallLed::Goes(None))
        }
    }
}

// The caller ends with the callee's error.
fn fail_by<'a>(
    alloc: Global,
    state: &mut State,
    used: &[u32],
    entry: &Entry,
    said: Said,
    kind: Kind,
    site: Site,
) -> Result<CallLed<'a>, NoMemory>
    ensures leads { IfOk result (λ led. (c : spec.Calling) (σ : Substitution) (k : List Item) → IsSaid state.old σ entry.now said → called k (progress_at led state.new) ≡ paths.leads state.old (finish_by c entry.now σ used.now state.old (exits.Error kind site)) (paths.at k)) }
    ensures few { IfOk result (λ led. IsFewCalled (progress_at led state.new)) }
{
    let growth = growth_of(entry, &said, entry.trace.len(), false);
    match limit_passed(state, &growth) {
        Some(passed) => led::cut(alloc, state, passed),
        None => {
            apply(alloc, state, said, used, entry.trace.as_slice())?;
            Ok(CallLed::Ends(Exit::Error(kind, site), None))
        }
    }
}

// How much is added to the state, with so many marks.
fn growth_of(entry: &Entry, said: &Said, marks: usize, long: bool) -> Growth
    ensures { result ≡ adding entry.now said.now marks long }
{
    Growth {
        marks,
        conjuncts: said.assumed.count,
        atoms: said.left.made.len(),
        variables: count_new(entry.vars.as_slice()),
        long_term: said.assumed.long || said.left.long || long,
        ..NOTHING
    }
}

// The state that is left.
fn apply(
    alloc: Global,
    state: &mut State,
    said: Said,
    used: &[u32],
    trace: &[Mark],
) -> Result<(), NoMemory>
    ensures { OnOk result (state.new ≡ applied state.old said used.now trace.now) }
{
    let Said {
        vars,
        assumed,
        left,
    } = said;
    state.vars = vars;
    append(&mut state.pure, assumed.added)?;
    let atoms = mem::replace(&mut state.atoms, Items::new(alloc));
    state.atoms = with_states(atoms, used, left.found);
    append(&mut state.atoms, left.made)?;
    put_marks(&mut state.trace, trace)
}

// Items after others.
fn append<T: Drop>(items: &mut Items<T>, more: Items<T>) -> Result<(), NoMemory>
    ensures { OnOk result (items.new ≡ items.old ++ more) }
{
    for item in more.into_vec() {
        items.push(item)?;
    }
    Ok(())
}

fn put_marks(trace: &mut Items<Mark>, more: &[Mark]) -> Result<(), NoMemory>
    ensures { OnOk result (trace.new ≡ trace.old ++ more.now) }
{
    for mark in more {
        trace.push(*mark)?;
    }
    Ok(())
}

// What a call gives, where its result goes anywhere.
fn result_given(
    alloc: Global,
    substitution: &[(Var, Content)],
    to: Option<u32>,
    given: &Option<Content>,
) -> Result<Given, NoMemory>
    ensures { IfOk result (λ g. IsGiven substitution.now to given.now g) }
{
    match to {
        Some(to) => some_given(alloc, substitution, to, given),
        None => Ok(nothing_given()),
    }
}

// The same where it goes to a slot.
fn some_given(
    alloc: Global,
    substitution: &[(Var, Content)],
    to: u32,
    given: &Option<Content>,
) -> Result<Given, NoMemory>
    ensures { IfOk result (λ g. IsGiven substitution.now (Some to) given.now g) }
{
    match given {
        Some(content) => content_given(alloc, substitution, to, content),
        None => Ok(nothing_given()),
    }
}

fn nothing_given() -> Given
    ensures { result ≡ nothing_given }
{
    Given {
        content: Content::Unwritten,
        long: false,
    }
}

fn content_given(
    alloc: Global,
    substitution: &[(Var, Content)],
    to: u32,
    content: &Content,
) -> Result<Given, NoMemory>
    ensures { IfOk result (λ g. IsGiven substitution.now (Some to) (Some content.now) g) }
{
    match content_through(alloc, substitution, content)? {
        Some(content) => Ok(Given {
            content,
            long: false,
        }),
        None => Ok(Given {
            content: Content::Unwritten,
            long: true,
        }),
    }
}

fn keep_result(state: &mut State, to: Option<u32>, content: Content)
    ensures { state.new ≡ spec.keep_result to content state.old }
{
    if let Some(to) = to {
        set_slot(state, to, content);
    }
}

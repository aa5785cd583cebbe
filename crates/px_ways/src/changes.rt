ghost use Rattle.std.specs.Prelude.{◌≡◌, ◌<◌, ◌∷◌, ◌++◌, [], length, option_to_list, IfOk, OnOk};
ghost use Rattle.px_base.specs.Bounds.{most_steps};
ghost use Rattle.px_entry.specs.Decided.{assume};
ghost use Rattle.px_entry.specs.Contents as contents;
ghost use Rattle.px_callgraph.specs.States as spec;
ghost use Rattle.px_callgraph.specs.Commands as commands;
ghost use Rattle.px_ways.specs.Additions.{with_loop, with_conjuncts};

use px_base::{Mark, MarkKind, Site};
use px_callgraph::State;
use px_entry::Atom;
use px_match::stands;
use px_terms::{Conj, Content, NoMemory, Place, Poly, ValueType, Var, VarInfo};
use std::alloc::Global;

/// A command begins.
pub fn begin(state: &mut State)
    requires { state.old.steps < most_steps }
    ensures { state.new ≡ spec.begun state.old }
{
    state.steps += 1;
}

/// The slot with this number gets a content.
pub fn set_slot(state: &mut State, slot: u32, content: Content)
    ensures { state.new ≡ spec.set_slot slot content state.old }
{
    let place = slot as usize;
    if place < state.slots.len() {
        state.slots.set(place, content);
    }
}

/// A mark is added to the trace.
pub fn mark(state: &mut State, kind: MarkKind, site: Site) -> Result<(), NoMemory>
    ensures { OnOk result (state.new ≡ spec.marked kind site state.old) }
{
    state.trace.push(Mark { kind, site })?;
    Ok(())
}

/// One more block.
pub(crate) fn add_atom(state: &mut State, atom: Atom) -> Result<(), NoMemory>
    ensures { OnOk result (state.new ≡ spec.with_atom atom state.old) }
{
    state.atoms.push(atom)?;
    Ok(())
}

/// One more variable.
pub(crate) fn add_variable(state: &mut State, info: VarInfo) -> Result<(), NoMemory>
    ensures { OnOk result (state.new ≡ spec.with_variables (info ∷ []) state.old) }
{
    state.vars.push(info)?;
    Ok(())
}

/// The innermost open loop.
pub fn innermost(loops: &[(Site, u32)]) -> Option<(Site, u32)>
    ensures { result ≡ commands.last_loop loops.now }
{
    loops.last().copied()
}

/// One more open loop, whose body was begun so often.
pub fn open_loop(state: &mut State, site: Site, made: u32) -> Result<(), NoMemory>
    ensures { OnOk result (state.new ≡ with_loop site made state.old) }
{
    state.loops.push((site, made))?;
    Ok(())
}

/// The innermost loop is over.
pub fn close_loop(state: &mut State)
    ensures { state.new ≡ commands.leave_loop state.old }
{
    let _loop = state.loops.pop();
}

/// What is added where a conjunct is assumed: nothing where it is decided true or stands there already.
pub fn unless_there(state: &State, conjunct: Conj) -> Option<Conj>
    ensures { assume state.now.vars state.now.pure conjunct ≡ state.now.pure ++ option_to_list result }
{
    if stands(state.vars.as_slice(), state.pure.as_slice(), &conjunct) {
        None
    } else {
        Some(conjunct)
    }
}

/// How many conjuncts that adds.
pub fn count_added(added: &Option<Conj>) -> usize
    ensures { result ≡ length (option_to_list added.now) }
{
    match added {
        Some(_) => 1,
        None => 0,
    }
}

/// A conjunct is added, where there is one.
pub fn add_conjunct(state: &mut State, added: Option<Conj>) -> Result<(), NoMemory>
    ensures { OnOk result (state.new ≡ with_conjuncts (option_to_list added) state.old) }
{
    if let Some(conjunct) = added {
        state.pure.push(conjunct)?;
    }
    Ok(())
}

/// A variable of a type as a word or a place.
pub fn variable_content(alloc: Global, value: ValueType, x: Var) -> Result<Content, NoMemory>
    ensures { IfOk result (λ c. c ≡ contents.variable_content value x.0) }
{
    Ok(match value {
        ValueType::Int => Content::Word(Poly::var(alloc, x)?),
        ValueType::Pointer(_) => Content::Place(Place::Var(x)),
    })
}

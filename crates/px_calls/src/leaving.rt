ghost use Rattle.std.specs.Prelude.{◌≡◌, ◌||◌, ◌++◌, ◌∷◌, [], List, IfOk, OnOk};
ghost use Rattle.px_entry.specs.declared.atoms.Atom.{Atom as AtomOf};
ghost use Rattle.px_callgraph.specs.Accesses.{set_atom};
ghost use Rattle.px_callgraph.specs.Accesses as accesses;
ghost use Rattle.px_calls.specs.Leaving.{IsLeft, update_states, made_at, is_lacking, state_or_freed};

use px_entry::{Atom, AtomState};
use px_match::{is_made, place_through, state_through};
use px_terms::{Content, Items, NoMemory, Place, TypeId, Var, VarInfo};
use std::alloc::Global;

/// How an entry leaves blocks. Where a polynomial is too long, something else stands in its place.
#[derive(Drop)]
pub(crate) struct Left {
    /// The states of the blocks that it found.
    pub found: Vec<AtomState>,
    /// The blocks that it made.
    pub made: Items<Atom>,
    /// Whether a polynomial is too long.
    pub long: bool,
}

/// How an entry leaves blocks, as the caller reads it. `vars` are the entry's variables.
pub(crate) fn leave_all(
    alloc: Global,
    vars: &[VarInfo],
    substitution: &[(Var, Content)],
    atoms: &[Atom],
) -> Result<Left, NoMemory>
    ensures { IfOk result (λ left. IsLeft vars.now substitution.now atoms.now left) }
{
    let mut left = Left {
        found: Vec::new(alloc),
        made: Items::new(alloc),
        long: false,
    };
    for atom in atoms {
        put_left(alloc, vars, substitution, &mut left, atom)?;
    }
    Ok(left)
}

// One more block that the entry leaves.
fn put_left(
    alloc: Global,
    vars: &[VarInfo],
    substitution: &[(Var, Content)],
    left: &mut Left,
    atom: &Atom,
) -> Result<(), NoMemory>
    ensures { OnOk result ((atoms : List AtomOf) → IsLeft vars.now substitution.now atoms left.old → IsLeft vars.now substitution.now (atoms ++ atom.now ∷ []) left.new) }
{
    let state = state_through(alloc, substitution, &atom.state)?;
    note_long(left, &state);
    if is_made(vars, atom.place) {
        let place = place_through(substitution, Place::Var(atom.place));
        put_made(left, place, atom.block, or_freed(state))
    } else {
        put_found(left, or_freed(state))
    }
}

fn note_long(left: &mut Left, state: &Option<AtomState>)
    ensures long { left.new.long ≡ (left.old.long || is_lacking state.now) }
    ensures found { left.new.found.items ≡ left.old.found.items }
    ensures made { left.new.made ≡ left.old.made }
{
    left.long |= state.is_none();
}

fn or_freed(state: Option<AtomState>) -> AtomState
    ensures { result ≡ state_or_freed state }
{
    match state {
        Some(state) => state,
        None => AtomState::Freed,
    }
}

fn put_made(
    left: &mut Left,
    place: Option<Place>,
    block: TypeId,
    state: AtomState,
) -> Result<(), NoMemory>
    ensures made { OnOk result (left.new.made ≡ left.old.made ++ made_at place block state) }
    ensures found { OnOk result (left.new.found.items ≡ left.old.found.items) }
    ensures long { OnOk result (left.new.long ≡ left.old.long) }
{
    match place {
        Some(Place::Var(x)) => left.made.push(Atom {
            place: x,
            block,
            state,
        }),
        Some(Place::Null) | None => Ok(()),
    }
}

fn put_found(left: &mut Left, state: AtomState) -> Result<(), NoMemory>
    ensures found { OnOk result (left.new.found.items ≡ left.old.found.items ++ state ∷ []) }
    ensures made { OnOk result (left.new.made ≡ left.old.made) }
    ensures long { OnOk result (left.new.long ≡ left.old.long) }
{
    left.found.push(state)?;
    Ok(())
}

/// Atoms of which those with these numbers get states, in order.
pub(crate) fn with_states(atoms: Items<Atom>, used: &[u32], states: Vec<AtomState>) -> Items<Atom>
    ensures { result ≡ update_states used.now states.items atoms }
{
    let mut all = atoms;
    let mut i = 0;
    for state in states {
        if i >= used.len() {
            return all;
        }
        all = with_state(all, used[i] as usize, state);
        i += 1;
    }
    all
}

// Atoms of which one has another state.
fn with_state(atoms: Items<Atom>, n: usize, state: AtomState) -> Items<Atom>
    ensures { result ≡ set_atom n state atoms }
{
    let mut all = atoms.into_vec();
    if n >= all.len() {
        return Items::from_vec(all);
    }
    put_state(&mut all[n], state);
    Items::from_vec(all)
}

fn put_state(atom: &mut Atom, state: AtomState)
    ensures { atom.new ≡ accesses.with_state state atom.old }
{
    atom.state = state;
}

ghost use Rattle.std.specs.Prelude.{◌≡◌, ◌++◌, ◌&&◌, ◌<◌, ◌^◌, nat_eq, length, IfOk, OnOk};
ghost use Rattle.std.specs.Option.{option_copied};
ghost use Rattle.px_terms.specs.declared.conjuncts.Content.TheVariants.{Place as place_content};
ghost use Rattle.px_entry.specs.Cases as cases;
ghost use Rattle.px_callgraph.specs.States.{operand_content};
ghost use Rattle.px_callgraph.specs.Accesses as spec;
ghost use Rattle.px_ways.specs.Ways.{or_unwritten};

use crate::contents::{is_place_of, slot_content};
use px_callgraph::{State, Way};
use px_core::Operand;
use px_entry::Atom;
use px_match::{may_be_missing, may_be_same};
use px_terms::{Content, NoMemory, Place, TypeId, VarInfo};
use std::alloc::Global;

/// The place that an access to blocks of a type goes through, where the operand is a pointer to that type.
pub fn accessed(state: &State, block: TypeId, at: Operand) -> Option<Place>
    ensures { result ≡ spec.accessed state.now.vars block (operand_content state.now at) }
{
    match at {
        Operand::Slot(slot) => content_place(
            state.vars.as_slice(),
            block,
            slot_content(state.slots.as_slice(), slot),
        ),
        Operand::Word(_) => None,
        Operand::Null => Some(Place::Null),
    }
}

fn content_place(vars: &[VarInfo], block: TypeId, content: Option<&Content>) -> Option<Place>
    ensures { result ≡ spec.accessed vars.now block (or_unwritten (option_copied content.entry)) }
{
    match content {
        Some(Content::Place(place)) => typed_place(vars, block, *place),
        _ => None,
    }
}

fn typed_place(vars: &[VarInfo], block: TypeId, place: Place) -> Option<Place>
    ensures { result ≡ spec.accessed vars.now block (place_content place) }
{
    if is_place_of(vars, block, place) {
        Some(place)
    } else {
        None
    }
}

// The ways of an access to a block of a type through a place: null, each atom whose block it may be, and last a
// block that wasn't met yet.
pub(crate) fn access_ways(
    alloc: Global,
    state: &State,
    block: TypeId,
    place: Place,
) -> Result<Vec<Way>, NoMemory>
    requires few { length state.now.atoms < 2 ^ 32 }
    ensures { IfOk result (λ r. r.items ≡ spec.access_ways state.now block place) }
{
    let vars = state.vars.as_slice();
    let mut found = Vec::new(alloc);
    put_way(&mut found, may_be_same(vars, place, Place::Null), Way::Null)?;
    put_atoms(&mut found, vars, state.atoms.as_slice(), block, place)?;
    put_missing(&mut found, may_be_missing(vars, place))?;
    Ok(found)
}

// Puts a way after others, where it is listed.
pub(crate) fn put_way(found: &mut Vec<Way>, listed: bool, way: Way) -> Result<(), NoMemory>
    ensures { OnOk result (found.new.items ≡ found.old.items ++ spec.listed_if listed way) }
{
    if listed {
        found.push(way)?;
    }
    Ok(())
}

// Puts the atoms of a block type that may be at a place after other ways.
fn put_atoms(
    found: &mut Vec<Way>,
    vars: &[VarInfo],
    atoms: &[Atom],
    block: TypeId,
    place: Place,
) -> Result<(), NoMemory>
    requires few { length atoms.now < 2 ^ 32 }
    ensures { OnOk result (found.new.items ≡ found.old.items ++ spec.atom_ways (cases.numbers_of (λ n a. nat_eq a.block.0 block.0 && cases.may_be_at vars.now place a) 0 atoms.now)) }
{
    for i in 0..atoms.len() {
        let here = may_be_block(vars, block, place, &atoms[i]);
        put_way(found, here, Way::Atom(i as u32))?;
    }
    Ok(())
}

// Whether an atom is of a block type, and may be at a place.
pub(crate) fn may_be_block(vars: &[VarInfo], block: TypeId, place: Place, atom: &Atom) -> bool
    ensures { result ≡ (nat_eq atom.now.block.0 block.0 && cases.may_be_at vars.now place atom.now) }
{
    atom.block.0 == block.0 && may_be_same(vars, place, Place::Var(atom.place))
}

// Puts the two kinds of a missing block after other ways, where it may be missing.
fn put_missing(found: &mut Vec<Way>, missing: bool) -> Result<(), NoMemory>
    ensures { OnOk result (found.new.items ≡ found.old.items ++ spec.missing_ways missing) }
{
    if missing {
        found.push(Way::MissingLive)?;
        found.push(Way::MissingFreed)?;
    }
    Ok(())
}

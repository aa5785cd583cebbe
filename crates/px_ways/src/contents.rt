ghost use Rattle.std.specs.Prelude.{◌≡◌};
ghost use Rattle.std.specs.Option.{option_copied};
ghost use Rattle.px_entry.specs.Sorts as sorts;
ghost use Rattle.px_entry.specs.Contents as spec;
ghost use Rattle.px_callgraph.specs.States.{content_at, operand_content};
ghost use Rattle.px_callgraph.specs.Commands.{is_argument};
ghost use Rattle.px_ways.specs.Ways as ways;
ghost use Rattle.px_ways.specs.Ways.{or_unwritten};
ghost use Rattle.px_terms.specs.declared.conjuncts.Content.TheVariants as content;

use px_callgraph::State;
use px_core::Operand;
use px_match::is_int_polynomial;
use px_terms::{Content, Place, Poly, Sort, TypeId, ValueType, Var, VarInfo};

// The content of a slot; none beyond the last.
pub(crate) fn slot_content(slots: &[Content], slot: u32) -> Option<&Content>
    ensures { or_unwritten (option_copied result) ≡ content_at slots.now slot }
{
    slots.get(slot as usize)
}

// Whether an operand is a word.
pub(crate) fn is_word(state: &State, operand: Operand) -> bool
    ensures { result ≡ ways.is_word (operand_content state.now operand) }
{
    match operand {
        Operand::Slot(slot) => is_word_content(slot_content(state.slots.as_slice(), slot)),
        Operand::Word(_) => true,
        Operand::Null => false,
    }
}

fn is_word_content(content: Option<&Content>) -> bool
    ensures { result ≡ ways.is_word (or_unwritten (option_copied content.entry)) }
{
    match content {
        Some(Content::Word(_)) => true,
        _ => false,
    }
}

// Whether an operand is a word or a place.
pub(crate) fn is_written(state: &State, operand: Operand) -> bool
    ensures { result ≡ is_argument (operand_content state.now operand) }
{
    match operand {
        Operand::Slot(slot) => is_written_content(slot_content(state.slots.as_slice(), slot)),
        Operand::Word(_) | Operand::Null => true,
    }
}

fn is_written_content(content: Option<&Content>) -> bool
    ensures { result ≡ is_argument (or_unwritten (option_copied content.entry)) }
{
    match content {
        Some(Content::Word(_) | Content::Place(_)) => true,
        _ => false,
    }
}

/// Whether an operand may stand in a cell of a type.
pub fn operand_fits(state: &State, wanted: ValueType, operand: Operand) -> bool
    ensures { result ≡ spec.fits_cell state.now.vars wanted (operand_content state.now operand) }
{
    match operand {
        Operand::Slot(slot) => fits_cell(
            state.vars.as_slice(),
            wanted,
            slot_content(state.slots.as_slice(), slot),
        ),
        Operand::Word(_) => is_int_type(wanted),
        Operand::Null => !is_int_type(wanted),
    }
}

// The same of the content of a slot, which holds nothing where there is none.
fn fits_cell(vars: &[VarInfo], wanted: ValueType, content: Option<&Content>) -> bool
    ensures { result ≡ spec.fits_cell vars.now wanted (or_unwritten (option_copied content.entry)) }
{
    match content {
        None => true,
        Some(content) => content_fits(vars, wanted, content),
    }
}

/// Whether a content may stand in a cell of a type. Takes no memory.
pub fn content_fits(vars: &[VarInfo], wanted: ValueType, content: &Content) -> bool
    ensures { result ≡ spec.fits_cell vars.now wanted content.now }
{
    match content {
        Content::Unwritten => true,
        Content::Word(p) => fits_word(vars, wanted, p),
        Content::Place(place) => fits_place(vars, wanted, *place),
        Content::Cell(x) => is_cell(vars, *x) && has_type(vars, wanted, *x),
    }
}

fn fits_word(vars: &[VarInfo], wanted: ValueType, p: &Poly) -> bool
    ensures { result ≡ spec.fits_cell vars.now wanted (content.Word p.now) }
{
    match wanted {
        ValueType::Int => is_int_polynomial(vars, p),
        ValueType::Pointer(_) => false,
    }
}

fn fits_place(vars: &[VarInfo], wanted: ValueType, place: Place) -> bool
    ensures { result ≡ spec.fits_cell vars.now wanted (content.Place place) }
{
    match wanted {
        ValueType::Int => false,
        ValueType::Pointer(block) => is_place_of(vars, block, place),
    }
}

/// Whether a type is `int`. Takes no memory.
pub fn is_int_type(value: ValueType) -> bool
    ensures { result ≡ sorts.is_int_type value }
{
    matches!(value, ValueType::Int)
}

/// Whether a variable of the list stands for what stands in a cell that was there before. Takes no memory.
pub fn is_cell(vars: &[VarInfo], x: Var) -> bool
    ensures { result ≡ sorts.is_cell vars.now x.0 }
{
    match vars.get(x.0 as usize) {
        Some(info) => matches!(info.sort, Sort::Cell),
        None => false,
    }
}

// Whether a place is null or a pointer to blocks of a type.
pub(crate) fn is_place_of(vars: &[VarInfo], block: TypeId, place: Place) -> bool
    ensures { result ≡ sorts.is_place_of vars.now block place }
{
    match place {
        Place::Null => true,
        Place::Var(x) => has_type(vars, ValueType::Pointer(block), x),
    }
}

/// Whether a variable of the list has a type. Takes no memory.
pub fn has_type(vars: &[VarInfo], wanted: ValueType, x: Var) -> bool
    ensures { result ≡ sorts.has_type vars.now wanted x.0 }
{
    match vars.get(x.0 as usize) {
        Some(info) => is_same_type(info.value, wanted),
        None => false,
    }
}

fn is_same_type(first: ValueType, second: ValueType) -> bool
    ensures { result ≡ sorts.same_type first second }
{
    match (first, second) {
        (ValueType::Int, ValueType::Int) => true,
        (ValueType::Pointer(s), ValueType::Pointer(t)) => s.0 == t.0,
        _ => false,
    }
}

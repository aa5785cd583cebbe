ghost use Rattle.std.specs.Prelude.{◌≡◌, IfOk, slice_set};
ghost use Rattle.px_meaning.specs.Execution.{Locals as LocalsMap};
ghost use Rattle.px_meaning.specs.Operations.{value_at};
ghost use Rattle.px_meaning.specs.Values as value;
ghost use Rattle.px_replay.specs.Pointers.{IsLed};
ghost use Rattle.px_replay.specs.Replays.{heap_map};
ghost use Rattle.px_replay.specs.Script.{plain_script, UnlessMemory};
ghost use Rattle.px_replay.specs.TreeReplay.{loads, reaches, stores, frees, compares};
ghost use Rattle.px_replay.specs.Interpreted.{falls_with};

use crate::heap::{Block, BlockState, Heap};
use crate::operators::{compared, used};
use crate::script::Script;
use crate::stop::Stop;
use px_base::{FieldId, Kind, MarkKind, Site};
use px_syntax::{CellLink, Relation};
use px_terms::{Items, NoMemory, TypeId, Value};
use std::alloc::Global;

// What a pointer names.
enum Led<'a> {
    Null,
    Freed,
    /// A live block, by its number, and its cells.
    Live(u32, &'a [Value]),
}

// Where a pointer to blocks of this type leads, if it is one.
fn lead(heap: &Heap, pointer: Value, block: TypeId) -> Option<Led>
    ensures { IsLed (heap_map heap.now) block.0 pointer result }
{
    match pointer {
        Value::Null => Some(Led::Null),
        Value::Block(number) => lead_to(heap, number, block),
        Value::Word(_) => None,
        Value::Unwritten => None,
    }
}

fn lead_to(heap: &Heap, number: u32, block: TypeId) -> Option<Led>
    ensures { IsLed (heap_map heap.now) block.0 (value.Block number) result }
{
    let found = heap.find(number)?;
    if found.block != block {
        return None;
    }
    match &found.state {
        BlockState::Live(cells) => Some(Led::Live(number, cells.as_slice())),
        BlockState::Freed => Some(Led::Freed),
    }
}

// The value of the cell that a pointer names.
pub fn load(script: &mut Script, pointer: Value, cell: CellLink) -> Result<Value, Stop>
    ensures { loads pointer cell.field cell.block cell.site (plain_script script.old) result (plain_script script.new) }
{
    match lead(&script.heap, pointer, cell.block) {
        None => Err(Stop::Departs),
        Some(Led::Null) => {
            script.mark(MarkKind::Access, cell.site)?;
            Err(Stop::Failed(Kind::NullDereference, cell.site))
        }
        Some(Led::Freed) => {
            script.mark(MarkKind::Access, cell.site)?;
            Err(Stop::Failed(Kind::UseAfterFree, cell.site))
        }
        Some(Led::Live(_, cells)) => {
            let value = value_of(cells, cell.field);
            script.mark(MarkKind::Access, cell.site)?;
            used(value, cell.site)
        }
    }
}

// A cell that a pointer names, which isn't read.
pub fn reach(script: &mut Script, pointer: Value, block: TypeId, site: Site) -> Result<(), Stop>
    ensures { reaches pointer block site (plain_script script.old) result (plain_script script.new) }
{
    match lead(&script.heap, pointer, block) {
        None => Err(Stop::Departs),
        Some(Led::Null) => {
            script.mark(MarkKind::Access, site)?;
            Err(Stop::Failed(Kind::NullDereference, site))
        }
        Some(Led::Freed) => {
            script.mark(MarkKind::Access, site)?;
            Err(Stop::Failed(Kind::UseAfterFree, site))
        }
        Some(Led::Live(_, _)) => script.mark(MarkKind::Access, site),
    }
}

// The value of a cell; nothing was written beyond the last.
fn value_of(cells: &[Value], field: FieldId) -> Value
    ensures { result ≡ value_at cells.now field.0 }
{
    match cells.get(field.0 as usize) {
        Some(value) => *value,
        None => Value::Unwritten,
    }
}

// The cell that a pointer names has this value from now on.
pub fn store(
    alloc: Global,
    script: &mut Script,
    pointer: Value,
    cell: CellLink,
    value: Value,
) -> Result<(), Stop>
    ensures { UnlessMemory result ((locals : LocalsMap) → stores pointer cell.field cell.block cell.site value locals (plain_script script.old) (falls_with result locals) (plain_script script.new)) }
{
    match lead(&script.heap, pointer, cell.block) {
        None => Err(Stop::Departs),
        Some(Led::Null) => {
            script.mark(MarkKind::Access, cell.site)?;
            Err(Stop::Failed(Kind::NullDereference, cell.site))
        }
        Some(Led::Freed) => {
            script.mark(MarkKind::Access, cell.site)?;
            Err(Stop::Failed(Kind::UseAfterFree, cell.site))
        }
        Some(Led::Live(number, cells)) => {
            let cells = cells_with(alloc, cells, cell.field, value)?;
            script.mark(MarkKind::Access, cell.site)?;
            script.heap.put(Block {
                number,
                block: cell.block,
                state: BlockState::Live(cells),
            })?;
            Ok(())
        }
    }
}

// The cells with another value at a number; none is added.
fn cells_with(
    alloc: Global,
    cells: &[Value],
    field: FieldId,
    value: Value,
) -> Result<Items<Value>, NoMemory>
    ensures { IfOk result (λ new. new ≡ slice_set cells.now field.0 value) }
{
    let mut new = Items::from_slice(alloc, cells)?;
    if (field.0 as usize) < new.len() {
        new.set(field.0 as usize, value);
    }
    Ok(new)
}

// The block that a pointer names is freed.
pub fn free(script: &mut Script, pointer: Value, block: TypeId, site: Site) -> Result<(), Stop>
    ensures { UnlessMemory result ((locals : LocalsMap) → frees pointer block site locals (plain_script script.old) (falls_with result locals) (plain_script script.new)) }
{
    match lead(&script.heap, pointer, block) {
        None => Err(Stop::Departs),
        Some(Led::Null) => script.mark(MarkKind::FreeNull, site),
        Some(Led::Freed) => {
            script.mark(MarkKind::Freed, site)?;
            Err(Stop::Failed(Kind::DoubleFree, site))
        }
        Some(Led::Live(number, _)) => {
            script.mark(MarkKind::Freed, site)?;
            script.heap.put(Block {
                number,
                block,
                state: BlockState::Freed,
            })?;
            Ok(())
        }
    }
}

// Whether a comparison is true, with the mark of its branch.
pub fn compare(
    script: &mut Script,
    relation: Relation,
    x: Value,
    y: Value,
    site: Site,
) -> Result<bool, Stop>
    ensures { compares relation x y site (plain_script script.old) result (plain_script script.new) }
{
    if compared(relation, x, y)? {
        script.mark(MarkKind::Then, site)?;
        Ok(true)
    } else {
        script.mark(MarkKind::Else, site)?;
        Ok(false)
    }
}

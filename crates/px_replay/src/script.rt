ghost use Rattle.std.specs.Prelude.{◌≡◌, ◌∷◌, List, length, IfErr, OnErr, OnOk, IfOk, map, slice_get};
ghost use Rattle.px_base.specs.declared.trace.Mark.{Mark as MarkOf};
ghost use Rattle.px_meaning.specs.Events.{mark};
ghost use Rattle.px_meaning.specs.Values as value;
ghost use Rattle.px_terms.specs.Types.{types_of};
ghost use Rattle.px_replay.specs.Script.{allocates, plain_script, takes_input, UnlessMemory};
ghost use Rattle.px_meaning.specs.Heaps.{with_block};
ghost use Rattle.px_meaning.specs.Steps.{new_block};
ghost use Rattle.px_replay.specs.Following.{IsLeast, IsTaken};
ghost use Rattle.px_replay.specs.Replays.{heap_map};
ghost use Rattle.px_replay.specs.declared.stop.Stop.TheVariants as stop;

use crate::heap::{Block, BlockState, Heap};
use crate::stop::Stop;
use px_base::{Mark, MarkKind, Site};
use px_terms::{BlockType, Items, NoMemory, TypeId, Value};
use std::alloc::Global;

/// What is still to be followed, and the heap so far.
#[derive(Drop)]
pub struct Script<'a> {
    pub marks: &'a [Mark],
    pub inputs: &'a [i32],
    pub heap: Heap,
}

impl Script<'_> {
    /// The next mark, which must be this one.
    pub fn mark(&mut self, kind: MarkKind, site: Site) -> Result<(), Stop>
        ensures marks { OnOk result (self.old.marks.now ≡ mark kind site ∷ self.new.marks.now) }
        ensures inputs { OnOk result (self.new.inputs.now ≡ self.old.inputs.now) }
        ensures heap { self.new.heap ≡ self.old.heap }
        ensures refused { OnErr result (self.new ≡ self.old) }
        ensures departs { IfErr result (λ e. e ≡ stop.Departs) }
        ensures other { IfErr result (λ e. (rest : List MarkOf) → self.old.marks.now ≡ mark kind site ∷ rest → ⊥) }
    {
        match self.marks {
            [next, rest @ ..] if *next == (Mark { kind, site }) => {
                self.marks = rest;
                Ok(())
            }
            _ => Err(Stop::Departs),
        }
    }

    /// The next input, at `getchar`.
    pub fn input(&mut self, site: Site) -> Result<Value, Stop>
        ensures { takes_input site (plain_script self.old) result (plain_script self.new) }
    {
        match self.inputs {
            [word, rest @ ..] if *word >= -1 && *word <= 255 => {
                let word = *word;
                self.mark(MarkKind::Input, site)?;
                self.inputs = rest;
                Ok(Value::Word(word))
            }
            _ => Err(Stop::Departs),
        }
    }

    /// A new block, or null, as the trace says.
    pub fn allocate(
        &mut self,
        alloc: Global,
        types: &[BlockType],
        block: TypeId,
        site: Site,
    ) -> Result<Value, Stop>
        ensures { UnlessMemory result (allocates types.now block site (plain_script self.old) result (plain_script self.new)) }
    {
        if let Ok(()) = self.mark(MarkKind::NoBlock, site) {
            return Ok(Value::Null);
        }
        self.mark(MarkKind::Got, site)?;
        let number = self.add_block(alloc, types, block)?;
        Ok(Value::Block(number))
    }

    // A new block with the least number that is free.
    fn add_block(&mut self, alloc: Global, types: &[BlockType], block: TypeId) -> Result<u32, Stop>
        ensures least { IfOk result (IsLeast (IsTaken (heap_map self.old.heap))) }
        ensures put { IfOk result (λ n. heap_map self.new.heap ≡ with_block (heap_map self.old.heap) n (new_block types.now block.0)) }
        ensures memory { IfErr result (λ e. e ≡ stop.NoMemory) }
        ensures marks { self.new.marks.now ≡ self.old.marks.now }
        ensures inputs { self.new.inputs.now ≡ self.old.inputs.now }
    {
        let number = self.heap.least_free().ok_or(Stop::NoMemory)?;
        let cells = new_cells(alloc, types, block)?;
        self.heap.put(Block {
            number,
            block,
            state: BlockState::Live(cells),
        })?;
        Ok(number)
    }
}

// The cells of a new block of this type.
fn new_cells(alloc: Global, types: &[BlockType], block: TypeId) -> Result<Items<Value>, NoMemory>
    ensures { IfOk result (λ cells. cells ≡ map (λ _. value.Unwritten) (types_of (slice_get types.now block.0))) }
{
    let mut cells = Items::new(alloc);
    for _ in 0..count_cells(types, block) {
        cells.push(Value::Unwritten)?;
    }
    Ok(cells)
}

// How many cells a block of this type has; none where nothing is known of it.
fn count_cells(types: &[BlockType], block: TypeId) -> usize
    ensures { result ≡ length (types_of (slice_get types.now block.0)) }
{
    match types.get(block.0 as usize) {
        Some(BlockType::One(_)) => 1,
        Some(BlockType::Fields(fields)) => fields.len(),
        Some(BlockType::Opaque) => 0,
        None => 0,
    }
}

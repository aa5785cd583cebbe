ghost use Rattle.std.specs.Prelude.{◌≡◌, ◌<◌, ◌-◌, ◌^◌, ℕ, option_map, IfNone, IfOk, IfSome, OnOk};
ghost use Rattle.std.specs.Option.{option_copied};
ghost use Rattle.px_meaning.specs.Heaps.{with_block};
ghost use Rattle.px_replay.specs.Following.{HasNumber, IsLeast, IsTaken};
ghost use Rattle.px_replay.specs.Replays.{heap_block, heap_map, blocks_over};
ghost use Rattle.px_meaning.specs.Heaps as heaps;

use px_terms::{Items, NoMemory, TypeId, Value};
use std::alloc::Global;

/// What a block holds: a value for each cell, or nothing since it was freed.
#[derive(Drop)]
pub enum BlockState {
    Live(Items<Value>),
    Freed,
}

/// A block with its number and its type.
#[derive(Drop)]
pub struct Block {
    pub number: u32,
    pub block: TypeId,
    pub state: BlockState,
}

/// Blocks by their numbers. Where two stand with one number, the later one holds: what is written to a block
/// stands after what it had before.
#[derive(Drop)]
pub struct Heap {
    pub blocks: Items<Block>,
}

impl BlockState {
    fn copy(&self, alloc: Global) -> Result<BlockState, NoMemory>
        ensures { IfOk result (λ s. s ≡ self.now) }
    {
        Ok(match self {
            BlockState::Live(cells) => {
                BlockState::Live(Items::from_slice(alloc, cells.as_slice())?)
            }
            BlockState::Freed => BlockState::Freed,
        })
    }
}

impl Block {
    fn copy(&self, alloc: Global) -> Result<Block, NoMemory>
        ensures { IfOk result (λ b. b ≡ self.now) }
    {
        Ok(Block {
            number: self.number,
            block: self.block,
            state: self.state.copy(alloc)?,
        })
    }
}

impl Heap {
    /// The same blocks.
    pub fn copy(&self, alloc: Global) -> Result<Heap, NoMemory>
        ensures { IfOk result (λ h. h ≡ self.now) }
    {
        let mut blocks = Items::new(alloc);
        for block in self.blocks.as_slice() {
            blocks.push(block.copy(alloc)?)?;
        }
        Ok(Heap { blocks })
    }

    /// The block with a number. Takes no memory.
    pub fn find(&self, number: u32) -> Option<&Block>
        ensures { option_map heap_block (option_copied result) ≡ heap_map self.now number }
    {
        find_in(self.blocks.as_slice(), number)
    }

    // Whether there is a block with a number. Takes no memory.
    #[tactic(auto, using(crate::proofs::TakenNumbers::has_number))]
    fn has(&self, number: u32) -> bool
        ensures { HasNumber (heap_map self.now) number result }
    {
        self.find(number).is_some()
    }

    /// The least number without a block; none where all below the last one of 32 bits have one. Takes no memory.
    #[tactic(auto, using(crate::proofs::TakenNumbers::taken_next, crate::proofs::TakenNumbers::least_at))]
    pub(crate) fn least_free(&self) -> Option<u32>
        ensures least { IfSome result (IsLeast (IsTaken (heap_map self.now))) }
        ensures none { IfNone result ((n : ℕ) → n < 2 ^ 32 - 1 → IsTaken (heap_map self.now) n) }
    {
        for number in 0..u32::MAX {
            if !self.has(number) {
                return Some(number);
            }
        }
        None
    }

    /// This block holds from now on.
    #[tactic(auto, using(crate::proofs::LaterWrites::block_last))]
    pub fn put(&mut self, block: Block) -> Result<(), NoMemory>
        ensures { OnOk result (heap_map self.new ≡ with_block (heap_map self.old) block.number (heap_block block)) }
    {
        self.blocks.push(block)
    }
}

// The last one with a number.
#[tactic(auto, using(crate::proofs::LaterWrites::one_block))]
fn find_in(blocks: &[Block], number: u32) -> Option<&Block>
    ensures { option_map heap_block (option_copied result) ≡ blocks_over heaps.no_blocks blocks.now number }
{
    let mut found = None;
    for block in blocks {
        if block.number == number {
            found = Some(block);
        }
    }
    found
}

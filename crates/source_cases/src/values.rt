use anyhow::{Context, Result};
use px_replay::{Block, BlockState};
use px_terms::{Items, TypeId, Value};
use std::alloc::Global;

/// A word, `null`, `unwritten`, or `block` with its number after it.
pub fn value(text: &str) -> Result<Value> {
    if let Some(number) = text.strip_prefix("block") {
        return Ok(Value::Block(number.parse()?));
    }
    Ok(match text {
        "null" => Value::Null,
        "unwritten" => Value::Unwritten,
        _ => Value::Word(text.parse()?),
    })
}

/// The number of a block, that of its type, and `freed` or its cells, as `2:0:freed` and `3:1:7,null`.
pub fn block(alloc: Global, text: &str) -> Result<Block> {
    let (number, rest) = text.split_once(':').context("no type")?;
    let (block, state) = rest.split_once(':').context("no state")?;
    Ok(Block {
        number: number.parse()?,
        block: TypeId(block.parse()?),
        state: block_state(alloc, state)?,
    })
}

fn block_state(alloc: Global, text: &str) -> Result<BlockState> {
    if text == "freed" {
        return Ok(BlockState::Freed);
    }
    let mut cells = Items::new(alloc);
    for cell in text.split(',') {
        cells.push(value(cell)?)?;
    }
    Ok(BlockState::Live(cells))
}

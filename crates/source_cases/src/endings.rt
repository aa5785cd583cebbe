use anyhow::Result;
use px_base::Kind;
use px_entry::Exit;
use px_replay::{Block, BlockState, Heap, Replayed};
use px_terms::Value;
use std::alloc::Global;
use std::fmt::Write;

/// The exit, with the result or the place of the error, and the heap in the form of a case.
pub fn ending(alloc: Global, replayed: &Replayed) -> Result<String> {
    let mut out = String::new(alloc);
    match replayed.exit {
        Exit::Ok => {
            out.push_str("ok ")?;
            write_value(&mut out, replayed.result)?;
        }
        Exit::Error(kind, site) => {
            write!(out, "{} at {}:{}", kind_text(kind), site.line, site.column)?;
        }
    }
    out.push_str(", heap")?;
    write_heap(&mut out, &replayed.heap)?;
    Ok(out)
}

fn kind_text(kind: Kind) -> &'static str {
    match kind {
        Kind::NullDereference => "null dereference",
        Kind::UseAfterFree => "use after free",
        Kind::DoubleFree => "double free",
        Kind::UninitialisedRead => "uninitialised read",
        Kind::DivisionByZero => "division by zero",
    }
}

// Each block once, by rising numbers; `-` where there is none.
fn write_heap(out: &mut String, heap: &Heap) -> Result<()> {
    let blocks = heap.blocks.as_slice();
    if blocks.is_empty() {
        out.push_str(" -")?;
    }
    let most = blocks.iter().map(|block| block.number).max();
    for number in 0..=most.unwrap_or(0) {
        if let Some(block) = heap.find(number) {
            write_block(out, block)?;
        }
    }
    Ok(())
}

fn write_block(out: &mut String, block: &Block) -> Result<()> {
    write!(out, " {}:{}:", block.number, block.block.0)?;
    match &block.state {
        BlockState::Freed => out.push_str("freed")?,
        BlockState::Live(cells) => {
            for (place, cell) in cells.as_slice().iter().enumerate() {
                if place > 0 {
                    out.push(',')?;
                }
                write_value(out, *cell)?;
            }
        }
    }
    Ok(())
}

fn write_value(out: &mut String, value: Value) -> Result<()> {
    match value {
        Value::Word(word) => write!(out, "{word}")?,
        Value::Null => out.push_str("null")?,
        Value::Block(number) => write!(out, "block{number}")?,
        Value::Unwritten => out.push_str("unwritten")?,
    }
    Ok(())
}

use anyhow::Result;
use px_terms::Value;
use std::alloc::Global;

/// Values with a blank between them: a word, `null`, `unwritten`, or a `b` and the number of a block.
pub fn values(alloc: Global, text: &str) -> Result<Vec<Value>> {
    let mut values = Vec::new(alloc);
    for part in text.split(' ') {
        values.push(value(part)?)?;
    }
    Ok(values)
}

fn value(text: &str) -> Result<Value> {
    if let Some(number) = text.strip_prefix('b') {
        return Ok(Value::Block(number.parse()?));
    }
    Ok(match text {
        "null" => Value::Null,
        "unwritten" => Value::Unwritten,
        _ => Value::Word(text.parse()?),
    })
}

use anyhow::{Context, Result};
use std::alloc::Global;

/// The parts of a text that stand between these characters, without the blanks around them. An empty text has none.
pub fn parts_of<'a>(alloc: Global, text: &'a str, between: char) -> Result<Vec<&'a str>> {
    let mut parts = Vec::new(alloc);
    if !text.trim().is_empty() {
        for part in text.split(between) {
            parts.push(part.trim())?;
        }
    }
    Ok(parts)
}

pub fn part_at<'a>(parts: &[&'a str], place: usize) -> Result<&'a str> {
    parts.get(place).copied().context("no part")
}

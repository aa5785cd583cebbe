use anyhow::{Context, Result};
use std::alloc::Global;

/// The parts of a text that stand between these characters, without the blanks around them. An empty text has none.
pub fn parts_of<'a>(alloc: Global, text: &'a str, between: char) -> Result<Vec<&'a str>> {
    let mut parts = Vec::new(alloc);
    if !text.trim().is_empty() {
        for part in text.split(between) {
            parts.push(part.trim())?;
        }
    }
    Ok(parts)
}

pub fn part_at<'a>(parts: &[&'a str], place: usize) -> Result<&'a str> {
    parts.get(place).copied().context("no part")
}

pub fn number_at(parts: &[&str], place: usize) -> Result<u32> {
    Ok(part_at(parts, place)?.parse()?)
}

/// What is said, and how often: after a number and a `:` so often, else once.
pub fn counted(text: &str) -> Result<(u32, &str)> {
    match text.split_once(':') {
        Some((count, rest)) => Ok((count.trim().parse()?, rest.trim())),
        None => Ok((1, text)),
    }
}

//! What lexing, cutting and parsing make of a text in the short form of case_texts: tokens, items and their trees.

mod items;
mod tokens;
mod trees;

use anyhow::Result;
use case_texts::expanded;
use std::alloc::Global;

/// What is printed for a case, where its word is one of these.
pub fn answer(alloc: Global, word: &str, short: &str) -> Result<Option<String>> {
    match word {
        "tokens" | "items" | "sited" | "tree" => Ok(Some(said(alloc, word, short)?)),
        _ => Ok(None),
    }
}

fn said(alloc: Global, word: &str, short: &str) -> Result<String> {
    let text = expanded(alloc, short)?;
    let text = text.as_str();
    match word {
        "tokens" => tokens::tokens(alloc, text),
        "items" => items::items_of(alloc, text, false),
        "sited" => items::items_of(alloc, text, true),
        _ => items::has_tree(alloc, text),
    }
}

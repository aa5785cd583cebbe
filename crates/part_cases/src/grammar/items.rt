use super::tokens::tokens_of;
use super::trees::{Printer, put, write_item, write_name, write_place};
use anyhow::{Result, bail};
use px_lexer::TokenSlice;
use px_parser::{ItemFault, ParseFault, Span, function_name, items, parse};
use std::alloc::Global;

/// The items of a text, each with the name that a function-shaped item has and its tree, or its word and place.
pub fn items_of(alloc: Global, text: &str, sites: bool) -> Result<String> {
    let all = tokens_of(alloc, text)?;
    let tokens = all.as_slice();
    let mut out = Printer::new(alloc, sites);
    match items(alloc, tokens) {
        Ok(spans) => write_items(&mut out, alloc, text, tokens, &spans)?,
        Err(ItemFault::Unbalanced(site)) => {
            put(&mut out, "unbalanced");
            write_place(&mut out, site);
        }
        Err(ItemFault::NoMemory) => bail!("no memory"),
    }
    out.finish()
}

fn write_items(
    out: &mut Printer,
    alloc: Global,
    text: &str,
    tokens: TokenSlice,
    spans: &[Span],
) -> Result<()> {
    for span in spans {
        let (first, after) = (span.first as usize, span.after as usize);
        if first > after || after > tokens.len() {
            bail!("no tokens");
        }
        let item = tokens.range(first, after);
        if !out.text.is_empty() {
            put(out, " | ");
        }
        write_one(out, alloc, text, item)?;
    }
    Ok(())
}

fn write_one(out: &mut Printer, alloc: Global, text: &str, tokens: TokenSlice) -> Result<()> {
    if let Some(name) = function_name(alloc, text.as_bytes(), tokens)? {
        write_name(out, &name);
        put(out, ": ");
    }
    if tokens.is_empty() {
        bail!("an item without tokens");
    }
    match parse(alloc, text.as_bytes(), tokens) {
        Ok(item) => write_item(out, &item),
        Err(ParseFault::Outside { word, site }) => {
            write_name(out, &word);
            write_place(out, site);
        }
        Err(ParseFault::NoMemory) => bail!("no memory"),
    }
    Ok(())
}

/// Whether a text of one item has a tree.
pub fn has_tree(alloc: Global, text: &str) -> Result<String> {
    let all = tokens_of(alloc, text)?;
    let tokens = all.as_slice();
    if tokens.is_empty() {
        bail!("no tokens");
    }
    let word = match parse(alloc, text.as_bytes(), tokens) {
        Ok(_) => "yes",
        Err(ParseFault::Outside { .. }) => "no",
        Err(ParseFault::NoMemory) => bail!("no memory"),
    };
    Ok(String::from_str(alloc, word)?)
}

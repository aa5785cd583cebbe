use crate::bodies::write_statements;
use crate::declarations::write_declaration;
use crate::held::write_head;
use anyhow::{Context, Result};
use px_real_items::{External, FileItem, Unread};
use px_real_tokens::Token;
use std::fmt::Write;

// The items of a file, with `||` between.
pub fn write_items(
    items: &[FileItem],
    out: &mut String,
    text: &str,
    tokens: &[Token],
) -> Result<()> {
    let mut first = true;
    for item in items {
        if !first {
            write!(out, " || ")?;
        }
        first = false;
        let its = tokens
            .get(item.item.first as usize..item.item.after as usize)
            .context("an item beyond the tokens")?;
        write_item(item, out, text, its)?;
    }
    Ok(())
}

// A declaration, a function with its body, or that it isn't read.
fn write_item(item: &FileItem, out: &mut String, text: &str, tokens: &[Token]) -> Result<()> {
    match &item.read {
        Ok(External::Declaration(declaration)) => {
            write_declaration(declaration, out, text, tokens)?;
        }
        Ok(External::Function { head, start, body }) => {
            write_head(head, out, text, tokens)?;
            let behind = tokens.get(*start..).context("a body beyond the tokens")?;
            write!(out, " {{")?;
            write_statements(body, out, text, behind)?;
            write!(out, "}}")?;
        }
        Err(unread) => {
            write_unread(*unread, out)?;
            if item.item.is_function {
                write!(out, " function")?;
            }
        }
    }
    Ok(())
}

fn write_unread(unread: Unread, out: &mut String) -> Result<()> {
    match unread {
        Unread::Neither(_) => write!(out, "unread")?,
        Unread::Deep(_) => write!(out, "too deep")?,
    }
    Ok(())
}

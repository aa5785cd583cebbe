use anyhow::{Context, Result, bail};
use case_texts::MOST_BYTES;
use px_real_cutting::items;
use px_real_declaring::declaration_of;
use px_real_names::Names;
use px_real_symbols::TypeNames;
use px_real_tokens::Token;
use px_real_types::Texts;
use std::alloc::Global;
use std::fmt::Write;

// The names behind these items, each of which is a declaration with its semicolon.
fn names_behind(alloc: Global, text: &str, tokens: &[Token]) -> Result<Names> {
    if tokens.len() > MOST_BYTES {
        bail!("many tokens");
    }
    let mut names = Names::new(alloc);
    let Ok(items) = items(alloc, text.as_bytes(), tokens) else {
        bail!("no items");
    };
    for item in &items {
        let its = tokens
            .get(item.first as usize..item.after as usize)
            .context("no tokens")?;
        let (_, its) = its.split_last().context("no token")?;
        let Ok(declaration) = declaration_of(alloc, text.as_bytes(), its, &names) else {
            bail!("no declaration");
        };
        let on = Texts {
            source: text.as_bytes(),
            tokens: its,
        };
        if names.declare(alloc, on, &declaration).is_err() {
            bail!("no names");
        }
    }
    Ok(names)
}

// What the words behind `?` are, where the declarations before it are in scope.
pub fn known(alloc: Global, text: &str, tokens: &[Token], words: &str) -> Result<String> {
    let names = names_behind(alloc, text, tokens)?;
    let mut out = String::new(alloc);
    for word in words.split_whitespace() {
        if !out.is_empty() {
            write!(out, ", ")?;
        }
        let kind = if names.is_type(word.as_bytes()) {
            "type"
        } else {
            "other"
        };
        write!(out, "{word} {kind}")?;
    }
    Ok(out)
}

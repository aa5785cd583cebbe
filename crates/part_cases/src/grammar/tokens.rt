ghost use Rattle.std.specs.Prelude.{◌<◌, ◌^◌, length, IfOk};

use anyhow::{Context, Result, bail};
use case_texts::{FILE, MOST_BYTES, write_site};
use px_lexer::{LexFault, Token, TokenKind, Tokens, lex};
use std::alloc::Global;
use std::fmt::Write;

/// The tokens of a text, each with kind, line, column and spelling, or its first fault.
pub fn tokens(alloc: Global, text: &str) -> Result<String> {
    if text.len() > MOST_BYTES {
        bail!("a long text");
    }
    let mut out = String::new(alloc);
    match lex(alloc, text.as_bytes(), FILE) {
        Ok(tokens) => {
            let tokens = tokens.as_slice();
            for i in 0..tokens.len() {
                write_token(&mut out, text, tokens.at(i).token())?;
            }
        }
        Err(fault) => write_fault(&mut out, fault)?,
    }
    Ok(out)
}

fn write_token(out: &mut String, text: &str, token: Token) -> Result<()> {
    if !out.is_empty() {
        write!(out, ", ")?;
    }
    match token.kind {
        TokenKind::Punctuator(punctuator) => write!(out, "{punctuator:?}")?,
        kind => write!(out, "{kind:?}")?,
    }
    let spelled = text
        .get(token.start as usize..token.end as usize)
        .context("no text")?;
    write_site(out, token.site)?;
    write!(out, " {spelled}")?;
    Ok(())
}

fn write_fault(out: &mut String, fault: LexFault) -> Result<()> {
    let (word, site) = match fault {
        LexFault::Byte(site) => ("Byte", site),
        LexFault::Comment(site) => ("Comment", site),
        LexFault::Constant(site) => ("Constant", site),
        LexFault::NoMemory => bail!("no memory"),
    };
    write!(out, "fault {word}")?;
    write_site(out, site)
}

/// The tokens of a text, which is no longer than a file may be.
pub fn tokens_of(alloc: Global, text: &str) -> Result<Tokens>
    ensures { IfOk result (λ tokens. length tokens < 2 ^ 32) }
{
    if text.len() > MOST_BYTES {
        bail!("a long text");
    }
    let tokens = lex(alloc, text.as_bytes(), FILE)?;
    if tokens.as_slice().len() > MOST_BYTES {
        bail!("many tokens");
    }
    Ok(tokens)
}

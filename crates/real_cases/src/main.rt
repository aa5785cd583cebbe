//! Reads cases of the reading of real C, one a line, and prints what its calls make of each. What it prints must be its `stdout`.
//!
//! A line is one of the words `tokens`, `items`, `expression`, `read`, `body`, `declaration`, `member`, `parameter`, `members`, `enumerators`, `parameters`, `head`, `names`, `file`, `types`, `cells`, `kept`, `fates`
//! and `callee`, and a text in the short form of case_texts. In expressions and declarations the words `T`, `list` and `size_t` are names of types; `read` says only whether there is an
//! expression. `types` says what the profile sees of the types of a declaration, `cells` of those of members, and `kept` of that of a parameter; `names` says of the words
//! behind a `?` whether they are names of types behind the declarations before it; `file` reads the items of a whole file; `fates` and `callee` are of the
//! functions of files, which a line spells in a form of its own (src/links.rt).
#![tactic(auto)]

mod bodies;
mod declarations;
mod files;
mod held;
mod links;
mod scopes;
mod shapes;
mod trees;
mod types;

use anyhow::{Context, Result, bail};
use bodies::write_statements;
use case_texts::{FILE, MOST_BYTES, answer_each, expanded, write_site};
use declarations::write_declaration;
use files::write_items;
use held::{write_all, write_enumerators, write_head, write_parameters};
use links::{callee, fates};
use px_real_blocks::{BodyFault, body_of};
use px_real_cutting::{ItemFault, items};
use px_real_declaring::{Declaration, DeclarationFault, declaration_of, member_of, parameter_of};
use px_real_items::file_items;
use px_real_members::{enumerators_of, head_of, members_of, parameters_of};
use px_real_reading::{ExpressionFault, expression_of};
use px_real_tokens::{LexFault, Token, TokenKind, lex};
use scopes::known;
use shapes::{write_layout, write_parameter, write_seen};
use std::alloc::Global;
use std::fmt::Write;
use trees::write_tree;
use types::SomeTypes;

fn main(rt: HostRuntime) -> Result<()> {
    answer_each(&rt, rt.alloc(), |case| Ok(Some(answer(rt.alloc(), case)?)))
}

// What is printed for a case.
fn answer(alloc: Global, case: &str) -> Result<String> {
    let (word, short) = case.split_once(' ').unwrap_or((case, ""));
    let text = expanded(alloc, short)?;
    match word {
        "tokens" => tokens(alloc, &text),
        "items" => cut(alloc, &text),
        "expression" => parsed(alloc, &text, true),
        "read" => parsed(alloc, &text, false),
        "body" => body(alloc, &text),
        "declaration" => declared(alloc, &text, Declares::Plain, false),
        "member" => declared(alloc, &text, Declares::Members, false),
        "parameter" => declared(alloc, &text, Declares::Parameter, false),
        "members" => members(alloc, &text),
        "enumerators" => enumerators(alloc, &text),
        "parameters" => parameters(alloc, &text),
        "head" => head(alloc, &text),
        "names" => names(alloc, &text),
        "file" => file(alloc, &text),
        "fates" => fates(alloc, &text),
        "callee" => callee(alloc, &text),
        "types" => declared(alloc, &text, Declares::Plain, true),
        "cells" => declared(alloc, &text, Declares::Members, true),
        "kept" => declared(alloc, &text, Declares::Parameter, true),
        _ => bail!("no word {word:?}"),
    }
}

// The tokens of a text, each with its kind, its place and what spells it; or the fault.
fn tokens(alloc: Global, text: &str) -> Result<String> {
    if text.len() > MOST_BYTES {
        bail!("a long text");
    }
    let mut out = String::new(alloc);
    match lex(alloc, text.as_bytes(), FILE) {
        Ok(tokens) => {
            for token in &tokens {
                write_token(&mut out, text, *token)?;
            }
        }
        Err(fault) => write_fault(&mut out, fault)?,
    }
    Ok(out)
}

// The items of a text, each with its own text; or the fault.
fn cut(alloc: Global, text: &str) -> Result<String> {
    if text.len() > MOST_BYTES {
        bail!("a long text");
    }
    let mut out = String::new(alloc);
    let Ok(tokens) = lex(alloc, text.as_bytes(), FILE) else {
        bail!("no tokens");
    };
    if tokens.len() > MOST_BYTES {
        bail!("many tokens");
    }
    match items(alloc, text.as_bytes(), &tokens) {
        Ok(items) => {
            for item in &items {
                if !out.is_empty() {
                    write!(out, " | ")?;
                }
                if item.is_function {
                    write!(out, "function: ")?;
                }
                let Some(its) = tokens.get(item.first as usize..item.after as usize) else {
                    bail!("an item beyond the tokens");
                };
                write_between(&mut out, text, its)?;
            }
        }
        Err(ItemFault::Unbalanced(site)) => {
            write!(out, "unbalanced")?;
            write_site(&mut out, site)?;
        }
        Err(ItemFault::NoMemory) => bail!("no memory"),
    }
    Ok(out)
}

// The expression that a text is, or that it is one; or the fault.
fn parsed(alloc: Global, text: &str, whole: bool) -> Result<String> {
    if text.len() > MOST_BYTES {
        bail!("a long text");
    }
    let mut out = String::new(alloc);
    let Ok(tokens) = lex(alloc, text.as_bytes(), FILE) else {
        bail!("no tokens");
    };
    match expression_of(alloc, text.as_bytes(), &tokens, &SomeTypes) {
        Ok(tree) => {
            if whole {
                write_tree(&tree, &mut out, text, &tokens)?;
            } else {
                write!(out, "an expression")?;
            }
        }
        Err(ExpressionFault::NotAnExpression(at)) => {
            write!(out, "not an expression")?;
            write_place(&mut out, &tokens, at)?;
        }
        Err(ExpressionFault::Deep(at)) => {
            write!(out, "too deep")?;
            write_place(&mut out, &tokens, at)?;
        }
        Err(ExpressionFault::NoMemory) => bail!("no memory"),
    }
    Ok(out)
}

// The statements of the body of a function that a text is; or that it is none.
fn body(alloc: Global, text: &str) -> Result<String> {
    if text.len() > MOST_BYTES {
        bail!("a long text");
    }
    let mut out = String::new(alloc);
    let Ok(tokens) = lex(alloc, text.as_bytes(), FILE) else {
        bail!("no tokens");
    };
    match body_of(alloc, text.as_bytes(), &tokens) {
        Ok(statements) => write_statements(&statements, &mut out, text, &tokens)?,
        Err(BodyFault::NotBraced) => write!(out, "no body")?,
        Err(BodyFault::NoMemory) => bail!("no memory"),
    }
    Ok(out)
}

// Where a declaration stands.
#[derive(Clone, Copy)]
enum Declares {
    Plain,
    Members,
    Parameter,
}

// The types that a declaration says.
fn write_types(
    alloc: Global,
    out: &mut String,
    tree: Declaration,
    text: &str,
    tokens: &[Token],
    declares: Declares,
) -> Result<()> {
    match declares {
        Declares::Plain => write_seen(out, &tree, text, tokens),
        Declares::Members => {
            let mut members = Vec::new(alloc);
            members.push(tree)?;
            write_layout(alloc, out, &members, text, tokens)
        }
        Declares::Parameter => write_parameter(out, &tree, text, tokens),
    }
}

// The declaration that a text is, or the types that it says; or the fault.
fn declared(alloc: Global, text: &str, declares: Declares, seen: bool) -> Result<String> {
    let tokens = tokens_of(alloc, text)?;
    let mut out = String::new(alloc);
    let bytes = text.as_bytes();
    let read = match declares {
        Declares::Plain => declaration_of(alloc, bytes, &tokens, &SomeTypes),
        Declares::Members => member_of(alloc, bytes, &tokens, &SomeTypes),
        Declares::Parameter => parameter_of(alloc, bytes, &tokens, &SomeTypes),
    };
    match read {
        Ok(tree) => {
            if seen {
                write_types(alloc, &mut out, tree, text, &tokens, declares)?;
            } else {
                write_declaration(&tree, &mut out, text, &tokens)?;
            }
        }
        Err(fault) => write_declaration_fault(&mut out, &tokens, fault)?,
    }
    Ok(out)
}

// Why tokens aren't read, and where that was found.
fn write_declaration_fault(
    out: &mut String,
    tokens: &[Token],
    fault: DeclarationFault,
) -> Result<()> {
    match fault {
        DeclarationFault::NotADeclaration(at) => {
            write!(out, "not a declaration")?;
            write_place(out, tokens, at)
        }
        DeclarationFault::Deep(at) => {
            write!(out, "too deep")?;
            write_place(out, tokens, at)
        }
        DeclarationFault::NoMemory => bail!("no memory"),
    }
}

// The tokens of a text, which must have some reading.
fn tokens_of(alloc: Global, text: &str) -> Result<Vec<Token>> {
    if text.len() > MOST_BYTES {
        bail!("a long text");
    }
    let Ok(tokens) = lex(alloc, text.as_bytes(), FILE) else {
        bail!("no tokens");
    };
    Ok(tokens)
}

// The members that a text is, or the fault.
fn members(alloc: Global, text: &str) -> Result<String> {
    let tokens = tokens_of(alloc, text)?;
    let mut out = String::new(alloc);
    match members_of(alloc, text.as_bytes(), &tokens, &SomeTypes) {
        Ok(members) => write_all(&members, &mut out, text, &tokens)?,
        Err(fault) => write_declaration_fault(&mut out, &tokens, fault)?,
    }
    Ok(out)
}

// The enumerators that a text is, or the fault.
fn enumerators(alloc: Global, text: &str) -> Result<String> {
    let tokens = tokens_of(alloc, text)?;
    let mut out = String::new(alloc);
    match enumerators_of(alloc, text.as_bytes(), &tokens) {
        Ok(enumerators) => write_enumerators(&enumerators, &mut out, text, &tokens)?,
        Err(fault) => write_declaration_fault(&mut out, &tokens, fault)?,
    }
    Ok(out)
}

// The parameters that a text is, or the fault.
fn parameters(alloc: Global, text: &str) -> Result<String> {
    let tokens = tokens_of(alloc, text)?;
    let mut out = String::new(alloc);
    match parameters_of(alloc, text.as_bytes(), &tokens, &SomeTypes) {
        Ok(parameters) => write_parameters(&parameters, &mut out, text, &tokens)?,
        Err(fault) => write_declaration_fault(&mut out, &tokens, fault)?,
    }
    Ok(out)
}

// Which of the words behind a `?` are names of types.
fn names(alloc: Global, text: &str) -> Result<String> {
    let (declarations, words) = text.split_once('?').context("no words")?;
    let tokens = tokens_of(alloc, declarations)?;
    known(alloc, declarations, &tokens, words)
}

// The items of a file that a text is, or the fault.
fn file(alloc: Global, text: &str) -> Result<String> {
    let tokens = tokens_of(alloc, text)?;
    if tokens.len() > MOST_BYTES {
        bail!("many tokens");
    }
    let mut out = String::new(alloc);
    match file_items(alloc, text.as_bytes(), &tokens) {
        Ok((items, _names)) => write_items(&items, &mut out, text, &tokens)?,
        Err(ItemFault::Unbalanced(site)) => {
            write!(out, "unbalanced")?;
            write_site(&mut out, site)?;
        }
        Err(ItemFault::NoMemory) => bail!("no memory"),
    }
    Ok(out)
}

// The head of a function that a text is, or the fault.
fn head(alloc: Global, text: &str) -> Result<String> {
    let tokens = tokens_of(alloc, text)?;
    let mut out = String::new(alloc);
    match head_of(alloc, text.as_bytes(), &tokens, &SomeTypes) {
        Ok(head) => write_head(&head, &mut out, text, &tokens)?,
        Err(fault) => write_declaration_fault(&mut out, &tokens, fault)?,
    }
    Ok(out)
}

// The place of the token with this number, or that it is the end.
fn write_place(out: &mut String, tokens: &[Token], at: usize) -> Result<()> {
    match tokens.get(at) {
        Some(token) => write_site(out, token.site)?,
        None => write!(out, " at the end")?,
    }
    Ok(())
}

// The text from the first token to the last.
fn write_between(out: &mut String, text: &str, tokens: &[Token]) -> Result<()> {
    let first = tokens.first().context("no token")?;
    let last = tokens.last().context("no token")?;
    let spelled = text
        .get(first.start as usize..last.end as usize)
        .context("no text")?;
    write!(out, "{spelled}")?;
    Ok(())
}

fn write_token(out: &mut String, text: &str, token: Token) -> Result<()> {
    if !out.is_empty() {
        write!(out, ", ")?;
    }
    match token.kind {
        TokenKind::Punctuator(punctuator) => write!(out, "{punctuator:?}")?,
        TokenKind::Number(Some(value)) => write!(out, "Number={value}")?,
        TokenKind::Number(None) => write!(out, "Number")?,
        TokenKind::Character(Some(value)) => write!(out, "Character={value}")?,
        TokenKind::Character(None) => write!(out, "Character")?,
        kind => write!(out, "{kind:?}")?,
    }
    let spelled = text
        .get(token.start as usize..token.end as usize)
        .context("no text")?;
    write_site(out, token.site)?;
    write!(out, " {spelled}")?;
    Ok(())
}

fn write_fault(out: &mut String, fault: LexFault) -> Result<()> {
    let (word, site) = match fault {
        LexFault::Byte(site) => ("Byte", site),
        LexFault::Comment(site) => ("Comment", site),
        LexFault::NotPreprocessed(site) => ("NotPreprocessed", site),
        LexFault::NoMemory => bail!("no memory"),
    };
    write!(out, "fault {word}")?;
    write_site(out, site)
}

use crate::trees::{write_held, write_name};
use anyhow::Result;
use px_real_blocks::{Label, Statement};
use px_real_tokens::Token;
use std::fmt::Write;

// Statements of a text, one after the other.
#[cycle(statement)]
pub fn write_statements(
    statements: &[Statement],
    out: &mut String,
    text: &str,
    tokens: &[Token],
) -> Result<()> {
    let mut first = true;
    for statement in statements {
        if !first {
            write!(out, " ")?;
        }
        first = false;
        write_statement(statement, out, text, tokens)?;
    }
    Ok(())
}

// A statement: what it is, and its parts; what is held stands between `<` and `>`.
#[cycle(statement)]
fn write_statement(
    statement: &Statement,
    out: &mut String,
    text: &str,
    tokens: &[Token],
) -> Result<()> {
    match statement {
        Statement::Block { statements } => {
            write!(out, "{{")?;
            write_statements(statements, out, text, tokens)?;
            write!(out, "}}")?;
        }
        Statement::If {
            condition,
            then,
            ..
        } => {
            write!(out, "if")?;
            write_held(out, text, tokens, *condition)?;
            write!(out, "(")?;
            write_statement(then, out, text, tokens)?;
            write!(out, ")")?;
        }
        Statement::IfElse {
            condition,
            then,
            other,
            ..
        } => {
            write!(out, "if")?;
            write_held(out, text, tokens, *condition)?;
            write!(out, "(")?;
            write_statement(then, out, text, tokens)?;
            write!(out, ")else(")?;
            write_statement(other, out, text, tokens)?;
            write!(out, ")")?;
        }
        Statement::Switch { value, body, .. } => {
            write!(out, "switch")?;
            write_held(out, text, tokens, *value)?;
            write!(out, "(")?;
            write_statement(body, out, text, tokens)?;
            write!(out, ")")?;
        }
        Statement::While {
            condition,
            body,
            ..
        } => {
            write!(out, "while")?;
            write_held(out, text, tokens, *condition)?;
            write!(out, "(")?;
            write_statement(body, out, text, tokens)?;
            write!(out, ")")?;
        }
        Statement::Do {
            body,
            condition,
            ..
        } => {
            write!(out, "do(")?;
            write_statement(body, out, text, tokens)?;
            write!(out, ")")?;
            write_held(out, text, tokens, *condition)?;
        }
        Statement::For {
            first,
            condition,
            step,
            body,
            ..
        } => {
            write!(out, "for")?;
            write_held(out, text, tokens, *first)?;
            write_held(out, text, tokens, *condition)?;
            write_held(out, text, tokens, *step)?;
            write!(out, "(")?;
            write_statement(body, out, text, tokens)?;
            write!(out, ")")?;
        }
        Statement::Labelled { labels, statement } => {
            for label in labels {
                write_label(label, out, text, tokens)?;
            }
            write_statement(statement, out, text, tokens)?;
        }
        leaf => return write_leaf(leaf, out, text, tokens),
    }
    Ok(())
}

// A label and its colon.
fn write_label(label: &Label, out: &mut String, text: &str, tokens: &[Token]) -> Result<()> {
    match label {
        Label::Named { name, .. } => write_name(out, name)?,
        Label::Case { value, .. } => {
            write!(out, "case")?;
            write_held(out, text, tokens, *value)?;
        }
        Label::Default { .. } => write!(out, "default")?,
    }
    write!(out, ":")?;
    Ok(())
}

// A statement with no other in it.
fn write_leaf(leaf: &Statement, out: &mut String, text: &str, tokens: &[Token]) -> Result<()> {
    match leaf {
        Statement::Empty => write!(out, ";")?,
        Statement::Simple { tokens: held } => write_held(out, text, tokens, *held)?,
        Statement::Goto { target, .. } => {
            write!(out, "goto")?;
            write_held(out, text, tokens, *target)?;
        }
        Statement::Break { .. } => write!(out, "break")?,
        Statement::Continue { .. } => write!(out, "continue")?,
        Statement::Return { value, .. } => {
            write!(out, "return")?;
            write_held(out, text, tokens, *value)?;
        }
        Statement::Unread { tokens: held } => {
            write!(out, "unread")?;
            write_held(out, text, tokens, *held)?;
        }
        _ => {}
    }
    Ok(())
}

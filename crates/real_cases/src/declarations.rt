use crate::trees::{write_held, write_name};
use anyhow::Result;
use px_real_declaring::{Declaration, Declarator, Declared, Group, Specifier, Suffix};
use px_real_tokens::Token;
use std::fmt::Write;

// A declaration of a text: its specifiers, and what it declares, or how an assertion stands. What is held stands between `<` and `>`.
pub fn write_declaration(
    tree: &Declaration,
    out: &mut String,
    text: &str,
    tokens: &[Token],
) -> Result<()> {
    match tree {
        Declaration::Declaration {
            specifiers,
            declared,
        } => {
            write_specifiers(specifiers, out, text, tokens)?;
            write!(out, ";")?;
            let mut first = true;
            for each in declared {
                if !first {
                    write!(out, ",")?;
                }
                first = false;
                write!(out, " ")?;
                write_declared(each, out, text, tokens)?;
            }
        }
        Declaration::Assertion(group) => write_group(group, out, text, tokens)?,
    }
    Ok(())
}

// Specifiers with blanks between.
pub fn write_specifiers(
    specifiers: &[Specifier],
    out: &mut String,
    text: &str,
    tokens: &[Token],
) -> Result<()> {
    let mut first = true;
    for specifier in specifiers {
        if !first {
            write!(out, " ")?;
        }
        first = false;
        write_specifier(specifier, out, text, tokens)?;
    }
    Ok(())
}

fn write_specifier(
    specifier: &Specifier,
    out: &mut String,
    text: &str,
    tokens: &[Token],
) -> Result<()> {
    match specifier {
        Specifier::Keyword { word, .. } => write_name(out, word)?,
        Specifier::TypeName { name, .. } => {
            write!(out, "type ")?;
            write_name(out, name)?;
        }
        Specifier::Group(group) => write_group(group, out, text, tokens)?,
        Specifier::Tagged {
            word,
            attributes,
            tag,
            held,
            ..
        } => {
            write_name(out, word)?;
            write_groups(attributes, out, text, tokens)?;
            if let Some(tag) = tag {
                write!(out, " ")?;
                write_name(out, tag)?;
            }
            if let Some(held) = held {
                write_held(out, text, tokens, *held)?;
            }
        }
    }
    Ok(())
}

// A keyword and what stands in its parentheses.
pub fn write_group(group: &Group, out: &mut String, text: &str, tokens: &[Token]) -> Result<()> {
    write_name(out, &group.word)?;
    write_held(out, text, tokens, group.held)
}

// Attributes, each with a blank before it.
fn write_groups(groups: &[Group], out: &mut String, text: &str, tokens: &[Token]) -> Result<()> {
    for group in groups {
        write!(out, " ")?;
        write_group(group, out, text, tokens)?;
    }
    Ok(())
}

fn write_declared(
    declared: &Declared,
    out: &mut String,
    text: &str,
    tokens: &[Token],
) -> Result<()> {
    for group in &declared.before {
        write_group(group, out, text, tokens)?;
        write!(out, " ")?;
    }
    write_declarator(&declared.declarator, out, text, tokens)?;
    if let Some(label) = &declared.label {
        write!(out, " ")?;
        write_group(label, out, text, tokens)?;
    }
    write_groups(&declared.after, out, text, tokens)?;
    if let Some(value) = declared.value {
        write!(out, " = ")?;
        write_held(out, text, tokens, value)?;
    }
    Ok(())
}

// A declarator: a name, or `-` where it is missing; what stands behind a star in parentheses after it.
#[cycle(declarator)]
pub fn write_declarator(
    declarator: &Declarator,
    out: &mut String,
    text: &str,
    tokens: &[Token],
) -> Result<()> {
    match declarator {
        Declarator::NoName => write!(out, "-")?,
        Declarator::Name { name, .. } => write_name(out, name)?,
        Declarator::Inner {
            attributes,
            inner,
            ..
        } => {
            write!(out, "(")?;
            for group in attributes {
                write_group(group, out, text, tokens)?;
                write!(out, " ")?;
            }
            write_declarator(inner, out, text, tokens)?;
            write!(out, ")")?;
        }
        Declarator::Pointer {
            qualifiers,
            target,
            ..
        } => {
            write!(out, "*(")?;
            for qualifier in qualifiers {
                write_specifier(qualifier, out, text, tokens)?;
                write!(out, " ")?;
            }
            write_declarator(target, out, text, tokens)?;
            write!(out, ")")?;
        }
        Declarator::Suffixed { core, suffixes } => {
            write_declarator(core, out, text, tokens)?;
            for suffix in suffixes {
                write_suffix(*suffix, out, text, tokens)?;
            }
        }
    }
    Ok(())
}

fn write_suffix(suffix: Suffix, out: &mut String, text: &str, tokens: &[Token]) -> Result<()> {
    match suffix {
        Suffix::Array { held, .. } => {
            write!(out, "[")?;
            write_held(out, text, tokens, held)?;
            write!(out, "]")?;
        }
        Suffix::Function { held, .. } => {
            write!(out, "(")?;
            write_held(out, text, tokens, held)?;
            write!(out, ")")?;
        }
    }
    Ok(())
}

use crate::declarations::{write_declaration, write_declarator, write_group, write_specifiers};
use crate::trees::{write_held, write_name};
use anyhow::Result;
use px_real_declaring::Declaration;
use px_real_members::{Enumerator, Head, Parameters};
use px_real_tokens::Token;
use std::fmt::Write;

// Declarations of a text, with `|` between.
pub fn write_all(
    declarations: &[Declaration],
    out: &mut String,
    text: &str,
    tokens: &[Token],
) -> Result<()> {
    let mut first = true;
    for declaration in declarations {
        if !first {
            write!(out, " | ")?;
        }
        first = false;
        write_declaration(declaration, out, text, tokens)?;
    }
    Ok(())
}

// Enumerators of a text, each with what it has.
pub fn write_enumerators(
    enumerators: &[Enumerator],
    out: &mut String,
    text: &str,
    tokens: &[Token],
) -> Result<()> {
    let mut first = true;
    for enumerator in enumerators {
        if !first {
            write!(out, ", ")?;
        }
        first = false;
        write_name(out, &enumerator.name)?;
        for group in &enumerator.attributes {
            write!(out, " ")?;
            write_group(group, out, text, tokens)?;
        }
        if let Some(value) = enumerator.value {
            write!(out, " = ")?;
            write_held(out, text, tokens, value)?;
        }
    }
    Ok(())
}

// Parameters of a text, or its names.
pub fn write_parameters(
    parameters: &Parameters,
    out: &mut String,
    text: &str,
    tokens: &[Token],
) -> Result<()> {
    match parameters {
        Parameters::Declared {
            parameters,
            variadic,
        } => {
            write_all(parameters, out, text, tokens)?;
            if *variadic {
                write!(out, " | ...")?;
            }
        }
        Parameters::Names(names) => {
            write!(out, "names")?;
            for name in names {
                write!(out, " ")?;
                write_name(out, name)?;
            }
        }
    }
    Ok(())
}

// The head of a function: specifiers, the declarator, and the declarations of an old-style definition.
pub fn write_head(head: &Head, out: &mut String, text: &str, tokens: &[Token]) -> Result<()> {
    write_specifiers(&head.specifiers, out, text, tokens)?;
    write!(out, "; ")?;
    write_declarator(&head.declarator, out, text, tokens)?;
    for declaration in &head.declarations {
        write!(out, " | ")?;
        write_declaration(declaration, out, text, tokens)?;
    }
    Ok(())
}

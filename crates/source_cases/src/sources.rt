use anyhow::{Result, bail};
use case_texts::{FILE, MOST_BYTES, write_site};
use px_base::Site;
use px_reading::{ReadFault, SourceFault, read_file};
use px_syntax::{Item, Name, ParsedItem};
use std::alloc::Global;
use std::fmt::Write;
use std::str;

/// The items of a source, or its first fault. A struct has its number of field declarations, a function that of
/// its parameters and, with a body, of its statements. An item without a tree has its function's name, or `-`,
/// the place, and the word of its refusal.
pub fn source(alloc: Global, text: &str) -> Result<String> {
    if text.len() > MOST_BYTES {
        bail!("a long text");
    }
    let mut out = String::new(alloc);
    match read_file(alloc, FILE, b"t.c", text.as_bytes()) {
        Ok(file) => {
            if file.name.as_slice() != b"t.c".as_slice() {
                bail!("another name");
            }
            for item in file.items.as_slice() {
                if !out.is_empty() {
                    out.push_str(", ")?;
                }
                write_item(&mut out, item)?;
            }
        }
        Err(ReadFault::Refused(fault)) => write_fault(&mut out, fault)?,
        Err(ReadFault::NoMemory) => bail!("no memory"),
    }
    Ok(out)
}

pub fn write_name(out: &mut String, name: &Name) -> Result<()> {
    out.push_str(str::from_utf8(name.as_slice())?)?;
    Ok(())
}

// What the item is, its place and its name.
fn write_head(out: &mut String, kind: &str, site: Site, name: &Name) -> Result<()> {
    out.push_str(kind)?;
    write_site(out, site)?;
    out.push_str(" ")?;
    write_name(out, name)
}

fn write_tree(out: &mut String, item: &Item) -> Result<()> {
    match item {
        Item::Struct { site, name, fields } => {
            write_head(out, "Struct", *site, name)?;
            write!(out, " {{{}}}", fields.len())?;
        }
        Item::Declared { site, name } => write_head(out, "Declared", *site, name)?,
        Item::Prototype {
            site,
            name,
            parameters,
            ..
        } => {
            write_head(out, "Prototype", *site, name)?;
            write!(out, "({})", parameters.len())?;
        }
        Item::Function {
            site,
            name,
            parameters,
            body,
            ..
        } => {
            write_head(out, "Function", *site, name)?;
            write!(out, "({}) {{{}}}", parameters.len(), body.len())?;
        }
    }
    Ok(())
}

fn write_item(out: &mut String, item: &ParsedItem) -> Result<()> {
    match item {
        ParsedItem::Parsed(item) => write_tree(out, item),
        ParsedItem::Out { name, site, word } => {
            out.push_str("out ")?;
            match name {
                Some(name) => write_name(out, name)?,
                None => out.push_str("-")?,
            }
            write_site(out, *site)?;
            out.push_str(" ")?;
            write_name(out, word)
        }
    }
}

fn write_fault(out: &mut String, fault: SourceFault) -> Result<()> {
    let (word, site) = match fault {
        SourceFault::Byte(site) => ("Byte", site),
        SourceFault::Comment(site) => ("Comment", site),
        SourceFault::Constant(site) => ("Constant", site),
        SourceFault::Unbalanced(site) => ("Unbalanced", site),
    };
    write!(out, "fault {word}")?;
    write_site(out, site)
}

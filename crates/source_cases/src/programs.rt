use crate::sources::write_name;
use anyhow::{Result, bail};
use case_texts::{BETWEEN, MOST_BYTES};
use px_reading::read_file;
use px_syntax::{Left, Program};
use px_terms::{BlockType, Items, ValueType};
use px_typing::{ProgramFault, program};
use std::alloc::Global;
use std::fmt::Write;

/// The program of the files with these texts, in order.
pub fn typed(alloc: Global, texts: &[&str]) -> Result<Result<Program, ProgramFault>> {
    let mut files = Items::new(alloc);
    let mut number = 0u32;
    for text in texts {
        if text.len() > MOST_BYTES {
            bail!("a long text");
        }
        let Ok(file) = read_file(alloc, number, b"a.c", text.as_bytes()) else {
            bail!("no file");
        };
        files.push(file)?;
        number = number.saturating_add(1);
    }
    Ok(program(alloc, files))
}

/// The names of a program, the numbers of its kept functions, how many block types it has, and the items that
/// are left out: the number of each one's name, its file and line, and the word. Each part of the text is a file.
pub fn program_of(alloc: Global, text: &str) -> Result<String> {
    let mut texts = Vec::new(alloc);
    if !text.is_empty() {
        for part in text.split(BETWEEN) {
            texts.push(part)?;
        }
    }
    let typed = typed(alloc, &texts)??;
    if typed.procedures.len() != typed.kept as usize || typed.files.len() != texts.len() {
        bail!("other numbers");
    }
    let mut out = String::new(alloc);
    out.push_str("names")?;
    for name in typed.names.as_slice() {
        out.push_str(" ")?;
        write_name(&mut out, name)?;
    }
    out.push_str(", kept")?;
    for procedure in typed.procedures.as_slice() {
        write!(out, " {}", procedure.proc.0)?;
    }
    write!(out, ", types {}", typed.types.len())?;
    for left in typed.left.as_slice() {
        write_left(&mut out, left)?;
    }
    Ok(out)
}

fn write_left(out: &mut String, left: &Left) -> Result<()> {
    out.push_str(", left ")?;
    match left.proc {
        Some(proc) => write!(out, "{}", proc.0)?,
        None => out.push_str("-")?,
    }
    write!(out, " {}:{} ", left.site.file, left.site.line)?;
    write_name(out, &left.word)
}

/// What the blocks of a program hold.
pub fn blocks(alloc: Global, text: &str) -> Result<String> {
    let typed = typed(alloc, &[text])??;
    let mut out = String::new(alloc);
    for block in typed.types.as_slice() {
        if !out.is_empty() {
            out.push_str(", ")?;
        }
        match block {
            BlockType::One(value) => write_value(&mut out, *value)?,
            BlockType::Fields(fields) => {
                out.push_str("fields")?;
                for field in fields.as_slice() {
                    out.push_str(" ")?;
                    write_value(&mut out, *field)?;
                }
            }
            BlockType::Opaque => out.push_str("opaque")?,
        }
    }
    Ok(out)
}

fn write_value(out: &mut String, value: ValueType) -> Result<()> {
    match value {
        ValueType::Int => out.push_str("int")?,
        ValueType::Pointer(to) => write!(out, "*{}", to.0)?,
    }
    Ok(())
}

/// How many functions are kept of so many, or the number with which they are refused.
pub fn functions(alloc: Global, text: &str) -> Result<String> {
    let mut source = String::new(alloc);
    write_functions(&mut source, text.parse()?)?;
    match typed(alloc, &[source.as_str()])? {
        Ok(typed) => Ok(format!(in alloc; "kept {}", typed.kept)?),
        Err(ProgramFault::Procedures(count)) => Ok(format!(in alloc; "refused {count}")?),
        Err(ProgramFault::NoMemory) => bail!("no memory"),
    }
}

/// So many functions, each with a name of its own and an empty body.
pub fn write_functions(out: &mut String, count: u32) -> Result<()> {
    for number in 0..count {
        write!(out, "void f{number}(void){{}}\n")?;
    }
    Ok(())
}

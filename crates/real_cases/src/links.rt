use anyhow::{Context, Result};
use px_real_links::{Callee, Definition, Fate, FileLinks, callee_of, fate_of};
use px_syntax::Name;
use std::alloc::Global;
use std::fmt::Write;

// A file: its items with blanks between, `static f`, `unread f` and `weak f` as `s:f`, `u:f` and `w:f`.
fn file_of(alloc: Global, text: &str) -> Result<FileLinks> {
    let mut definitions = Vec::new(alloc);
    let mut weak = Vec::new(alloc);
    for word in text.split_whitespace() {
        let (kind, spelled) = word.split_once(':').unwrap_or(("", word));
        let name = Name::from_slice(alloc, spelled.as_bytes())?;
        if kind == "w" {
            weak.push(name)?;
            continue;
        }
        definitions.push(Definition {
            name,
            is_static: kind == "s",
            is_read: kind != "u",
        })?;
    }
    Ok(FileLinks { definitions, weak })
}

fn files_of(alloc: Global, text: &str) -> Result<Vec<FileLinks>> {
    let mut files = Vec::new(alloc);
    for file in text.split('|') {
        files.push(file_of(alloc, file)?)?;
    }
    Ok(files)
}

// What becomes of each item of files that stand between `|`.
pub fn fates(alloc: Global, text: &str) -> Result<String> {
    let mut out = String::new(alloc);
    let files = files_of(alloc, text)?;
    let mut first = true;
    for file in &files {
        if !first {
            let blank = if out.is_empty() { "" } else { " " };
            write!(out, "{blank}|")?;
        }
        for number in 0..file.definitions.len() {
            let fate = fate_of(file, number).context("no item")?;
            if !out.is_empty() {
                write!(out, " ")?;
            }
            let word = match fate {
                Fate::Kept => "kept",
                Fate::Form => "form",
                Fate::Weak => "weak",
                Fate::Duplicate => "duplicate",
            };
            write!(out, "{word}")?;
        }
        first = false;
    }
    Ok(out)
}

// What a call goes to: behind `;` stand the number of the file that calls, and the name.
pub fn callee(alloc: Global, text: &str) -> Result<String> {
    let mut out = String::new(alloc);
    let (files, call) = text.split_once(';').context("no call")?;
    let files = files_of(alloc, files)?;
    let (number, name) = call.trim().split_once(' ').context("no name")?;
    match callee_of(&files, number.parse::<usize>()?, name.as_bytes()) {
        Callee::Function { file, number } => write!(out, "file {file} item {number}")?,
        Callee::LeftOut => write!(out, "left out")?,
        Callee::Unknown => write!(out, "unknown")?,
    }
    Ok(out)
}

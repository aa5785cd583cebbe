//! What no clause says of the edges: limits, a reader that fails, streams and sinks that take little, the words of a system,
//! and files in memory and in a folder.

mod files;
mod readers;
mod sinks;
mod systems;

use anyhow::{Context, Result};
use px_base::Limits;
use px_io::HostFiles;
use std::alloc::Global;
use std::env::Env;
use std::rt::Files;

/// What is printed for a case, where its word is one of these.
pub fn answer<R: Env + Files + AllocGlobal + Drop>(
    rt: &R,
    alloc: Global,
    host: &mut HostFiles<R>,
    word: &str,
    rest: &str,
) -> Result<Option<String>> {
    Ok(match word {
        "limits" => Some(limits_case(alloc, rest)?),
        "reader" => Some(readers::reader_case(alloc, rest)?),
        "stream" => Some(sinks::stream_case(alloc, rest)?),
        "sink" => Some(sinks::sink_case(alloc, rest)?),
        "system" => Some(systems::system_case(alloc, rest)?),
        "files" => Some(files::files_case(alloc, rest)?),
        "folder" => Some(files::folder_case(rt, alloc, host, rest)?),
        _ => None,
    })
}

// Numbers with a blank between them.
fn numbers(alloc: Global, text: &str) -> Result<Vec<u64>> {
    let mut numbers = Vec::new(alloc);
    for number in text.split(' ') {
        numbers.push(number.parse()?)?;
    }
    Ok(numbers)
}

fn number_at(numbers: &[u64], place: usize) -> Result<u64> {
    numbers.get(place).copied().context("no number")
}

fn size_at(numbers: &[u64], place: usize) -> Result<usize> {
    Ok(usize::try_from(number_at(numbers, place)?)?)
}

fn small_at(numbers: &[u64], place: usize) -> Result<u32> {
    Ok(u32::try_from(number_at(numbers, place)?)?)
}

// What stands between two answers of a case.
fn put_next(out: &mut String) -> Result<()> {
    if !out.is_empty() {
        out.push_str("; ")?;
    }
    Ok(())
}

// Iterations, paths and nodes: the limits, or the one that is refused.
fn limits_case(alloc: Global, text: &str) -> Result<String> {
    let asked = numbers(alloc, text)?;
    let made = Limits::new(
        small_at(&asked, 0)?,
        small_at(&asked, 1)?,
        small_at(&asked, 2)?,
    );
    match made {
        Ok(limits) => {
            let (unroll, paths, nodes) = (limits.unroll(), limits.paths(), limits.nodes());
            Ok(format!(in alloc; "{unroll} {paths} {nodes}")?)
        }
        Err(refused) => Ok(format!(in alloc; "refused {:?}", refused.field)?),
    }
}

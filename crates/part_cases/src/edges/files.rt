use super::put_next;
use anyhow::{Context, Result};
use px_io::{FileFault, Files, HostFiles, MapFiles, Sink, StreamSink, write_all};
use std::alloc::Global;
use std::collections::BTreeMap;
use std::env::Env;
use std::fmt::Write;
use std::{env, fs, str};

/// The byte of which a file in a folder is made.
const NINE: u8 = b'9';

/// What reads of a file `a.c` in memory, which has `int`, and of others give, and how many faults there are after each. Before
/// the `:` stands the number of the read that fails; a read has a name and a limit.
pub fn files_case(alloc: Global, case: &str) -> Result<String> {
    let (failing, reads) = case.split_once(": ").context("no reads")?;
    let mut files = map_files(alloc, failing.parse()?)?;
    let mut out = String::new(alloc);
    for read in reads.split(", ") {
        let (name, limit) = read.split_once(' ').context("no limit")?;
        let given = given(alloc, files.read(name, limit.parse()?))?;
        put_next(&mut out)?;
        write!(out, "{given} {}", files.faults())?;
    }
    Ok(out)
}

fn map_files(alloc: Global, failing: u64) -> Result<MapFiles> {
    let mut contents = BTreeMap::new(alloc);
    contents.insert(
        String::from_str(alloc, "a.c")?,
        Vec::from_slice(alloc, b"int")?,
    )?;
    let mut all = Vec::new(alloc);
    all.push(failing)?;
    Ok(MapFiles::new(alloc, contents, all))
}

// What a read gave: a text, or why there is none.
fn given(alloc: Global, read: Result<Vec<u8>, FileFault>) -> Result<String> {
    match read {
        Ok(bytes) => Ok(String::from_str(alloc, str::from_utf8(&bytes)?)?),
        Err(fault) => Ok(format!(in alloc; "{fault:?}")?),
    }
}

/// How so many nines are written to a file in the folder for temporary files, and what reads of it give: with room for it, with
/// room for one byte less, and once it is removed.
pub fn folder_case<R: Env + std::rt::Files + AllocGlobal + Drop>(
    rt: &R,
    alloc: Global,
    host: &mut HostFiles<R>,
    case: &str,
) -> Result<String> {
    let nines = nines(alloc, case.parse()?)?;
    let mut place = env::temp_dir(rt)?;
    place.push("part_cases_in_folder.c")?;
    let path = place.to_str().context("the folder's path is no text")?;
    let written = written(rt, alloc, path, &nines)?;
    let room = nines.len() as u64;
    let whole = compared(alloc, host.read(path, room), &nines)?;
    let short = compared(alloc, host.read(path, room.saturating_sub(1)), &nines)?;
    fs::remove_file(rt, path)?;
    let gone = compared(alloc, host.read(path, room), &nines)?;
    Ok(format!(in alloc;
        "{written}; {whole}; {short}; {gone}; {} faults",
        host.faults()
    )?)
}

fn nines(alloc: Global, count: u32) -> Result<Vec<u8>> {
    let mut nines = Vec::new(alloc);
    for _ in 0..count {
        nines.push(NINE)?;
    }
    Ok(nines)
}

// How bytes are written to a file of this name.
fn written<R: std::rt::Files>(rt: &R, alloc: Global, path: &str, bytes: &[u8]) -> Result<String> {
    let mut sink = StreamSink::new(fs::create(rt, path)?);
    let outcome = write_all(&mut sink, bytes);
    Ok(format!(in alloc; "{outcome:?} {} faults", sink.faults())?)
}

// Whether a read gave these bytes, or why it gave none.
fn compared(alloc: Global, read: Result<Vec<u8>, FileFault>, wanted: &[u8]) -> Result<String> {
    match read {
        Ok(bytes) => {
            let is_same = bytes.as_slice() == wanted;
            Ok(String::from_str(alloc, if is_same { "the same" } else { "another" })?)
        }
        Err(fault) => Ok(format!(in alloc; "{fault:?}")?),
    }
}

use crate::plans::starts_of;
use anyhow::{Context, Result};
use case_texts::{BETWEEN, expanded};
use px_io::{ByteSink, ByteSource, MapFiles};
use px_lines::number_of;
use px_pool::Spawner;
use px_test_links::MixedSpawner;
use px_top::run;
use std::alloc::Global;
use std::collections::BTreeMap;
use std::str;
use std::sync::Wait;
use std::thread::Threads;

/// How many bytes a sink has room for.
const ROOM: usize = 10_000;

/// How many bytes a sink takes, and the input gives, in a call.
const MOST: usize = 16;

/// How many parts stand before the files.
const OBJECTS: usize = 7;

/// The program of workers in place, which they don't run.
const NO_PROGRAM: &str = "x";

/// A run over objects in memory: its parts in the short form of cases.
#[derive(Drop)]
struct Trial<'a> {
    /// The links that are started, as `plans` reads them, after one that runs before.
    links: &'a str,
    words: &'a str,
    /// The calls, counted from 0, at which files, the input, the output and standard error fail.
    reads: &'a str,
    receipts: &'a str,
    writes: &'a str,
    lines: &'a str,
    /// The bytes of the input, in hexadecimal digits.
    input: &'a str,
    /// Each file's name, and its text.
    files: Vec<&'a str>,
}

/// What a run leaves, and how many links run before and after it.
#[derive(Drop)]
struct Ended {
    status: u8,
    out: ByteSink,
    err: ByteSink,
    before: u64,
    after: u64,
}

/// What is printed for a case. `failing` prints what a run leaves some of whose calls fail. `each_write` has a number before the
/// run: of so many writes to the output each fails in a run of its own.
pub fn answer<R: Threads + Wait + Sync>(
    rt: &R,
    alloc: Global,
    word: &str,
    rest: &str,
) -> Result<String> {
    let (count, short) = if word == "each_write" {
        rest.split_once(' ').context("no count")?
    } else {
        ("", rest)
    };
    let text = expanded(alloc, short)?;
    let trial = trial_of(alloc, &text)?;
    if count.is_empty() {
        said(alloc, &run_once(rt, alloc, &trial, trial.writes)?)
    } else {
        each_write(rt, alloc, &trial, count.parse()?)
    }
}

// For how many of so many writes to the output the run in which it fails ends with 4, with what the writes before have
// written, and with the line that says so; and whether these are all writes.
fn each_write<R: Threads + Wait + Sync>(
    rt: &R,
    alloc: Global,
    trial: &Trial,
    count: usize,
) -> Result<String> {
    let whole = run_once(rt, alloc, trial, "")?;
    let mut as_wanted = 0u64;
    for write in 0..count {
        let number = format!(in alloc; "{write}")?;
        let cut = run_once(rt, alloc, trial, &number)?;
        if is_cut(&whole, &cut, write.saturating_mul(MOST)) {
            as_wanted = as_wanted.saturating_add(1);
        }
    }
    let and_more = run_once(rt, alloc, trial, &format!(in alloc; "{count}")?)?;
    let is_last = and_more.status == whole.status && and_more.out.bytes() == whole.out.bytes();
    let last = if is_last { "no more" } else { "and more" };
    Ok(format!(in alloc; "{as_wanted} of {count}, {last}")?)
}

// Whether a run ended with 4 behind so many bytes of the whole output, with as many links as before.
fn is_cut(whole: &Ended, cut: &Ended, length: usize) -> bool {
    let begun = whole.out.bytes().get(..length);
    cut.status == 4
        && begun == Some(cut.out.bytes())
        && cut.err.bytes() == "cannot write\n".as_bytes()
        && cut.before == cut.after
}

fn said(alloc: Global, ended: &Ended) -> Result<String> {
    let out = str::from_utf8(ended.out.bytes())?;
    let err = str::from_utf8(ended.err.bytes())?;
    Ok(format!(in alloc;
        "status {}, {out:?}, {err:?}, {} running before, {} after",
        ended.status, ended.before, ended.after,
    )?)
}

fn trial_of<'a>(alloc: Global, text: &'a str) -> Result<Trial<'a>> {
    let mut parts = Vec::new(alloc);
    for part in text.split(BETWEEN) {
        parts.push(part)?;
    }
    let mut files = Vec::new(alloc);
    for part in parts.iter().skip(OBJECTS) {
        files.push(*part)?;
    }
    Ok(Trial {
        links: part_at(&parts, 0),
        words: part_at(&parts, 1),
        reads: part_at(&parts, 2),
        receipts: part_at(&parts, 3),
        writes: part_at(&parts, 4),
        lines: part_at(&parts, 5),
        input: part_at(&parts, 6),
        files,
    })
}

// A part that isn't there is empty.
fn part_at<'a>(parts: &[&'a str], place: usize) -> &'a str {
    parts.get(place).copied().unwrap_or("")
}

// A run in which these writes to the output fail.
fn run_once<R: Threads + Wait + Sync>(
    rt: &R,
    alloc: Global,
    trial: &Trial,
    writes: &str,
) -> Result<Ended> {
    let starts = starts_of(alloc, &format!(in alloc; "honest {}", trial.links)?)?;
    let mut spawner = MixedSpawner::new(alloc, starts.plans, starts.failing);
    let link = spawner.start(rt, NO_PROGRAM, 0)?;
    let before = spawner.running();
    let words = words_of(alloc, trial.words)?;
    let reads = numbers(alloc, trial.reads)?;
    let mut files = MapFiles::new(alloc, contents(alloc, &trial.files)?, reads);
    let mut input = input_of(alloc, trial)?;
    let mut out = ByteSink::new(alloc, ROOM, MOST, numbers(alloc, writes)?)?;
    let mut err = ByteSink::new(alloc, ROOM, MOST, numbers(alloc, trial.lines)?)?;
    let status = run(
        rt,
        alloc,
        &words,
        &mut files,
        &mut input,
        &mut out,
        &mut err,
        &mut spawner,
        &mut Vec::new(alloc),
    );
    let after = spawner.running();
    spawner.end(rt, link);
    Ok(Ended {
        status: number_of(status),
        out,
        err,
        before,
        after,
    })
}

fn input_of(alloc: Global, trial: &Trial) -> Result<ByteSource> {
    let bytes = hex::decode(alloc, trial.input).ok().context("no bytes")?;
    Ok(ByteSource::new(bytes, MOST, numbers(alloc, trial.receipts)?))
}

// The names and the texts, which stand one after another.
fn contents(alloc: Global, files: &[&str]) -> Result<BTreeMap<String, Vec<u8>>> {
    let mut contents = BTreeMap::new(alloc);
    for file in files.chunks(2) {
        if let [name, text] = file {
            contents.insert(
                String::from_str(alloc, name)?,
                Vec::from_slice(alloc, text.as_bytes())?,
            )?;
        }
    }
    Ok(contents)
}

fn words_of(alloc: Global, text: &str) -> Result<Vec<String>> {
    let mut words = Vec::new(alloc);
    for word in text.split_whitespace() {
        words.push(String::from_str(alloc, word)?)?;
    }
    Ok(words)
}

fn numbers(alloc: Global, text: &str) -> Result<Vec<u64>> {
    let mut numbers = Vec::new(alloc);
    for number in text.split_whitespace() {
        numbers.push(number.parse()?)?;
    }
    Ok(numbers)
}

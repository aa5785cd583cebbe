ghost use Rattle.std.specs.Prelude.{ℕ, List};

use crate::programs::write_functions;
use anyhow::{Context, Result};
use case_texts::BETWEEN;
use px_io::{ByteSink, ByteSource, HostFiles, MapFiles};
use px_lines::number_of;
use px_listing::run as list;
use px_pool::ScriptSpawner;
use px_top::run;
use std::alloc::Global;
use std::collections::BTreeMap;
use std::fmt::Write;
use std::rt::Files;
use std::str;
use std::sync::Wait;
use std::thread::Threads;

/// How many bytes a read of the input gives: fewer than the length of a frame has.
const PIECE: usize = 3;

/// How many bytes a sink has room for.
const ROOM: usize = 10_000;

/// How many bytes a sink takes in a call.
const MOST: usize = 16;

/// How many bytes of a listing, or of the report on an example, there may be.
const MOST_OF_LINES: usize = 100_000;

/// The input and the sinks of a run.
#[derive(Drop)]
struct Streams {
    input: ByteSource,
    out: ByteSink,
    err: ByteSink,
}

// Sinks that fail at the calls of these numbers.
fn failing_streams(alloc: Global, input: ByteSource, writes: &str, lines: &str) -> Result<Streams> {
    let out = ByteSink::new(alloc, ROOM, MOST, numbers(alloc, writes)?)?;
    let err = ByteSink::new(alloc, ROOM, MOST, numbers(alloc, lines)?)?;
    Ok(Streams { input, out, err })
}

// The status of a run with these words, without domains and without links.
fn ended<R: Threads + Wait + Sync, F: px_io::Files>(
    rt: &R,
    alloc: Global,
    words: &[String],
    files: &mut F,
    streams: &mut Streams,
) -> u8
    requires { (name : List ℕ) → F.allows files.old name }
{
    number_of(run(
        rt,
        alloc,
        words,
        files,
        &mut streams.input,
        &mut streams.out,
        &mut streams.err,
        &mut ScriptSpawner::new(alloc, Vec::new(alloc), Vec::new(alloc)),
        &mut Vec::new(alloc),
    ))
}

fn parts_of(alloc: Global, text: &str) -> Result<Vec<&str>> {
    let mut parts = Vec::new(alloc);
    for part in text.split(BETWEEN) {
        parts.push(part)?;
    }
    Ok(parts)
}

// A part that isn't there is empty.
fn part_at<'a>(parts: &[&'a str], place: usize) -> &'a str {
    parts.get(place).copied().unwrap_or("")
}

// The names and the bytes that stand after the fourth part.
fn contents(alloc: Global, parts: &[&str]) -> Result<BTreeMap<String, Vec<u8>>> {
    let mut contents = BTreeMap::new(alloc);
    let mut name = None;
    for part in parts.iter().skip(4) {
        name = match name {
            None => Some(*part),
            Some(name) => {
                contents.insert(
                    String::from_str(alloc, name)?,
                    Vec::from_slice(alloc, part.as_bytes())?,
                )?;
                None
            }
        };
    }
    Ok(contents)
}

/// The status of a run on files in memory, and what it leaves on its output and on its standard error. The parts
/// of the text are the words, the calls at which reading, the output and standard error fail, and each file's name
/// and bytes.
pub fn run_case<R: Threads + Wait + Sync>(rt: &R, alloc: Global, text: &str) -> Result<String> {
    let parts = parts_of(alloc, text)?;
    let words = words_of(alloc, part_at(&parts, 0))?;
    let reads = numbers(alloc, part_at(&parts, 1))?;
    let mut files = MapFiles::new(alloc, contents(alloc, &parts)?, reads);
    let input = ByteSource::new(Vec::new(alloc), MOST, Vec::new(alloc));
    let mut streams = failing_streams(alloc, input, part_at(&parts, 2), part_at(&parts, 3))?;
    let status = ended(rt, alloc, &words, &mut files, &mut streams);
    answer(alloc, status, &streams.out, &streams.err)
}

/// The status of a check with the help of what is kept, which is the file `k`, and what it leaves. The parts of the text are the words of
/// the check, the name of its one file, the text that the file had when its summaries were kept, and the text that it has now.
pub fn kept_case<R: Threads + Wait + Sync>(rt: &R, alloc: Global, text: &str) -> Result<String> {
    let parts = parts_of(alloc, text)?;
    let name = part_at(&parts, 1);
    let kept = kept_of(rt, alloc, name, part_at(&parts, 2))?;
    let mut contents = named_file(alloc, name, part_at(&parts, 3))?;
    contents.insert(String::from_str(alloc, "k")?, kept)?;
    let words = words_of(alloc, part_at(&parts, 0))?;
    let mut streams = empty_streams(alloc)?;
    let mut files = MapFiles::new(alloc, contents, Vec::new(alloc));
    let status = ended(rt, alloc, &words, &mut files, &mut streams);
    answer(alloc, status, &streams.out, &streams.err)
}

// What `keep` writes of one file of this name and text.
fn kept_of<R: Threads + Wait + Sync>(
    rt: &R,
    alloc: Global,
    name: &str,
    text: &str,
) -> Result<Vec<u8>> {
    let mut words = words_of(alloc, "keep")?;
    words.push(String::from_str(alloc, name)?)?;
    let mut streams = empty_streams(alloc)?;
    let mut files = MapFiles::new(alloc, named_file(alloc, name, text)?, Vec::new(alloc));
    let _status = ended(rt, alloc, &words, &mut files, &mut streams);
    Ok(Vec::from_slice(alloc, streams.out.bytes())?)
}

// One file of this name and text.
fn named_file(alloc: Global, name: &str, text: &str) -> Result<BTreeMap<String, Vec<u8>>> {
    let mut files = BTreeMap::new(alloc);
    files.insert(
        String::from_str(alloc, name)?,
        Vec::from_slice(alloc, text.as_bytes())?,
    )?;
    Ok(files)
}

fn empty_streams(alloc: Global) -> Result<Streams> {
    let input = ByteSource::new(Vec::new(alloc), MOST, Vec::new(alloc));
    failing_streams(alloc, input, "", "")
}

fn answer(alloc: Global, status: u8, out: &ByteSink, err: &ByteSink) -> Result<String> {
    let out = str::from_utf8(out.bytes())?;
    let err = str::from_utf8(err.bytes())?;
    Ok(format!(in alloc; "{status} {out:?} {err:?}")?)
}

/// The same of one file, `r.c`, which has this text.
pub fn check_case<R: Threads + Wait + Sync>(rt: &R, alloc: Global, text: &str) -> Result<String> {
    let between = BETWEEN;
    let text = format!(in alloc;
        "check r.c{between}{between}{between}{between}r.c{between}{text}"
    )?;
    run_case(rt, alloc, &text)
}

/// The same of one file with so many functions.
pub fn check_functions<R: Threads + Wait + Sync>(
    rt: &R,
    alloc: Global,
    text: &str,
) -> Result<String> {
    let mut source = String::new(alloc);
    write_functions(&mut source, text.parse()?)?;
    check_case(rt, alloc, &source)
}

/// What a command of these words prints of the files in the program's own folder, and its status.
pub fn command_case<W: Threads + Wait + Sync, R: Files + AllocGlobal + Drop>(
    rt: &W,
    alloc: Global,
    files: &mut HostFiles<R>,
    text: &str,
) -> Result<String> {
    let words = words_of(alloc, text)?;
    let mut streams = Streams {
        input: ByteSource::new(Vec::new(alloc), MOST, Vec::new(alloc)),
        out: lines(alloc)?,
        err: lines(alloc)?,
    };
    let status = ended(rt, alloc, &words, files, &mut streams);
    printed(alloc, text, status, &streams.out, &streams.err)
}

/// What `summaries` with these words, up to a `|`, lists of the one file `c.c`, whose text stands after it, and its status.
pub fn listing_case(alloc: Global, text: &str) -> Result<String> {
    let (words, source) = text.split_once('|').context("no text")?;
    let mut contents = BTreeMap::new(alloc);
    contents.insert(
        String::from_str(alloc, "c.c")?,
        Vec::from_slice(alloc, source.trim_start().as_bytes())?,
    )?;
    let mut files = MapFiles::new(alloc, contents, Vec::new(alloc));
    let mut out = lines(alloc)?;
    let mut err = lines(alloc)?;
    let status = list(
        alloc,
        Ok(words_of(alloc, words)?),
        &mut files,
        &mut out,
        &mut err,
        &mut Vec::new(alloc),
    );
    printed(alloc, words.trim(), number_of(status), &out, &err)
}

fn lines(alloc: Global) -> Result<ByteSink> {
    Ok(ByteSink::new(alloc, MOST_OF_LINES, MOST_OF_LINES, Vec::new(alloc))?)
}

fn printed(
    alloc: Global,
    words: &str,
    status: u8,
    out: &ByteSink,
    err: &ByteSink,
) -> Result<String> {
    let out = str::from_utf8(out.bytes())?;
    let err = str::from_utf8(err.bytes())?;
    Ok(format!(in alloc; "== {words} status {status}\n{out}{err}")?)
}

/// The status of a worker without domains, and what it leaves on its output, in hexadecimal digits, and on its standard
/// error. The parts of the text are the calls at which reading, the output and standard error fail, and the bytes of the
/// input, in hexadecimal digits.
pub fn worker_case<R: Threads + Wait + Sync>(rt: &R, alloc: Global, text: &str) -> Result<String> {
    let parts = parts_of(alloc, text)?;
    let reads = numbers(alloc, part_at(&parts, 0))?;
    let input = ByteSource::new(bytes_of(alloc, part_at(&parts, 3))?, PIECE, reads);
    let mut streams = failing_streams(alloc, input, part_at(&parts, 1), part_at(&parts, 2))?;
    let words = words_of(alloc, "worker")?;
    let mut files = MapFiles::new(alloc, BTreeMap::new(alloc), Vec::new(alloc));
    let status = ended(rt, alloc, &words, &mut files, &mut streams);
    worker_answer(alloc, status, &streams.out, &streams.err)
}

fn worker_answer(alloc: Global, status: u8, out: &ByteSink, err: &ByteSink) -> Result<String> {
    let mut answer = format!(in alloc; "{status} ")?;
    for byte in out.bytes() {
        write!(answer, "{byte:02x}")?;
    }
    let line = str::from_utf8(err.bytes())?;
    write!(answer, " {line:?}")?;
    Ok(answer)
}

// Two digits are a byte; blanks may stand anywhere.
fn bytes_of(alloc: Global, text: &str) -> Result<Vec<u8>> {
    let mut bytes = Vec::new(alloc);
    let mut high = None;
    for digit in text.chars() {
        let Some(low) = digit.to_digit(16) else {
            continue;
        };
        high = match high {
            None => Some(low),
            Some(high) => {
                bytes.push(u8::try_from(high.saturating_mul(16).saturating_add(low))?)?;
                None
            }
        };
    }
    Ok(bytes)
}

fn words_of(alloc: Global, text: &str) -> Result<Vec<String>> {
    let mut words = Vec::new(alloc);
    for word in text.split(' ') {
        if !word.is_empty() {
            words.push(String::from_str(alloc, word)?)?;
        }
    }
    Ok(words)
}

fn numbers(alloc: Global, text: &str) -> Result<Vec<u64>> {
    let mut numbers = Vec::new(alloc);
    for number in text.split(' ') {
        if !number.is_empty() {
            numbers.push(number.parse()?)?;
        }
    }
    Ok(numbers)
}

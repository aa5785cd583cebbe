ghost use Rattle.std.specs.Prelude.{◌≡◌, ℕ, List};

use crate::programs::{FILE, Loaded};
use anyhow::{Context, Result};
use px_io::{ByteSink, ByteSource, MapFiles};
use px_lines::number_of;
use px_pool::{ScriptSpawner, Spawner};
use px_top::run;
use std::alloc::Global;
use std::collections::BTreeMap;
use std::fmt::Write;
use std::str;
use std::sync::Wait;
use std::thread::Threads;

/// How many bytes a report has at most.
const ROOM: usize = 100_000;

/// What a check leaves: its status, the report, the line of `--stats`, and the links that run.
#[derive(Drop)]
pub struct Answer {
    pub status: u8,
    out: ByteSink,
    err: ByteSink,
    /// How many links run at its end.
    pub running: u64,
}

impl Answer {
    /// The report.
    pub fn report(&self) -> &[u8] {
        self.out.bytes()
    }

    /// What is on standard error.
    pub fn line(&self) -> Result<&str> {
        Ok(str::from_utf8(self.err.bytes())?)
    }
}

/// What a check of the program by the parent alone leaves.
pub fn checked_alone<R: Threads + Wait + Sync>(
    rt: &R,
    alloc: Global,
    loaded: &Loaded,
) -> Result<Answer> {
    let mut spawner = ScriptSpawner::new(alloc, Vec::new(alloc), Vec::new(alloc));
    checked(rt, alloc, &mut spawner, loaded, &["check", FILE])
}

/// What a check of the program by so many workers leaves, each of which runs the file where it is a child.
pub fn checked_by<R: Threads + Wait + Sync, S: Spawner>(
    rt: &R,
    alloc: Global,
    spawner: &mut S,
    file: &str,
    loaded: &Loaded,
    workers: u32,
) -> Result<Answer> {
    let workers = format!(in alloc; "{workers}")?;
    let words = [
        "check",
        "--workers",
        &workers,
        "--exec",
        file,
        "--stats",
        FILE,
    ];
    checked(rt, alloc, spawner, loaded, &words)
}

/// What a check by so many workers comes to, beside that of the parent alone.
pub fn check_case<R: Threads + Wait + Sync, S: Spawner>(
    rt: &R,
    alloc: Global,
    spawner: &mut S,
    file: &str,
    loaded: &Loaded,
    workers: u32,
) -> Result<String> {
    let alone = checked_alone(rt, alloc, loaded)?;
    let shared = checked_by(rt, alloc, spawner, file, loaded, workers)?;
    compared(alloc, &alone, &shared)
}

/// The same, of which as much is said as is no matter of time.
pub fn report_case<R: Threads + Wait + Sync, S: Spawner>(
    rt: &R,
    alloc: Global,
    spawner: &mut S,
    file: &str,
    loaded: &Loaded,
    workers: u32,
) -> Result<String> {
    let alone = checked_alone(rt, alloc, loaded)?;
    let shared = checked_by(rt, alloc, spawner, file, loaded, workers)?;
    let status = shared.status;
    let (_, lost) = shared.line()?.rsplit_once(", ").context("no line")?;
    let mut said = format!(in alloc; "status {status}, {}", lost.trim())?;
    put_compared(&mut said, &alone, &shared)?;
    Ok(said)
}

/// The status and the report.
pub fn report_of(alloc: Global, answer: &Answer) -> Result<String> {
    let report = str::from_utf8(answer.report())?;
    Ok(format!(in alloc; "status {}, {}", answer.status, report.trim())?)
}

// The status, the line of `--stats`, how the report differs from that of the parent alone, and how many links run at the end.
fn compared(alloc: Global, alone: &Answer, shared: &Answer) -> Result<String> {
    let line = shared.line()?;
    let status = shared.status;
    let mut said = format!(in alloc; "status {status}, {}", line.trim())?;
    put_compared(&mut said, alone, shared)?;
    Ok(said)
}

// How the report differs, and how many links run at the end.
fn put_compared(said: &mut String, alone: &Answer, shared: &Answer) -> Result<()> {
    if alone.status == shared.status && alone.report() == shared.report() {
        said.push_str(", as without workers")?;
    } else {
        said.push_str(", another report: ")?;
        said.push_str(str::from_utf8(shared.report())?.trim())?;
    }
    write!(said, ", {} running", shared.running)?;
    Ok(())
}

// What a run with these words leaves.
fn checked<R: Threads + Wait + Sync, S: Spawner>(
    rt: &R,
    alloc: Global,
    spawner: &mut S,
    loaded: &Loaded,
    words: &[&str],
) -> Result<Answer> {
    let mut owned = Vec::new(alloc);
    for word in words {
        owned.push(String::from_str(alloc, word)?)?;
    }
    let mut contents = BTreeMap::new(alloc);
    contents.insert(
        String::from_str(alloc, FILE)?,
        Vec::from_slice(alloc, &loaded.text)?,
    )?;
    let mut files = MapFiles::new(alloc, contents, Vec::new(alloc));
    let mut out = ByteSink::new(alloc, ROOM, ROOM, Vec::new(alloc))?;
    let mut err = ByteSink::new(alloc, ROOM, ROOM, Vec::new(alloc))?;
    let status = run(
        rt,
        alloc,
        &owned,
        &mut files,
        &mut ByteSource::new(Vec::new(alloc), ROOM, Vec::new(alloc)),
        &mut out,
        &mut err,
        spawner,
        &mut Vec::new(alloc),
    );
    Ok(Answer {
        status: number_of(status),
        out,
        err,
        running: spawner.running(),
    })
}

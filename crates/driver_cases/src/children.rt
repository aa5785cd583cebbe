ghost use Rattle.std.specs.Prelude.{◌≡◌, ⊤, None};

use crate::accounts::said;
use crate::checks::check_case;
use crate::programs::Loaded;
use crate::sharing::shared;
use anyhow::Result;
use px_children::{ChildLink, ChildSpawner};
use px_io::Failed;
use px_pieces::{Event, Lost, Unknown};
use px_pool::{Link, Spawner};
use std::alloc::Global;
use std::process::{OpenProcess, Processes};
use std::sync::Wait;
use std::thread::Threads;

/// What so many children that run this program come to; with `killed`, each is killed between its first reply and the next
/// request. With one of them the events are printed too.
pub fn run_children<R: Threads + Wait + Sync, P: Processes + AllocGlobal + Drop>(
    rt: &R,
    alloc: Global,
    spawner: &mut KillingSpawner<P>,
    file: &String,
    loaded: &Loaded,
    words: &str,
) -> Result<String>
where
    P::Started: Send,
    <P::Started as OpenProcess>::Stdin: Send,
    <P::Started as OpenProcess>::Stdout: Send,
    <P::Started as OpenProcess>::Stderr: Send,
{
    let (workers, how) = words.split_once(' ').unwrap_or((words, ""));
    let workers = workers.parse()?;
    spawner.kills = how == "killed";
    let mut account = shared(rt, alloc, spawner, file, loaded, workers)?;
    for event in &mut account.events {
        *event = in_any_time(*event);
    }
    said(alloc, &account, workers)
}

/// What a check of the program by so many such children comes to, beside that of the parent alone.
pub fn check_children<R: Threads + Wait + Sync, P: Processes + AllocGlobal + Drop>(
    rt: &R,
    alloc: Global,
    spawner: &mut KillingSpawner<P>,
    file: &str,
    loaded: &Loaded,
    words: &str,
) -> Result<String>
where
    P::Started: Send,
    <P::Started as OpenProcess>::Stdin: Send,
    <P::Started as OpenProcess>::Stdout: Send,
    <P::Started as OpenProcess>::Stderr: Send,
{
    let (workers, how) = words.split_once(' ').unwrap_or((words, ""));
    spawner.kills = how == "killed";
    check_case(rt, alloc, spawner, file, loaded, workers.parse()?)
}

// Whether a child that ends is sent the request first is a matter of time, so the two causes are said as one.
fn in_any_time(event: Event) -> Event {
    match event {
        Event::Lose(ticket, Lost::Send) => Event::Lose(ticket, Lost::Closed(0)),
        _ => event,
    }
}

/// Starts children. Where it kills them, each is killed before it is sent something after it replied.
#[derive(Drop)]
pub struct KillingSpawner<R: Processes + AllocGlobal + Drop> {
    spawner: ChildSpawner<R>,
    kills: bool,
}

impl<R: Processes + AllocGlobal + Drop> KillingSpawner<R> {
    /// It kills nobody. Takes no memory.
    pub fn new(spawner: ChildSpawner<R>) -> KillingSpawner<R> {
        KillingSpawner {
            spawner,
            kills: false,
        }
    }
}

impl<R: Processes + AllocGlobal + Drop> Spawner for KillingSpawner<R>
where
    R::Started: Send,
    <R::Started as OpenProcess>::Stdin: Send,
    <R::Started as OpenProcess>::Stdout: Send,
    <R::Started as OpenProcess>::Stderr: Send,
{
    type Link = KilledLink<R::Started>;

    ghost told = { λ s. None };

    ghost starts = { λ s answer t. ⊤ };

    ghost ends = { λ s t. ⊤ };

    ghost links = { λ s. s.spawner.running };

    ghost count = { λ s. s.spawner.faults };

    fn faults(&self) -> u64 {
        self.spawner.faults()
    }

    fn running(&self) -> u64 {
        self.spawner.running()
    }

    fn start<W: Wait>(
        &mut self,
        rt: &W,
        program: &str,
        number: u32,
    ) -> Result<KilledLink<R::Started>, Failed> {
        let link = self.spawner.start(rt, program, number)?;
        Ok(KilledLink {
            link,
            is_killed: self.kills,
            has_replied: false,
        })
    }

    fn end<W: Wait>(&mut self, rt: &W, link: KilledLink<R::Started>) {
        self.spawner.end(rt, link.link);
    }
}

/// A link to a child, which may be one that is killed.
#[derive(Drop)]
pub struct KilledLink<P: OpenProcess + Drop> {
    link: ChildLink<P>,
    is_killed: bool,
    has_replied: bool,
}

impl<P: OpenProcess + Drop + Send> Link for KilledLink<P>
where
    P::Stdin: Send,
    P::Stdout: Send,
    P::Stderr: Send,
{
    type Word = Unknown;

    ghost told = { λ l. None };

    ghost takes = { λ l bytes answer m. ⊤ };

    ghost answers = { λ l room answer m. ⊤ };

    ghost count = { λ l. l.link.faults };

    fn faults(&self) -> u64 {
        self.link.faults()
    }

    fn send<R: Wait>(&mut self, rt: &R, bytes: &[u8]) -> Result<(), Failed> {
        if self.is_killed && self.has_replied {
            self.is_killed = false;
            self.link.kill();
        }
        self.link.send(rt, bytes)
    }

    fn receive<R: Wait>(&mut self, rt: &R, into: &mut [u8]) -> Result<usize, Failed> {
        self.has_replied = true;
        self.link.receive(rt, into)
    }
}

ghost use Rattle.std.specs.Prelude.{◌≡◌, ⊤, None};

use crate::child_link::ChildLink;
use crate::worker_command::worker_command;
use px_io::Failed;
use px_pool::Spawner;
use std::process::{Child, OpenProcess, Processes};
use std::sync::Wait;

/// Starts children, by the system's processes: the trusted edge. It tells no numbers.
#[derive(Drop)]
pub struct ChildSpawner<R: Processes + AllocGlobal + Drop> {
    rt: R,
    running: u64,
    faults: u64,
}

impl<R: Processes + AllocGlobal + Drop> ChildSpawner<R> {
    pub fn new(rt: R) -> ChildSpawner<R>
        ensures none { result.running ≡ 0 }
        ensures unfailed { result.faults ≡ 0 }
    {
        ChildSpawner {
            rt,
            running: 0,
            faults: 0,
        }
    }
}

impl<R: Processes + AllocGlobal + Drop> Spawner for ChildSpawner<R>
where
    R::Started: Send,
    <R::Started as OpenProcess>::Stdin: Send,
    <R::Started as OpenProcess>::Stdout: Send,
    <R::Started as OpenProcess>::Stderr: Send,
{
    type Link = ChildLink<R::Started>;

    ghost told = { λ s. None };

    ghost starts = { λ s answer t. ⊤ };

    ghost ends = { λ s t. ⊤ };

    ghost links = { λ s. s.running };

    ghost count = { λ s. s.faults };

    fn faults(&self) -> u64 {
        self.faults
    }

    fn running(&self) -> u64 {
        self.running
    }

    fn start<W: Wait>(
        &mut self,
        rt: &W,
        program: &str,
        number: u32,
    ) -> Result<ChildLink<R::Started>, Failed> {
        if self.running < u64::MAX {
            if let Ok(child) = started(&self.rt, program) {
                self.running += 1;
                return Ok(ChildLink::new(child));
            }
        }
        self.faults = self.faults.saturating_add(1);
        Err(Failed)
    }

    fn end<W: Wait>(&mut self, rt: &W, link: ChildLink<R::Started>) {
        link.end();
        self.running -= 1;
    }
}

// A child that runs the program as a worker. Which worker it is makes no difference to it.
fn started<R: Processes + AllocGlobal>(rt: &R, program: &str) -> Result<Child<R::Started>, Failed> {
    let Ok(mut command) = worker_command(rt.alloc(), program) else {
        return Err(Failed);
    };
    match command.spawn(rt) {
        Ok(child) => Ok(child),
        Err(_) => Err(Failed),
    }
}

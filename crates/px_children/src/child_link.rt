ghost use Rattle.std.specs.Prelude.{◌≡◌, ◌≤◌, ⊤, None};
ghost use Rattle.px_io.specs.Faults.{RoseOnce};

use px_io::Failed;
use px_pieces::Unknown;
use px_pool::Link;
use std::io::{Read, Write};
use std::process::{Child, OpenProcess};
use std::sync::Wait;

/// A link to a child, over the pipes of its standard input and output: the trusted edge. It tells no bytes, and nothing is known
/// of its word.
#[derive(Drop)]
pub struct ChildLink<P: OpenProcess + Drop> {
    child: Child<P>,
    faults: u64,
}

impl<P: OpenProcess + Drop> ChildLink<P> {
    /// A link over the pipes of this child. Without them each of its calls fails.
    pub fn new(child: Child<P>) -> ChildLink<P>
        ensures { result.faults ≡ 0 }
    {
        ChildLink { child, faults: 0 }
    }

    // Counts a fault.
    fn failed(&mut self) -> Failed
        ensures rises { RoseOnce self.old.faults self.new.faults }
        ensures never_falls { self.old.faults ≤ self.new.faults }
    {
        self.faults = self.faults.saturating_add(1);
        Failed
    }

    /// Kills the child, and says whether it could. After what it wrote the link ends, and it is still to be ended here.
    pub fn kill(&mut self) -> bool
        ensures { self.new.faults ≡ self.old.faults }
    {
        self.child.kill().is_ok()
    }

    /// Closes the pipes, kills the child and waits for its end. A child that can't be killed is not waited for.
    pub fn end(mut self) {
        drop(self.child.stdin.take());
        drop(self.child.stdout.take());
        if self.kill() {
            let _ = self.child.wait();
        }
    }
}

impl<P: OpenProcess + Drop + Send> Link for ChildLink<P>
where
    P::Stdin: Send,
    P::Stdout: Send,
    P::Stderr: Send,
{
    type Word = Unknown;

    ghost told = { λ s. None };

    ghost takes = { λ s bytes answer t. ⊤ };

    ghost answers = { λ s room answer t. ⊤ };

    ghost count = { λ s. s.faults };

    fn faults(&self) -> u64 {
        self.faults
    }

    fn send<R: Wait>(&mut self, rt: &R, bytes: &[u8]) -> Result<(), Failed> {
        if let Some(pipe) = &mut self.child.stdin {
            if pipe.write_all(bytes).is_ok() && pipe.flush().is_ok() {
                return Ok(());
            }
        }
        Err(self.failed())
    }

    fn receive<R: Wait>(&mut self, rt: &R, into: &mut [u8]) -> Result<usize, Failed> {
        if let Some(pipe) = &mut self.child.stdout {
            if let Ok(count) = pipe.read(into) {
                return Ok(count);
            }
        }
        Err(self.failed())
    }
}

ghost use Rattle.std.specs.Prelude.{◌≡◌, None, ⊤, ◌<◌, ◌≤◌, length, IfOk, IfSome, IsErrOf};
ghost use Rattle.px_io.specs.declared.files.FileFault.TheVariants.{Long};

use crate::files::{FileFault, Files};
use std::alloc::Global;
use std::fs;
use std::io::Read;

/// The files of the system: the trusted edge. It tells no contents.
#[derive(Drop)]
pub struct HostFiles<R: std::rt::Files + AllocGlobal + Drop> {
    rt: R,
    faults: u64,
}

impl<R: std::rt::Files + AllocGlobal + Drop> HostFiles<R> {
    pub fn new(rt: R) -> HostFiles<R>
        ensures { result.faults ≡ 0 }
    {
        HostFiles { rt, faults: 0 }
    }
}

impl<R: std::rt::Files + AllocGlobal + Drop> Files for HostFiles<R> {
    ghost told = { λ s p. None };

    ghost count = { λ s. s.faults };

    ghost allows = { λ s p. ⊤ };

    ghost gives = { λ s p given t. ⊤ };

    fn faults(&self) -> u64 {
        self.faults
    }

    fn read(&mut self, path: &str, limit: u64) -> Result<Vec<u8>, FileFault> {
        let Ok(mut file) = fs::open(&self.rt, path) else {
            self.faults = self.faults.saturating_add(1);
            return Err(FileFault::Failed);
        };
        let contents = read_up_to(self.rt.alloc(), &mut file, limit);
        if matches!(contents, Err(FileFault::Failed)) {
            self.faults = self.faults.saturating_add(1);
        }
        contents
    }
}

/// All that the source has left, if that is no longer than the limit. `Failed` means that a read failed.
pub fn read_up_to<S: Read>(alloc: Global, source: &mut S, limit: u64) -> Result<Vec<u8>, FileFault>
    ensures all { IfOk result (λ bytes. IfSome (S.remaining source.old) (λ left. bytes.items ≡ left)) }
    ensures within { IfOk result (λ bytes. length bytes.items ≤ limit) }
    ensures long { IsErrOf result Long → IfSome (S.remaining source.old) (λ left. limit < length left) }
{
    let mut contents = Vec::new(alloc);
    let mut piece = [0u8; 4096];
    loop {
        let Ok(count) = source.read(&mut piece) else {
            return Err(FileFault::Failed);
        };
        if count == 0 {
            return Ok(contents);
        }
        if limit - (contents.len() as u64) < count as u64 {
            return Err(FileFault::Long);
        }
        if contents.extend_from_slice(&piece[..count]).is_err() {
            return Err(FileFault::NoMemory);
        }
    }
}

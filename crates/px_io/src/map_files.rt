ghost use Rattle.std.specs.Prelude.{⊤, option_map};
ghost use Rattle.std.specs.BTreeMap.{get_by_text};
ghost use Rattle.px_io.specs.MapFiles.{Gives};

use crate::files::{FileFault, Files};
use std::alloc::Global;
use std::collections::BTreeMap;

/// Files in memory: a map from paths to contents, and the calls of `read` that fail, counted from 0.
/// A path that the map lacks is a fault.
#[derive(Drop)]
pub struct MapFiles {
    alloc: Global,
    contents: BTreeMap<String, Vec<u8>>,
    failing: Vec<u64>,
    calls: u64,
    faults: u64,
}

impl MapFiles {
    ghost use Rattle.px_io.specs.MapFiles.{IsNew};

    pub fn new(alloc: Global, contents: BTreeMap<String, Vec<u8>>, failing: Vec<u64>) -> MapFiles
        ensures { IsNew result contents failing.items }
    {
        MapFiles {
            alloc,
            contents,
            failing,
            calls: 0,
            faults: 0,
        }
    }
}

impl Files for MapFiles {
    ghost told = { λ s p. option_map (λ bytes. bytes.items) (get_by_text s.contents p) };

    ghost count = { λ s. s.faults };

    ghost allows = { λ s p. ⊤ };

    ghost gives = { Gives };

    fn faults(&self) -> u64 {
        self.faults
    }

    fn read(&mut self, path: &str, limit: u64) -> Result<Vec<u8>, FileFault> {
        let call = self.calls;
        self.calls = call.saturating_add(1);
        let found = self.contents.get(path);
        let Some(bytes) = found else {
            self.faults = self.faults.saturating_add(1);
            return Err(FileFault::Failed);
        };
        if self.failing.contains(&call) {
            self.faults = self.faults.saturating_add(1);
            return Err(FileFault::Failed);
        }
        if bytes.len() as u64 > limit {
            return Err(FileFault::Long);
        }
        match Vec::from_slice(self.alloc, bytes) {
            Ok(copy) => Ok(copy),
            Err(_) => Err(FileFault::NoMemory),
        }
    }
}

ghost use Rattle.std.specs.Prelude.{◌≡◌, [], OnOk, OnErr};
ghost use Rattle.px_meaning.specs.Execution.{with_local};
ghost use Rattle.px_meaning.specs.TreeCalls.{first_locals};
ghost use Rattle.px_replay.specs.Locals.{locals_map};

use px_terms::{NoMemory, Value};
use std::alloc::Global;

/// What was written to a local.
#[derive(Clone, Copy)]
pub struct Written {
    local: u32,
    value: Value,
}

/// The locals of a procedure: its arguments first, and what was written since; the last holds.
#[derive(Drop)]
pub struct Locals {
    arguments: Vec<Value>,
    written: Vec<Written>,
}

impl Locals {
    /// The arguments, and all others unwritten.
    pub fn new(alloc: Global, arguments: Vec<Value>) -> Locals
        ensures { locals_map result ≡ first_locals arguments.items }
    {
        Locals {
            arguments,
            written: Vec::new(alloc),
        }
    }

    /// The value of a local. Takes no memory.
    #[tactic(auto, using(crate::proofs::LaterWrites::one_local))]
    pub fn get(&self, local: u32) -> Value
        ensures { result ≡ locals_map self.now local }
    {
        let mut value = match self.arguments.get(local as usize) {
            Some(value) => *value,
            None => Value::Unwritten,
        };
        for written in &self.written {
            if written.local == local {
                value = written.value;
            }
        }
        value
    }

    /// The local has this value from now on.
    #[tactic(auto, using(crate::proofs::LaterWrites::written_last))]
    pub fn set(&mut self, local: u32, value: Value) -> Result<(), NoMemory>
        ensures { OnOk result (locals_map self.new ≡ with_local (locals_map self.old) local value) }
    {
        self.written.push(Written { local, value })?;
        Ok(())
    }
}

ghost use Rattle.std.specs.Prelude.{◌≡◌, ◌<◌, length, slice_index, IfOk};
ghost use Rattle.px_entry.specs.declared.entries.Entry.{Entry as AnEntry};
ghost use Rattle.px_leak.specs.Reached.{is_reached};
ghost use Rattle.px_leak.specs.Reaches.{Knows};

use crate::pointers::pointers;
use px_components::Components;
use px_entry::Entry;
use px_terms::NoMemory;
use std::alloc::Global;

/// What the result of an entry reaches: the component of each variable, and that of the result, to which each variable leads back.
#[derive(Drop)]
pub(crate) struct Reach {
    pub(crate) numbers: Vec<u32>,
    pub(crate) count: u32,
}

impl Reach {
    /// That of an entry.
    ///
    /// The time is linear in its variables and in the cells of its blocks.
    pub(crate) fn of(alloc: Global, entry: &Entry) -> Result<Reach, NoMemory>
        ensures { IfOk result (λ r. Knows entry.now r) }
    {
        let variables = entry.vars.len();
        if variables >= u32::MAX as usize {
            // No path has as many.
            return Err(NoMemory);
        }
        let count = variables as u32;
        let graph = pointers(alloc, entry, count)?;
        let numbers = Components::of(alloc, &graph)?.numbers;
        Ok(Reach { numbers, count })
    }

    /// Whether a variable is reached. Takes no memory.
    pub(crate) fn has(&self, variable: usize) -> bool
        ensures { (x : AnEntry) → Knows x self.now → variable < length x.vars → result ≡ is_reached x variable }
    {
        let numbers = self.numbers.as_slice();
        number_at(numbers, variable) == number_at(numbers, self.count as usize)
    }
}

// The number at a place; 0 beyond the last.
fn number_at(numbers: &[u32], at: usize) -> u32
    ensures { result ≡ slice_index numbers.now at }
{
    match numbers.get(at) {
        Some(number) => *number,
        None => 0,
    }
}

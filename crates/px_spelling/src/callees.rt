ghost use Rattle.px_spelling.specs.Callees.{callee_bytes, IsCallee, callee_at};

use crate::{Output, Terms, Wire, WireFault, WireWith};
use px_callgraph::Callee;
use px_entry::Table;
use std::alloc::Global;

impl WireWith for Callee {
    ghost bytes_with = { callee_bytes };

    ghost fits_with = { IsCallee };

    ghost at_with = { callee_at };

    fn write_with<S: Terms, O: Output>(&self, terms: &S, out: &mut O, target: &mut O::Target) {
        match self {
            Callee::Table(table) => {
                0u8.write(out, target);
                table.write_with(terms, out, target)
            }
            Callee::Cycle => 1u8.write(out, target),
            Callee::LeftOut => 2u8.write(out, target),
            Callee::Unknown => 3u8.write(out, target),
        }
    }

    #[tactic(auto, unfolding(crate::specs::Callees::callee_at, crate::specs::Callees::callee_with))]
    fn read_with<'a, S: Terms>(
        terms: &S,
        alloc: Global,
        bytes: &'a [u8],
    ) -> Result<(Callee, &'a [u8]), WireFault> {
        let (tag, rest) = u8::read(alloc, bytes)?;
        match tag {
            0 => {
                let (table, rest) = Table::read_with(terms, alloc, rest)?;
                Ok((Callee::Table(table), rest))
            }
            1 => Ok((Callee::Cycle, rest)),
            2 => Ok((Callee::LeftOut, rest)),
            3 => Ok((Callee::Unknown, rest)),
            _ => Err(WireFault::NotAMessage),
        }
    }

    fn is_in_range_with<S: Terms>(&self, terms: &S) -> bool {
        match self {
            Callee::Table(table) => table.is_in_range_with(terms),
            Callee::Cycle | Callee::LeftOut | Callee::Unknown => true,
        }
    }
}

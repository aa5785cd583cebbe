ghost use Rattle.px_spelling.specs.Tables.{long_kind_bytes, IsLongKind, long_kind_at, cause_bytes, IsCause, cause_at, gap_bytes, IsGap, gap_at, table_bytes, IsTable, table_at};

use crate::bounds::{MOST_CONJUNCTS, MOST_MARKS, MOST_ROWS};
use crate::{
    Output, Terms, Wire, WireFault, WireWith, are_in_range, are_in_range_with, read_items,
    read_items_with, write_items, write_items_with,
};
use px_base::ProcId;
use px_entry::{Cause, Gap, LongKind, Table};
use std::alloc::Global;

impl Wire for LongKind {
    ghost bytes_of = { long_kind_bytes };

    ghost fits = { IsLongKind };

    ghost at = { long_kind_at };

    fn write<O: Output>(&self, out: &mut O, target: &mut O::Target) {
        let number: u8 = match self {
            LongKind::Trace => 0,
            LongKind::Steps => 1,
            LongKind::Conjuncts => 2,
            LongKind::Atoms => 3,
            LongKind::Variables => 4,
            LongKind::Term => 5,
        };
        number.write(out, target)
    }

    #[tactic(auto, unfolding(crate::specs::Tables::long_kind_at, crate::specs::Tables::long_kind_with))]
    fn read(alloc: Global, bytes: &[u8]) -> Result<(LongKind, &[u8]), WireFault> {
        let (tag, rest) = u8::read(alloc, bytes)?;
        let long_kind = match tag {
            0 => LongKind::Trace,
            1 => LongKind::Steps,
            2 => LongKind::Conjuncts,
            3 => LongKind::Atoms,
            4 => LongKind::Variables,
            5 => LongKind::Term,
            _ => return Err(WireFault::NotAMessage),
        };
        Ok((long_kind, rest))
    }

    fn is_in_range(&self) -> bool {
        true
    }
}

impl WireWith for Cause {
    ghost bytes_with = { cause_bytes };

    ghost fits_with = { IsCause };

    ghost at_with = { cause_at };

    fn write_with<S: Terms, O: Output>(&self, terms: &S, out: &mut O, target: &mut O::Target) {
        match self {
            Cause::Undecided(conjuncts) => {
                0u8.write(out, target);
                write_items_with(terms, conjuncts.as_slice(), out, target)
            }
            Cause::Nodes(number) => {
                1u8.write(out, target);
                number.write(out, target)
            }
            Cause::Paths(number) => {
                2u8.write(out, target);
                number.write(out, target)
            }
            Cause::Long(kind) => {
                3u8.write(out, target);
                kind.write(out, target)
            }
            Cause::Unknown(proc) => {
                4u8.write(out, target);
                proc.write(out, target)
            }
            Cause::Cycle(proc) => {
                5u8.write(out, target);
                proc.write(out, target)
            }
            Cause::Dropped(proc) => {
                6u8.write(out, target);
                proc.write(out, target)
            }
            Cause::LeftOut(proc) => {
                7u8.write(out, target);
                proc.write(out, target)
            }
            Cause::Outside(word) => {
                8u8.write(out, target);
                word.write(out, target)
            }
        }
    }

    #[tactic(auto, unfolding(crate::specs::Tables::cause_at, crate::specs::Tables::cause_with))]
    fn read_with<'a, S: Terms>(
        terms: &S,
        alloc: Global,
        bytes: &'a [u8],
    ) -> Result<(Cause, &'a [u8]), WireFault> {
        let (tag, rest) = u8::read(alloc, bytes)?;
        match tag {
            0 => {
                let (conjuncts, rest) = read_items_with(terms, alloc, MOST_CONJUNCTS, rest)?;
                Ok((Cause::Undecided(conjuncts), rest))
            }
            1 => {
                let (number, rest) = u32::read(alloc, rest)?;
                Ok((Cause::Nodes(number), rest))
            }
            2 => {
                let (number, rest) = u32::read(alloc, rest)?;
                Ok((Cause::Paths(number), rest))
            }
            3 => {
                let (kind, rest) = LongKind::read(alloc, rest)?;
                Ok((Cause::Long(kind), rest))
            }
            4 => {
                let (proc, rest) = ProcId::read(alloc, rest)?;
                Ok((Cause::Unknown(proc), rest))
            }
            5 => {
                let (proc, rest) = ProcId::read(alloc, rest)?;
                Ok((Cause::Cycle(proc), rest))
            }
            6 => {
                let (proc, rest) = ProcId::read(alloc, rest)?;
                Ok((Cause::Dropped(proc), rest))
            }
            7 => {
                let (proc, rest) = ProcId::read(alloc, rest)?;
                Ok((Cause::LeftOut(proc), rest))
            }
            8 => {
                let (word, rest) = u32::read(alloc, rest)?;
                Ok((Cause::Outside(word), rest))
            }
            _ => Err(WireFault::NotAMessage),
        }
    }

    fn is_in_range_with<S: Terms>(&self, terms: &S) -> bool {
        match self {
            Cause::Undecided(conjuncts) => are_in_range_with(
                terms,
                MOST_CONJUNCTS,
                conjuncts.as_slice(),
            ),
            Cause::Nodes(number) | Cause::Paths(number) | Cause::Outside(number) => {
                number.is_in_range()
            }
            Cause::Long(_) => true,
            Cause::Unknown(proc)
            | Cause::Cycle(proc)
            | Cause::Dropped(proc)
            | Cause::LeftOut(proc) => proc.is_in_range(),
        }
    }
}

impl WireWith for Gap {
    ghost bytes_with = { gap_bytes };

    ghost fits_with = { IsGap };

    ghost at_with = { gap_at };

    fn write_with<S: Terms, O: Output>(&self, terms: &S, out: &mut O, target: &mut O::Target) {
        write_items(self.trace.as_slice(), out, target);
        self.cause.write_with(terms, out, target)
    }

    #[tactic(auto, unfolding(crate::specs::Tables::gap_at))]
    fn read_with<'a, S: Terms>(
        terms: &S,
        alloc: Global,
        bytes: &'a [u8],
    ) -> Result<(Gap, &'a [u8]), WireFault> {
        let (trace, rest) = read_items(alloc, MOST_MARKS, bytes)?;
        let (cause, rest) = Cause::read_with(terms, alloc, rest)?;
        Ok((Gap { trace, cause }, rest))
    }

    fn is_in_range_with<S: Terms>(&self, terms: &S) -> bool {
        are_in_range(MOST_MARKS, self.trace.as_slice()) && self.cause.is_in_range_with(terms)
    }
}

impl WireWith for Table {
    ghost bytes_with = { table_bytes };

    ghost fits_with = { IsTable };

    ghost at_with = { table_at };

    fn write_with<S: Terms, O: Output>(&self, terms: &S, out: &mut O, target: &mut O::Target) {
        write_items_with(terms, self.entries.as_slice(), out, target);
        write_items_with(terms, self.drops.as_slice(), out, target)
    }

    #[tactic(auto, unfolding(crate::specs::Tables::table_at))]
    fn read_with<'a, S: Terms>(
        terms: &S,
        alloc: Global,
        bytes: &'a [u8],
    ) -> Result<(Table, &'a [u8]), WireFault> {
        let (entries, rest) = read_items_with(terms, alloc, MOST_ROWS, bytes)?;
        let left = MOST_ROWS - entries.len() as u32;
        let (drops, rest) = read_items_with(terms, alloc, left, rest)?;
        Ok((Table { entries, drops }, rest))
    }

    fn is_in_range_with<S: Terms>(&self, terms: &S) -> bool {
        are_in_range_with(terms, MOST_ROWS, self.entries.as_slice())
            && are_in_range_with(
                terms,
                MOST_ROWS - self.entries.len() as u32,
                self.drops.as_slice(),
            )
    }
}

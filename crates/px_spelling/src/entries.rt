ghost use Rattle.px_spelling.specs.Entries.{atom_state_bytes, IsAtomState, atom_state_at, atom_bytes, IsAtom, atom_at, exit_bytes, IsExit, exit_at, entry_bytes, IsEntry, entry_at};

use crate::bounds::{MOST_ATOMS, MOST_CONJUNCTS, MOST_MARKS, MOST_VARIABLES};
use crate::{
    Output, Terms, Wire, WireFault, WireWith, are_in_range, are_in_range_with, read_items,
    read_items_with, write_items, write_items_with,
};
use px_base::{Kind, ProcId, Site};
use px_entry::{Atom, AtomState, Entry, Exit};
use px_terms::{Content, TypeId, Var};
use std::alloc::Global;

impl WireWith for AtomState {
    ghost bytes_with = { atom_state_bytes };

    ghost fits_with = { IsAtomState };

    ghost at_with = { atom_state_at };

    fn write_with<S: Terms, O: Output>(&self, terms: &S, out: &mut O, target: &mut O::Target) {
        match self {
            AtomState::Live(cells) => {
                0u8.write(out, target);
                write_items_with(terms, cells.as_slice(), out, target)
            }
            AtomState::Freed => 1u8.write(out, target),
        }
    }

    #[tactic(auto, unfolding(crate::specs::Entries::atom_state_at, crate::specs::Entries::atom_state_with))]
    fn read_with<'a, S: Terms>(
        terms: &S,
        alloc: Global,
        bytes: &'a [u8],
    ) -> Result<(AtomState, &'a [u8]), WireFault> {
        let (tag, rest) = u8::read(alloc, bytes)?;
        match tag {
            0 => {
                let (cells, rest) = read_items_with(terms, alloc, u32::MAX, rest)?;
                Ok((AtomState::Live(cells), rest))
            }
            1 => Ok((AtomState::Freed, rest)),
            _ => Err(WireFault::NotAMessage),
        }
    }

    fn is_in_range_with<S: Terms>(&self, terms: &S) -> bool {
        match self {
            AtomState::Live(cells) => are_in_range_with(terms, u32::MAX, cells.as_slice()),
            AtomState::Freed => true,
        }
    }
}

impl WireWith for Atom {
    ghost bytes_with = { atom_bytes };

    ghost fits_with = { IsAtom };

    ghost at_with = { atom_at };

    fn write_with<S: Terms, O: Output>(&self, terms: &S, out: &mut O, target: &mut O::Target) {
        self.place.write(out, target);
        self.block.write(out, target);
        self.state.write_with(terms, out, target)
    }

    #[tactic(auto, unfolding(crate::specs::Entries::atom_at))]
    fn read_with<'a, S: Terms>(
        terms: &S,
        alloc: Global,
        bytes: &'a [u8],
    ) -> Result<(Atom, &'a [u8]), WireFault> {
        let (place, rest) = Var::read(alloc, bytes)?;
        let (block, rest) = TypeId::read(alloc, rest)?;
        let (state, rest) = AtomState::read_with(terms, alloc, rest)?;
        Ok((
            Atom {
                place,
                block,
                state,
            },
            rest,
        ))
    }

    fn is_in_range_with<S: Terms>(&self, terms: &S) -> bool {
        self.place.is_in_range() && self.block.is_in_range() && self.state.is_in_range_with(terms)
    }
}

impl Wire for Exit {
    ghost bytes_of = { exit_bytes };

    ghost fits = { IsExit };

    ghost at = { exit_at };

    fn write<O: Output>(&self, out: &mut O, target: &mut O::Target) {
        match self {
            Exit::Ok => 0u8.write(out, target),
            Exit::Error(kind, site) => {
                1u8.write(out, target);
                kind.write(out, target);
                site.write(out, target)
            }
        }
    }

    #[tactic(auto, unfolding(crate::specs::Entries::exit_at, crate::specs::Entries::exit_with))]
    fn read(alloc: Global, bytes: &[u8]) -> Result<(Exit, &[u8]), WireFault> {
        let (tag, rest) = u8::read(alloc, bytes)?;
        match tag {
            0 => Ok((Exit::Ok, rest)),
            1 => {
                let (kind, rest) = Kind::read(alloc, rest)?;
                let (site, rest) = Site::read(alloc, rest)?;
                Ok((Exit::Error(kind, site), rest))
            }
            _ => Err(WireFault::NotAMessage),
        }
    }

    fn is_in_range(&self) -> bool {
        match self {
            Exit::Ok => true,
            Exit::Error(_, site) => site.is_in_range(),
        }
    }
}

impl WireWith for Entry {
    ghost bytes_with = { entry_bytes };

    ghost fits_with = { IsEntry };

    ghost at_with = { entry_at };

    fn write_with<S: Terms, O: Output>(&self, terms: &S, out: &mut O, target: &mut O::Target) {
        self.proc.write(out, target);
        write_items(self.trace.as_slice(), out, target);
        self.exit.write(out, target);
        self.result.write_with(terms, out, target);
        write_items(self.vars.as_slice(), out, target);
        write_items_with(terms, self.pure.as_slice(), out, target);
        write_items_with(terms, self.pre.as_slice(), out, target);
        write_items_with(terms, self.post.as_slice(), out, target);
        write_items(self.model.as_slice(), out, target)
    }

    #[tactic(auto, unfolding(crate::specs::Entries::entry_at))]
    fn read_with<'a, S: Terms>(
        terms: &S,
        alloc: Global,
        bytes: &'a [u8],
    ) -> Result<(Entry, &'a [u8]), WireFault> {
        let (proc, rest) = ProcId::read(alloc, bytes)?;
        let (trace, rest) = read_items(alloc, MOST_MARKS, rest)?;
        let (exit, rest) = Exit::read(alloc, rest)?;
        let (result, rest) = Option::<Content>::read_with(terms, alloc, rest)?;
        let (vars, rest) = read_items(alloc, MOST_VARIABLES, rest)?;
        let (pure, rest) = read_items_with(terms, alloc, MOST_CONJUNCTS, rest)?;
        let (pre, rest) = read_items_with(terms, alloc, MOST_ATOMS, rest)?;
        let (post, rest) = read_items_with(terms, alloc, MOST_ATOMS, rest)?;
        let (model, rest) = read_items(alloc, u32::MAX, rest)?;
        Ok((
            Entry {
                proc,
                trace,
                exit,
                result,
                vars,
                pure,
                pre,
                post,
                model,
            },
            rest,
        ))
    }

    fn is_in_range_with<S: Terms>(&self, terms: &S) -> bool {
        self.proc.is_in_range()
            && are_in_range(MOST_MARKS, self.trace.as_slice())
            && self.exit.is_in_range()
            && self.result.is_in_range_with(terms)
            && are_in_range(MOST_VARIABLES, self.vars.as_slice())
            && are_in_range_with(terms, MOST_CONJUNCTS, self.pure.as_slice())
            && are_in_range_with(terms, MOST_ATOMS, self.pre.as_slice())
            && are_in_range_with(terms, MOST_ATOMS, self.post.as_slice())
            && are_in_range(u32::MAX, self.model.as_slice())
    }
}

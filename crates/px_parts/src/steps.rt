ghost use Rattle.std.specs.Prelude.{IfOk, IsErrOf};
ghost use Rattle.px_spelling.specs.declared.fault.WireFault.TheVariants as fault;
ghost use Rattle.px_parts.specs.declared.next.Next.TheVariants as at;
ghost use Rattle.px_parts.specs.Stream.{Arrives, IsStuck};
ghost use Rattle.px_parts.specs.Kept.{place_of, part_in, terms_behind};

use crate::Part;
use crate::heads::{read_count, read_drop, read_entry, read_opening, read_sender};
use crate::named::{are_all_named, named_after};
use crate::next::Next;
use px_entry::Derivation;
use px_spelling::{TermList, Wire, WireFault, read_items};
use px_wire::{SHARED, VERSION};
use std::alloc::Global;

/// The most entries and drops of a table, together.
const MOST_ROWS: u32 = 129;

/// A part that came.
#[derive(Drop)]
pub(crate) enum Given {
    /// That before a table, and the terms of the message if it has a list of them.
    Head(Part, Option<TermList>),
    /// Another.
    Row(Part),
}

/// What comes at the front of bytes, and where the message goes on, where these are its terms, if it has a list of them.
/// `NotAMessage` comes where nothing does.
#[tactic(auto, using(crate::proofs::Stuck::stuck_over))]
pub(crate) fn step<'a>(
    alloc: Global,
    next: Next,
    terms: &Option<TermList>,
    bytes: &'a [u8],
) -> Result<(Option<Given>, Next, &'a [u8]), WireFault>
    ensures arrives { IfOk result (λ x. Arrives (place_of next terms.now) bytes.now (part_in x.0) (place_of x.1 (terms_behind terms.now x.0)) x.2.now) }
    ensures stuck { IsErrOf result fault.NotAMessage → IsStuck (place_of next terms.now) bytes.now }
{
    match next {
        Next::Start => first_bytes(alloc, terms, bytes),
        Next::Head => head(alloc, terms, bytes),
        Next::ListedHead => listed_head(alloc, terms, bytes),
        Next::Large { version } => too_large(alloc, version, terms, bytes),
        Next::EntryCount => count_of_entries(alloc, terms, bytes),
        Next::Entries { left, rows, named } => next_entry(alloc, left, rows, named, terms, bytes),
        Next::DropCount { rows, named } => count_of_drops(alloc, rows, named, terms, bytes),
        Next::Drops { left, named } => next_drop(alloc, left, named, terms, bytes),
        Next::DerivationCount => count_of_derivations(alloc, terms, bytes),
        Next::Derivations { left } => next_derivation(alloc, left, terms, bytes),
        Next::Over => Err(WireFault::NotAMessage),
    }
}

#[tactic(auto, using(crate::proofs::Arrivals::opening_arrives, crate::proofs::Arrivals::opening_stuck))]
fn first_bytes<'a>(
    alloc: Global,
    terms: &Option<TermList>,
    bytes: &'a [u8],
) -> Result<(Option<Given>, Next, &'a [u8]), WireFault>
    ensures arrives { IfOk result (λ x. Arrives (place_of at.Start terms.now) bytes.now (part_in x.0) (place_of x.1 (terms_behind terms.now x.0)) x.2.now) }
    ensures stuck { IsErrOf result fault.NotAMessage → IsStuck (place_of at.Start terms.now) bytes.now }
{
    let (next, rest) = read_opening(alloc, bytes)?;
    Ok((None, next, rest))
}

#[tactic(auto, using(crate::proofs::Arrivals::head_arrives, crate::proofs::Arrivals::head_stuck))]
fn head<'a>(
    alloc: Global,
    terms: &Option<TermList>,
    bytes: &'a [u8],
) -> Result<(Option<Given>, Next, &'a [u8]), WireFault>
    ensures arrives { IfOk result (λ x. Arrives (place_of at.Head terms.now) bytes.now (part_in x.0) (place_of x.1 (terms_behind terms.now x.0)) x.2.now) }
    ensures stuck { IsErrOf result fault.NotAMessage → IsStuck (place_of at.Head terms.now) bytes.now }
{
    let (ticket, kinds, rest) = read_sender(alloc, bytes)?;
    let version = VERSION;
    let part = Part::Head {
        version,
        ticket,
        kinds,
    };
    Ok((Some(Given::Head(part, None)), Next::EntryCount, rest))
}

// The list of terms is read with the head behind it.
#[tactic(auto, using(crate::proofs::Arrivals::listed_head_arrives))]
fn listed_head<'a>(
    alloc: Global,
    terms: &Option<TermList>,
    bytes: &'a [u8],
) -> Result<(Option<Given>, Next, &'a [u8]), WireFault>
    ensures arrives { IfOk result (λ x. Arrives (place_of at.ListedHead terms.now) bytes.now (part_in x.0) (place_of x.1 (terms_behind terms.now x.0)) x.2.now) }
    ensures stuck { IsErrOf result fault.NotAMessage → IsStuck (place_of at.ListedHead terms.now) bytes.now }
{
    let (all, rest) = read_items(alloc, u32::MAX, bytes)?;
    let Some(list) = TermList::new(alloc, all)? else {
        return Err(WireFault::NotAMessage);
    };
    let (ticket, kinds, rest) = read_sender(alloc, rest)?;
    let version = SHARED;
    let part = Part::Head {
        version,
        ticket,
        kinds,
    };
    Ok((Some(Given::Head(part, Some(list))), Next::EntryCount, rest))
}

#[tactic(auto, using(crate::proofs::Arrivals::large_arrives, crate::proofs::Arrivals::large_stuck))]
fn too_large<'a>(
    alloc: Global,
    version: u8,
    terms: &Option<TermList>,
    bytes: &'a [u8],
) -> Result<(Option<Given>, Next, &'a [u8]), WireFault>
    ensures arrives { IfOk result (λ x. Arrives (place_of (at.Large version) terms.now) bytes.now (part_in x.0) (place_of x.1 (terms_behind terms.now x.0)) x.2.now) }
    ensures stuck { IsErrOf result fault.NotAMessage → IsStuck (place_of (at.Large version) terms.now) bytes.now }
{
    let (ticket, rest) = u64::read(alloc, bytes)?;
    let part = Part::Large { version, ticket };
    Ok((Some(Given::Row(part)), Next::Over, rest))
}

#[tactic(auto, using(crate::proofs::Arrivals::entry_count_arrives, crate::proofs::Arrivals::entry_count_stuck))]
fn count_of_entries<'a>(
    alloc: Global,
    terms: &Option<TermList>,
    bytes: &'a [u8],
) -> Result<(Option<Given>, Next, &'a [u8]), WireFault>
    ensures arrives { IfOk result (λ x. Arrives (place_of at.EntryCount terms.now) bytes.now (part_in x.0) (place_of x.1 (terms_behind terms.now x.0)) x.2.now) }
    ensures stuck { IsErrOf result fault.NotAMessage → IsStuck (place_of at.EntryCount terms.now) bytes.now }
{
    let (left, rest) = read_count(alloc, MOST_ROWS, bytes)?;
    let rows = MOST_ROWS - left;
    let next = Next::Entries {
        left,
        rows,
        named: 0,
    };
    Ok((None, next, rest))
}

#[tactic(auto, using(crate::proofs::Arrivals::entry_arrives, crate::proofs::Arrivals::entry_stuck, crate::proofs::Arrivals::no_entry_arrives))]
fn next_entry<'a>(
    alloc: Global,
    left: u32,
    rows: u32,
    named: usize,
    terms: &Option<TermList>,
    bytes: &'a [u8],
) -> Result<(Option<Given>, Next, &'a [u8]), WireFault>
    ensures arrives { IfOk result (λ x. Arrives (place_of (at.Entries left rows named) terms.now) bytes.now (part_in x.0) (place_of x.1 (terms_behind terms.now x.0)) x.2.now) }
    ensures stuck { IsErrOf result fault.NotAMessage → IsStuck (place_of (at.Entries left rows named) terms.now) bytes.now }
{
    if left == 0 {
        return Ok((None, Next::DropCount { rows, named }, bytes));
    }
    let (entry, rest) = read_entry(alloc, terms, bytes)?;
    let named = named_after(alloc, terms, named, &entry)?;
    let left = left - 1;
    let next = Next::Entries { left, rows, named };
    Ok((Some(Given::Row(Part::Entry(entry))), next, rest))
}

#[tactic(auto, using(crate::proofs::Arrivals::drop_count_arrives, crate::proofs::Arrivals::drop_count_stuck))]
fn count_of_drops<'a>(
    alloc: Global,
    rows: u32,
    named: usize,
    terms: &Option<TermList>,
    bytes: &'a [u8],
) -> Result<(Option<Given>, Next, &'a [u8]), WireFault>
    ensures arrives { IfOk result (λ x. Arrives (place_of (at.DropCount rows named) terms.now) bytes.now (part_in x.0) (place_of x.1 (terms_behind terms.now x.0)) x.2.now) }
    ensures stuck { IsErrOf result fault.NotAMessage → IsStuck (place_of (at.DropCount rows named) terms.now) bytes.now }
{
    let (left, rest) = read_count(alloc, rows, bytes)?;
    Ok((None, Next::Drops { left, named }, rest))
}

#[tactic(auto, using(crate::proofs::Arrivals::drop_arrives, crate::proofs::Arrivals::drop_stuck, crate::proofs::Arrivals::no_drop_arrives, crate::proofs::Arrivals::unnamed_stuck))]
fn next_drop<'a>(
    alloc: Global,
    left: u32,
    named: usize,
    terms: &Option<TermList>,
    bytes: &'a [u8],
) -> Result<(Option<Given>, Next, &'a [u8]), WireFault>
    ensures arrives { IfOk result (λ x. Arrives (place_of (at.Drops left named) terms.now) bytes.now (part_in x.0) (place_of x.1 (terms_behind terms.now x.0)) x.2.now) }
    ensures stuck { IsErrOf result fault.NotAMessage → IsStuck (place_of (at.Drops left named) terms.now) bytes.now }
{
    if left == 0 {
        return if are_all_named(terms, named) {
            Ok((None, Next::DerivationCount, bytes))
        } else {
            Err(WireFault::NotAMessage)
        };
    }
    let (gap, rest) = read_drop(alloc, terms, bytes)?;
    let named = named_after(alloc, terms, named, &gap)?;
    let left = left - 1;
    Ok((
        Some(Given::Row(Part::Drop(gap))),
        Next::Drops { left, named },
        rest,
    ))
}

#[tactic(auto, using(crate::proofs::Arrivals::derivation_count_arrives, crate::proofs::Arrivals::derivation_count_stuck))]
fn count_of_derivations<'a>(
    alloc: Global,
    terms: &Option<TermList>,
    bytes: &'a [u8],
) -> Result<(Option<Given>, Next, &'a [u8]), WireFault>
    ensures arrives { IfOk result (λ x. Arrives (place_of at.DerivationCount terms.now) bytes.now (part_in x.0) (place_of x.1 (terms_behind terms.now x.0)) x.2.now) }
    ensures stuck { IsErrOf result fault.NotAMessage → IsStuck (place_of at.DerivationCount terms.now) bytes.now }
{
    let (left, rest) = u32::read(alloc, bytes)?;
    Ok((None, Next::Derivations { left }, rest))
}

#[tactic(auto, using(crate::proofs::Arrivals::derivation_arrives, crate::proofs::Arrivals::derivation_stuck, crate::proofs::Arrivals::no_derivation_arrives))]
fn next_derivation<'a>(
    alloc: Global,
    left: u32,
    terms: &Option<TermList>,
    bytes: &'a [u8],
) -> Result<(Option<Given>, Next, &'a [u8]), WireFault>
    ensures arrives { IfOk result (λ x. Arrives (place_of (at.Derivations left) terms.now) bytes.now (part_in x.0) (place_of x.1 (terms_behind terms.now x.0)) x.2.now) }
    ensures stuck { IsErrOf result fault.NotAMessage → IsStuck (place_of (at.Derivations left) terms.now) bytes.now }
{
    if left == 0 {
        return Ok((None, Next::Over, bytes));
    }
    let (derivation, rest) = Derivation::read(alloc, bytes)?;
    let left = left - 1;
    let part = Part::Derivation(derivation);
    Ok((Some(Given::Row(part)), Next::Derivations { left }, rest))
}

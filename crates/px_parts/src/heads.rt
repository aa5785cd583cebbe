ghost use Rattle.std.specs.Prelude.{◌≡◌, ◌++◌, ◌∷◌, ◌≤◌, true, None, IfOk};
ghost use Rattle.px_spelling.specs.Reading.{Gives};
ghost use Rattle.px_spelling.specs.Numbers.{u8_bytes, u32_bytes, IsU8, IsU32};
ghost use Rattle.px_spelling.specs.Lists.{list_bytes, IsList, any_number};
ghost use Rattle.px_spelling.specs.Entries.{entry_bytes, IsEntry};
ghost use Rattle.px_spelling.specs.Tables.{gap_bytes, IsGap};
ghost use Rattle.px_wire.specs.Messages.{any_types};
ghost use Rattle.px_wire.specs.JobRanges.{rises};
ghost use Rattle.px_wire.specs.TableRanges.{entry_within, gap_within};
ghost use Rattle.px_wire.specs.Readers.{kinds_at};
ghost use Rattle.px_parts.specs.Places.{IsOpened, opening_bytes};
ghost use Rattle.px_parts.specs.Reading.{reply_opened, large_opened, opened, opening_at, sender_at, count_at, own_entry_at, own_drop_at};
ghost use Rattle.px_parts.specs.Stream.{IsSender, sender_bytes};
ghost use Rattle.px_parts.specs.Kept.{spelling_by, place_of};

use crate::next::Next;
use px_entry::{Entry, Gap};
use px_spelling::{InFull, TermList, Terms, Wire, WireFault, WireWith, read_items};
use px_terms::Items;
use px_wire::{ANY_TYPES, do_kinds_rise, is_drop_within, is_entry_within};
use std::alloc::Global;

/// Which message it is and its version: where it goes on, and the bytes after them.
#[tactic(auto, unfolding(crate::specs::Reading::opening_at))]
pub(crate) fn read_opening(alloc: Global, bytes: &[u8]) -> Result<(Next, &[u8]), WireFault>
    ensures reads { Gives (λ x. (place_of x.0 None, x.1.now)) result (opening_at bytes.now) }
    ensures spelled { IfOk result (λ x. (bytes.now ≡ opening_bytes (place_of x.0 None) ++ x.1.now) × IsOpened (place_of x.0 None)) }
{
    let (tag, rest) = u8::read(alloc, bytes)?;
    let (version, rest) = u8::read(alloc, rest)?;
    open(tag, version, rest)
}

// What follows the byte that says which message it is, and that of the version.
#[tactic(auto, unfolding(crate::specs::Reading::opened))]
fn open(tag: u8, version: u8, bytes: &[u8]) -> Result<(Next, &[u8]), WireFault>
    ensures reads { Gives (λ x. (place_of x.0 None, x.1.now)) result (opened tag version bytes.now) }
    ensures spelled { IfOk result (λ x. (tag ∷ version ∷ bytes.now ≡ opening_bytes (place_of x.0 None) ++ x.1.now) × IsOpened (place_of x.0 None)) }
{
    match tag {
        1 => reply_by(version, bytes),
        2 => large_by(version, bytes),
        _ => Err(WireFault::NotAMessage),
    }
}

fn reply_by(version: u8, bytes: &[u8]) -> Result<(Next, &[u8]), WireFault>
    ensures reads { Gives (λ x. (place_of x.0 None, x.1.now)) result (reply_opened version bytes.now) }
    ensures spelled { IfOk result (λ x. (1 ∷ version ∷ bytes.now ≡ opening_bytes (place_of x.0 None) ++ x.1.now) × IsOpened (place_of x.0 None)) }
{
    match version {
        1 => Ok((Next::Head, bytes)),
        2 => Ok((Next::ListedHead, bytes)),
        _ => Err(WireFault::NotAMessage),
    }
}

fn large_by(version: u8, bytes: &[u8]) -> Result<(Next, &[u8]), WireFault>
    ensures reads { Gives (λ x. (place_of x.0 None, x.1.now)) result (large_opened version bytes.now) }
    ensures spelled { IfOk result (λ x. (2 ∷ version ∷ bytes.now ≡ opening_bytes (place_of x.0 None) ++ x.1.now) × IsOpened (place_of x.0 None)) }
{
    match version {
        1 | 2 => Ok((Next::Large { version }, bytes)),
        _ => Err(WireFault::NotAMessage),
    }
}

/// A ticket and kinds, and the bytes after them.
#[tactic(auto, unfolding(crate::specs::Reading::sender_at))]
pub(crate) fn read_sender(alloc: Global, bytes: &[u8]) -> Result<(u64, Items<u8>, &[u8]), WireFault>
    ensures reads { Gives (λ x. ((x.0, x.1), x.2.now)) result (sender_at bytes.now) }
    ensures spelled { IfOk result (λ x. (bytes.now ≡ sender_bytes x.0 x.1 ++ x.2.now) × IsSender x.0 x.1) }
{
    let (ticket, rest) = u64::read(alloc, bytes)?;
    let (kinds, rest) = read_kinds(alloc, rest)?;
    Ok((ticket, kinds, rest))
}

// Kinds that rise.
#[tactic(auto, unfolding(px_wire::specs::Readers::kinds_at))]
fn read_kinds(alloc: Global, bytes: &[u8]) -> Result<(Items<u8>, &[u8]), WireFault>
    ensures reads { Gives (λ x. (x.0, x.1.now)) result (kinds_at bytes.now) }
    ensures spelled { IfOk result (λ x. (bytes.now ≡ list_bytes u8_bytes x.0 ++ x.1.now) × IsList IsU8 any_number x.0 × (rises x.0 ≡ true)) }
{
    let (kinds, rest): (Items<u8>, &[u8]) = read_items(alloc, u32::MAX, bytes)?;
    if do_kinds_rise(kinds.as_slice()) {
        Ok((kinds, rest))
    } else {
        Err(WireFault::NotAMessage)
    }
}

/// A count that isn't greater than this, and the bytes after it.
#[tactic(auto, unfolding(crate::specs::Reading::count_at))]
pub(crate) fn read_count(alloc: Global, most: u32, bytes: &[u8]) -> Result<(u32, &[u8]), WireFault>
    ensures reads { Gives (λ x. (x.0, x.1.now)) result (count_at most bytes.now) }
    ensures spelled { IfOk result (λ x. (bytes.now ≡ u32_bytes x.0 ++ x.1.now) × IsU32 x.0) }
    ensures few { IfOk result (λ x. x.0 ≤ most) }
{
    let (count, rest) = u32::read(alloc, bytes)?;
    if count <= most {
        Ok((count, rest))
    } else {
        Err(WireFault::NotAMessage)
    }
}

/// An entry that mentions its own variables alone, and the bytes after it. Where there is a list of terms, polynomials are by place.
pub(crate) fn read_entry<'a>(
    alloc: Global,
    terms: &Option<TermList>,
    bytes: &'a [u8],
) -> Result<(Entry, &'a [u8]), WireFault>
    ensures reads { Gives (λ x. (x.0, x.1.now)) result (own_entry_at (spelling_by terms.now) bytes.now) }
    ensures spelled { IfOk result (λ x. (bytes.now ≡ entry_bytes (spelling_by terms.now) x.0 ++ x.1.now) × IsEntry (spelling_by terms.now) x.0 × (entry_within any_types x.0 ≡ true)) }
{
    match terms {
        None => read_entry_with(&InFull, alloc, bytes),
        Some(list) => read_entry_with(list, alloc, bytes),
    }
}

#[tactic(auto, unfolding(crate::specs::Reading::own_entry_at))]
fn read_entry_with<'a, S: Terms>(
    terms: &S,
    alloc: Global,
    bytes: &'a [u8],
) -> Result<(Entry, &'a [u8]), WireFault>
    ensures reads { Gives (λ x. (x.0, x.1.now)) result (own_entry_at (S.spelling terms.now) bytes.now) }
    ensures spelled { IfOk result (λ x. (bytes.now ≡ entry_bytes (S.spelling terms.now) x.0 ++ x.1.now) × IsEntry (S.spelling terms.now) x.0 × (entry_within any_types x.0 ≡ true)) }
{
    let (entry, rest) = Entry::read_with(terms, alloc, bytes)?;
    if is_entry_within(ANY_TYPES, &entry) {
        Ok((entry, rest))
    } else {
        Err(WireFault::NotAMessage)
    }
}

/// A drop whose variables are few enough, and the bytes after it. Where there is a list of terms, polynomials are by place.
pub(crate) fn read_drop<'a>(
    alloc: Global,
    terms: &Option<TermList>,
    bytes: &'a [u8],
) -> Result<(Gap, &'a [u8]), WireFault>
    ensures reads { Gives (λ x. (x.0, x.1.now)) result (own_drop_at (spelling_by terms.now) bytes.now) }
    ensures spelled { IfOk result (λ x. (bytes.now ≡ gap_bytes (spelling_by terms.now) x.0 ++ x.1.now) × IsGap (spelling_by terms.now) x.0 × (gap_within x.0 ≡ true)) }
{
    match terms {
        None => read_drop_with(&InFull, alloc, bytes),
        Some(list) => read_drop_with(list, alloc, bytes),
    }
}

#[tactic(auto, unfolding(crate::specs::Reading::own_drop_at))]
fn read_drop_with<'a, S: Terms>(
    terms: &S,
    alloc: Global,
    bytes: &'a [u8],
) -> Result<(Gap, &'a [u8]), WireFault>
    ensures reads { Gives (λ x. (x.0, x.1.now)) result (own_drop_at (S.spelling terms.now) bytes.now) }
    ensures spelled { IfOk result (λ x. (bytes.now ≡ gap_bytes (S.spelling terms.now) x.0 ++ x.1.now) × IsGap (S.spelling terms.now) x.0 × (gap_within x.0 ≡ true)) }
{
    let (gap, rest) = Gap::read_with(terms, alloc, bytes)?;
    if is_drop_within(&gap) {
        Ok((gap, rest))
    } else {
        Err(WireFault::NotAMessage)
    }
}

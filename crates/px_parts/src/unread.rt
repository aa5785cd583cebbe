ghost use Rattle.std.specs.Prelude.{◌≡◌, ◌↔◌, ◌-◌, ◌≤◌, ◌++◌, true, false, length, take, drop, IsErrOf, OnErr, OnOk};
ghost use Rattle.px_spelling.specs.declared.fault.WireFault.TheVariants as fault;
ghost use Rattle.px_parts.specs.declared.next.Next.TheVariants.{Over};
ghost use Rattle.px_parts.specs.declared.skim.Known.TheVariants.{Short, Whole};
ghost use Rattle.px_parts.specs.Stream.{IsStuck};
ghost use Rattle.px_parts.specs.Taking.{IsTakenOn};
ghost use Rattle.px_parts.specs.Skims.{IsSkim, IsEnded};
ghost use Rattle.px_parts.specs.Kept.{part_in, terms_behind, place_in, held_in, kept_after, IsQuiet, IsAnswer, IsSame};

use crate::finding::find;
use crate::next::Next;
use crate::skim::{Known, Skim};
use crate::steps::Given;
use crate::{Part, Taken};
use px_spelling::{TermList, WireFault};
use std::alloc::Global;

/// What comes next, and the bytes from there that were taken.
#[derive(Drop)]
pub(crate) struct Unread {
    pub(crate) next: Next,
    /// The terms of the message, behind its head if it has a list of them.
    pub(crate) terms: Option<TermList>,
    /// Bytes that were taken. The first are of parts that were given.
    pub(crate) held: Vec<u8>,
    pub(crate) start: usize,
    /// How many bytes of the message weren't taken.
    pub(crate) left: u32,
    pub(crate) skim: Skim,
    /// How many bytes the part before had. As many are expected of what comes next.
    pub(crate) expected: usize,
}

/// Takes as much of a piece as is left, and looks for the next part. What comes next is read when as many bytes are there as the part
/// before had, and again when all are.
#[tactic(auto, using(crate::proofs::Answering::no_memory, crate::proofs::Skimming::skim_not_begun, crate::proofs::Holding::is_behind, crate::proofs::Holding::still_within, crate::proofs::Holding::how_many))]
pub(crate) fn take_piece(
    alloc: Global,
    unread: &mut Unread,
    piece: &[u8],
) -> Result<Taken, WireFault>
    requires within { unread.old.start ≤ length unread.old.held.items }
    requires skim { IsSkim (place_in unread.old) (held_in unread.old) unread.old.skim }
    ensures within { unread.new.start ≤ length unread.new.held.items }
    ensures skim { IsSkim (place_in unread.new) (held_in unread.new) unread.new.skim }
    ensures taken { IsTakenOn (place_in unread.old) (held_in unread.old) unread.old.left piece.now result (kept_after result unread.new) }
{
    let count = piece.len().min(unread.left as usize);
    hold(alloc, unread, first(piece, count))?;
    if let Known::Short = look_first(alloc, unread, count) {
        unread.left -= count as u32;
        let behind = count_held(unread);
        return answer(None, unread.next, behind, unread.left, false, count as u64);
    }
    match find(
        alloc,
        unread.next,
        &unread.terms,
        from_start(&unread.held, unread.start),
    ) {
        Ok(found) => {
            let (given, next, rest) = found;
            let behind = rest.len();
            let part = keep_terms(unread, given);
            go_on(unread, next, behind, count as u32);
            let ended = is_wrong(alloc, unread, &part);
            answer(part, next, behind, unread.left, ended, count as u64)
        }
        Err(fault) => {
            take_back(unread, count);
            Err(fault)
        }
    }
}

// So many of the first bytes of a piece.
fn first(piece: &[u8], count: usize) -> &[u8]
    requires { count ≤ length piece.now }
    ensures { result.now ≡ take count piece.now }
{
    &piece[..count]
}

// Bytes from a place on.
fn from_start(held: &Vec<u8>, start: usize) -> &[u8]
    requires { start ≤ length held.now.items }
    ensures { result.now ≡ drop start held.now.items }
{
    &held[start..]
}

// How many bytes of what comes next are held.
#[tactic(auto, using(crate::proofs::Holding::how_many))]
fn count_held(unread: &Unread) -> usize
    ensures { result ≡ length (held_in unread.now) }
{
    unread.held.len().saturating_sub(unread.start)
}

// Takes away so many bytes, those that were put last.
fn take_back(unread: &mut Unread, count: usize)
    ensures held { unread.new.held.items ≡ take (length unread.old.held.items - count) unread.old.held.items }
    ensures start { unread.new.start ≡ unread.old.start }
    ensures next { unread.new.next ≡ unread.old.next }
    ensures terms { unread.new.terms ≡ unread.old.terms }
    ensures left { unread.new.left ≡ unread.old.left }
    ensures begun { unread.new.skim.begun ≡ false }
{
    let kept = unread.held.len().saturating_sub(count);
    unread.held.truncate(kept);
    unread.skim.begun = false;
}

// Puts bytes after those that are held. Those of parts that were given are let go.
#[tactic(auto, using(crate::proofs::Holding::skim_same, crate::proofs::Holding::skim_held, crate::proofs::Holding::held_more))]
fn hold(alloc: Global, unread: &mut Unread, bytes: &[u8]) -> Result<(), WireFault>
    requires within { unread.old.start ≤ length unread.old.held.items }
    requires skim { IsSkim (place_in unread.old) (held_in unread.old) unread.old.skim }
    ensures within { unread.new.start ≤ length unread.new.held.items }
    ensures skim { IsSkim (place_in unread.new) (held_in unread.new) unread.new.skim }
    ensures next { unread.new.next ≡ unread.old.next }
    ensures terms { unread.new.terms ≡ unread.old.terms }
    ensures left { unread.new.left ≡ unread.old.left }
    ensures held { OnOk result (held_in unread.new ≡ held_in unread.old ++ bytes.now) }
    ensures same { OnErr result (held_in unread.new ≡ held_in unread.old) }
    ensures memory { ¬ IsErrOf result fault.NotAMessage }
{
    if bytes.is_empty() {
        return Ok(());
    }
    make_room(alloc, unread, bytes.len())?;
    unread.held.extend_from_slice(bytes)?;
    Ok(())
}

// Makes room for so many bytes more, and for as many again as are held, but for no more than are to come. The bytes of parts that
// were given are let go.
#[tactic(auto, using(crate::proofs::Holding::skim_same))]
fn make_room(alloc: Global, unread: &mut Unread, more: usize) -> Result<(), WireFault>
    requires within { unread.old.start ≤ length unread.old.held.items }
    requires skim { IsSkim (place_in unread.old) (held_in unread.old) unread.old.skim }
    ensures within { unread.new.start ≤ length unread.new.held.items }
    ensures skim { IsSkim (place_in unread.new) (held_in unread.new) unread.new.skim }
    ensures next { unread.new.next ≡ unread.old.next }
    ensures terms { unread.new.terms ≡ unread.old.terms }
    ensures left { unread.new.left ≡ unread.old.left }
    ensures same { held_in unread.new ≡ held_in unread.old }
    ensures memory { ¬ IsErrOf result fault.NotAMessage }
{
    if unread.start > 0 {
        unread.held = Vec::from_slice(alloc, &unread.held[unread.start..])?;
        unread.start = 0;
    }
    let count = unread.held.len();
    if unread.held.capacity().saturating_sub(count) < more {
        let again = count.min(unread.left as usize);
        unread.held.reserve_exact(more.max(again))?;
    }
    Ok(())
}

// Passes over what is held of what comes next.
fn look(unread: &mut Unread) -> Known
    requires within { unread.old.start ≤ length unread.old.held.items }
    ensures same { IsSame unread.old unread.new }
    ensures skim { IsSkim (place_in unread.old) (held_in unread.old) unread.old.skim → IsSkim (place_in unread.old) (held_in unread.old) unread.new.skim }
    ensures short { IsSkim (place_in unread.old) (held_in unread.old) unread.old.skim → result ≡ Short → IsStuck (place_in unread.old) (held_in unread.old) }
    ensures whole { IsSkim (place_in unread.old) (held_in unread.old) unread.old.skim → result ≡ Whole → IsEnded (place_in unread.old) (held_in unread.old) }
{
    unread.skim.pass(from_start(&unread.held, unread.start))
}

// Passes over what is held of what comes next, where so many bytes of it were taken last. As long as others are to come, this begins
// where fewer are held than are expected, so that what isn't whole is seldom read.
fn look_first(alloc: Global, unread: &mut Unread, count: usize) -> Known
    requires within { unread.old.start ≤ length unread.old.held.items }
    ensures same { IsSame unread.old unread.new }
    ensures skim { IsSkim (place_in unread.old) (held_in unread.old) unread.old.skim → IsSkim (place_in unread.old) (held_in unread.old) unread.new.skim }
    ensures short { IsSkim (place_in unread.old) (held_in unread.old) unread.old.skim → result ≡ Short → IsStuck (place_in unread.old) (held_in unread.old) }
{
    let are_few = count < unread.left as usize && count_held(unread) < unread.expected;
    if are_few && !unread.skim.begun {
        unread.skim = Skim::begin(alloc, unread.next, &unread.terms);
    }
    look(unread)
}

// Keeps the terms that were given with a part, and gives the part.
fn keep_terms(unread: &mut Unread, given: Option<Given>) -> Option<Part>
    ensures part { result ≡ part_in given }
    ensures terms { unread.new.terms ≡ terms_behind unread.old.terms given }
    ensures held { unread.new.held.items ≡ unread.old.held.items }
    ensures left { unread.new.left ≡ unread.old.left }
{
    match given {
        None => None,
        Some(Given::Head(part, terms)) => {
            unread.terms = terms;
            Some(part)
        }
        Some(Given::Row(part)) => Some(part),
    }
}

// Goes on with so many bytes behind, where so many more were taken. A part has more bytes than a count, which has four.
#[tactic(auto, using(crate::proofs::Skimming::skim_not_begun))]
fn go_on(unread: &mut Unread, next: Next, behind: usize, count: u32)
    requires behind { behind ≤ length unread.old.held.items }
    requires left { count ≤ unread.old.left }
    ensures within { unread.new.start ≤ length unread.new.held.items }
    ensures skim { IsSkim (place_in unread.new) (held_in unread.new) unread.new.skim }
    ensures next { unread.new.next ≡ next }
    ensures terms { unread.new.terms ≡ unread.old.terms }
    ensures left { unread.new.left ≡ unread.old.left - count }
    ensures held { held_in unread.new ≡ drop (length unread.old.held.items - behind) unread.old.held.items }
{
    let end = unread.held.len() - behind;
    let passed = end.saturating_sub(unread.start);
    if passed > 4 {
        unread.expected = passed;
    }
    unread.next = next;
    unread.start = end;
    unread.left -= count;
    unread.skim.begun = false;
}

// Whether nothing was found, though all bytes are there of what comes next.
fn is_wrong(alloc: Global, unread: &mut Unread, part: &Option<Part>) -> bool
    requires within { unread.old.start ≤ length unread.old.held.items }
    requires skim { IsSkim (place_in unread.old) (held_in unread.old) unread.old.skim }
    ensures same { IsSame unread.old unread.new }
    ensures skim { IsSkim (place_in unread.old) (held_in unread.old) unread.new.skim }
    ensures ended { result ≡ true → IsEnded (place_in unread.old) (held_in unread.old) }
{
    match part {
        Some(_) => false,
        None => is_ended(alloc, unread),
    }
}

// Whether all bytes are there of what comes next, which isn't read yet. From now on they are passed over.
fn is_ended(alloc: Global, unread: &mut Unread) -> bool
    requires within { unread.old.start ≤ length unread.old.held.items }
    ensures same { IsSame unread.old unread.new }
    ensures skim { IsSkim (place_in unread.old) (held_in unread.old) unread.new.skim }
    ensures ended { result ≡ true → IsEnded (place_in unread.old) (held_in unread.old) }
{
    unread.skim = Skim::begin(alloc, unread.next, &unread.terms);
    match look(unread) {
        Known::Whole => true,
        Known::Short | Known::Nothing => false,
    }
}

// The answer, where so many bytes are behind what was found, and so many weren't taken. They are ended where none is missing of
// what comes next.
fn answer(
    part: Option<Part>,
    next: Next,
    behind: usize,
    left: u32,
    ended: bool,
    taken: u64,
) -> Result<Taken, WireFault>
    ensures { IsAnswer part next behind left ended taken result }
{
    match part {
        Some(part) => Ok(Taken { part, taken }),
        None => {
            let part = quiet(next, behind, left, ended)?;
            Ok(Taken { part, taken })
        }
    }
}

// Nothing yet, the end, or that there is none.
fn quiet(next: Next, behind: usize, left: u32, ended: bool) -> Result<Part, WireFault>
    ensures { IsQuiet next behind left ended result }
{
    if left > 0 {
        if ended {
            return Err(WireFault::NotAMessage);
        }
        return Ok(Part::Held);
    }
    if behind == 0 && is_over(next) {
        Ok(Part::End)
    } else {
        Err(WireFault::NotAMessage)
    }
}

fn is_over(next: Next) -> bool
    ensures { result ≡ true ↔ next ≡ Over }
{
    match next {
        Next::Over => true,
        _ => false,
    }
}

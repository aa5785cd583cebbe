ghost use Rattle.std.specs.Prelude.{◌≡◌, ◌≢◌, ◌↔◌, ◌++◌, ℕ, true, take, IfOk, IfSome, IfNone};
ghost use Rattle.px_keep.specs.Items.{head, item_bytes};
ghost use Rattle.px_keep.specs.Reading.{BeginWithNone};
ghost use Rattle.px_keep.specs.Lent.{item_of, IsLent, AsksUnder0, GivesUnder0};

use crate::kept::LentItem;
use px_pool::first_frame;
use px_spelling::WireFault;
use px_terms::NoMemory;
use px_wire::{Said, decode_full};
use std::alloc::Global;

/// What stands after the head, if the bytes begin with it. Takes no memory.
pub(crate) fn behind_head(bytes: &[u8]) -> Option<&[u8]>
    ensures some { IfSome result (λ rest. bytes.now ≡ head ++ rest.now) }
    ensures none { IfNone result (take 8 bytes.now ≢ head) }
{
    let Some((first, rest)) = bytes.split_at_checked(8) else {
        return None;
    };
    if are_same(first, b"PULSEXK1") {
        Some(rest)
    } else {
        None
    }
}

/// Whether these are the same bytes.
pub(crate) fn are_same(a: &[u8], b: &[u8]) -> bool
    ensures { result ≡ true ↔ a.now ≡ b.now }
{
    a == b
}

/// The item that the bytes begin with, if they do, and what stands after it.
pub(crate) fn first_item(
    alloc: Global,
    bytes: &[u8],
) -> Result<Option<(LentItem<'_>, &[u8])>, NoMemory>
    ensures lent { IfOk result (λ o. IfSome o (λ x. IsLent x.0)) }
    ensures some { IfOk result (λ o. IfSome o (λ x. bytes.now ≡ item_bytes (item_of x.0) ++ x.1.now)) }
    ensures none { IfOk result (λ o. IfNone o (BeginWithNone bytes.now)) }
{
    let Some((asked, behind)) = first_frame(bytes) else {
        return Ok(None);
    };
    let Some((given, rest)) = first_frame(behind) else {
        return Ok(None);
    };
    let Some(proc) = asked_proc(alloc, asked)? else {
        return Ok(None);
    };
    if !is_reply(alloc, given)? {
        return Ok(None);
    }
    let item = LentItem { proc, asked, given };
    Ok(Some((item, rest)))
}

// The number of the procedure whose job a message asks for under ticket 0, if it does.
fn asked_proc(alloc: Global, message: &[u8]) -> Result<Option<u32>, NoMemory>
    ensures some { IfOk result (λ o. IfSome o (AsksUnder0 message.now)) }
    ensures none { IfOk result (λ o. IfNone o ((n : ℕ) → ¬ AsksUnder0 message.now n)) }
{
    match decode_full(alloc, message) {
        Ok(Said::Request { job }) => {
            if job.ticket == 0 {
                Ok(Some(job.proc.0))
            } else {
                Ok(None)
            }
        }
        Ok(Said::Reply { .. }) => Ok(None),
        Ok(Said::Large { .. }) => Ok(None),
        Err(WireFault::NotAMessage) => Ok(None),
        Err(WireFault::NoMemory) => Err(NoMemory),
    }
}

// Whether a message is a reply under ticket 0.
fn is_reply(alloc: Global, message: &[u8]) -> Result<bool, NoMemory>
    ensures { IfOk result (λ yes. (yes ≡ true) ↔ GivesUnder0 message.now) }
{
    match decode_full(alloc, message) {
        Ok(Said::Reply { ticket, .. }) => Ok(ticket == 0),
        Ok(Said::Request { .. }) => Ok(false),
        Ok(Said::Large { .. }) => Ok(false),
        Err(WireFault::NotAMessage) => Ok(false),
        Err(WireFault::NoMemory) => Err(NoMemory),
    }
}

ghost use Rattle.std.specs.Prelude.{◌≡◌, ◌≢◌, ◌↔◌, ℕ, ◌+◌, Contains, length, true, false, IfSome, IfNone};
ghost use Rattle.px_base.specs.declared.trace.ProcId.{ProcId as ProcOf};
ghost use Rattle.px_pieces.specs.Desk.{IsHeldUnder};
ghost use Rattle.px_book.specs.Ready.{status_at};
ghost use Rattle.px_book.specs.RollKeeping.{AreHeld};

use px_base::ProcId;
use px_pieces::Status;

/// Where a procedure stands, by a row of statuses.
pub(crate) fn status_in(statuses: &[Option<Status>], proc: ProcId) -> Option<Status>
    ensures { result ≡ status_at statuses.now proc.0 }
{
    let place = proc.0 as usize;
    if place < statuses.len() {
        statuses[place]
    } else {
        None
    }
}

// Whether a procedure is held under a ticket.
fn is_under(statuses: &[Option<Status>], ticket: u64, proc: ProcId) -> bool
    ensures { (result ≡ true) ↔ IsHeldUnder (status_at statuses.now) ticket proc.0 }
{
    match status_in(statuses, proc) {
        Some(Status::Held { ticket: given, .. }) => given == ticket,
        Some(Status::Waiting { .. }) => false,
        Some(Status::Settled { .. }) => false,
        None => false,
    }
}

/// The procedure that is held under a ticket, if one is. All that are held are on the list.
pub(crate) fn held_under(
    statuses: &[Option<Status>],
    held: &[ProcId],
    ticket: u64,
) -> Option<ProcId>
    requires { AreHeld statuses.now held.now }
    ensures some { IfSome result (λ p. IsHeldUnder (status_at statuses.now) ticket p.0) }
    ensures none { IfNone result ((f : ℕ) → ¬ IsHeldUnder (status_at statuses.now) ticket f) }
{
    for proc in held {
        if is_under(statuses, ticket, *proc) {
            return Some(*proc);
        }
    }
    None
}

/// Takes a procedure off a list, once. Takes no memory.
pub(crate) fn release(held: &mut Vec<ProcId>, proc: ProcId)
    requires { Contains held.old.items proc }
    ensures fewer { length held.new.items + 1 ≡ length held.old.items }
    ensures others { (p : ProcOf) → p ≢ proc → Contains held.old.items p → Contains held.new.items p }
{
    for place in 0..held.len() {
        if held[place] == proc {
            held.swap_remove(place);
            return;
        }
    }
    unreachable!()
}

// Whether a procedure is held.
fn is_held(statuses: &[Option<Status>], proc: ProcId) -> bool
    ensures some { result ≡ true → (ticket : ℕ) × IsHeldUnder (status_at statuses.now) ticket proc.0 }
    ensures none { result ≡ false → (ticket : ℕ) → ¬ IsHeldUnder (status_at statuses.now) ticket proc.0 }
{
    match status_in(statuses, proc) {
        Some(Status::Held { .. }) => true,
        Some(Status::Waiting { .. }) => false,
        Some(Status::Settled { .. }) => false,
        None => false,
    }
}

/// Whether some procedure is held. All that are held are on the list.
pub(crate) fn some_held(statuses: &[Option<Status>], held: &[ProcId]) -> bool
    requires { AreHeld statuses.now held.now }
    ensures some { result ≡ true → (ticket f : ℕ) × IsHeldUnder (status_at statuses.now) ticket f }
    ensures none { result ≡ false → (ticket f : ℕ) → ¬ IsHeldUnder (status_at statuses.now) ticket f }
{
    for proc in held {
        if is_held(statuses, *proc) {
            return true;
        }
    }
    false
}

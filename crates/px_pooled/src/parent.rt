ghost use Rattle.std.specs.Prelude.{◌≡◌, ℕ, true, false, length, map, IfOk, OnOk, [], All};
ghost use Rattle.px_pieces.specs.declared.desk.Who.TheVariants.{Parent};
ghost use Rattle.px_pieces.specs.Desk.{IsClaimable};
ghost use Rattle.px_book.specs.Books.{its_desk, roll_in, statuses_in};
ghost use Rattle.px_book.specs.Rolls.{AllSettled};
ghost use Rattle.px_pooled.specs.Making.{AreFew, AreOfParent, IsIdle, IsTurn};

use px_book::{Book, books_go_on, calls_move_one, claimed_jobs_stay};
use px_findings::piece_of;
use px_pieces::{Honesty, Who, desk_histories};
use px_terms::{Domain, NoMemory};
use std::alloc::Global;
use std::sync::ledger::Ledger;

/// Has the parent analyse what it may claim, one procedure after another, until there is none. There are so many procedures.
pub(crate) fn go_on<H: Honesty, L: Ledger>(
    alloc: Global,
    book: &mut Book<H, L>,
    kept: u32,
    domains: &mut Vec<Box<dyn Domain>>,
) -> Result<(), NoMemory>
    requires kept { length book.old.graph ≡ kept }
    requires few { AreFew book.old.sources.bodies }
    requires kinds { map (λ b. number b) domains.old.items ≡ book.old.sources.kinds }
    requires clear { All (λ b. holds b []) domains.old.items }
    ensures sources { OnOk result (book.new.sources ≡ book.old.sources) }
    ensures graph { OnOk result (book.new.graph ≡ book.old.graph) }
    ensures alone { OnOk result (AreOfParent book.old.history → AreOfParent book.new.history) }
    ensures settled { OnOk result (IsIdle book.old → AllSettled (roll_in book.new)) }
    ensures clear { All (λ b. holds b []) domains.new.items }
    ensures kinds { map (λ b. number b) domains.new.items ≡ map (λ b. number b) domains.old.items }
{
    desk_histories();
    claimed_jobs_stay();
    calls_move_one();
    // (each turn publishes a procedure, and none is published twice: so the last turn finds nothing to claim)
    for _turn in 0..u64::from(kept) + 1 {
        if !take_turn(alloc, book, domains)? {
            book.history();
            return Ok(());
        }
    }
    book.history();
    unreachable!()
}

// Has the parent analyse the next procedure that it may claim. Whether there was one.
fn take_turn<H: Honesty, L: Ledger>(
    alloc: Global,
    book: &mut Book<H, L>,
    domains: &mut Vec<Box<dyn Domain>>,
) -> Result<bool, NoMemory>
    requires few { AreFew book.old.sources.bodies }
    requires kinds { map (λ b. number b) domains.old.items ≡ book.old.sources.kinds }
    requires clear { All (λ b. holds b []) domains.old.items }
    ensures none { IfOk result (λ more. more ≡ false → book.new ≡ book.old × ((f : ℕ) → ¬ IsClaimable (its_desk book.old) (statuses_in book.old) Parent f)) }
    ensures one { IfOk result (λ more. more ≡ true → IsTurn book.old book.new) }
    ensures clear { All (λ b. holds b []) domains.new.items }
    ensures kinds { map (λ b. number b) domains.new.items ≡ map (λ b. number b) domains.old.items }
{
    books_go_on();
    claimed_jobs_stay();
    calls_move_one();
    let Some(job) = book.claim(Who::Parent)? else {
        return Ok(false);
    };
    let ticket = job.ticket;
    let piece = piece_of(alloc, job, domains)?;
    match book.publish(ticket, piece) {
        Ok(_) => Ok(true),
        Err(_) => unreachable!(),
    }
}

ghost use Rattle.std.specs.Prelude.{◌≡◌, ◌+◌, ◌∷◌, ◌<◌, ◌^◌, []};
ghost use Rattle.px_book.specs.Tallies.{by_worker, by_parent, claimant, losses, published_by};
ghost use Rattle.px_pooled.specs.Words.{of_workers, of_parent};

use px_pieces::{Event, Who};

/// How many publications and losses a history has.
#[derive(Clone, Copy, Debug, PartialEq, Eq)]
pub struct Tally {
    /// Publications of what a worker had claimed.
    pub by_workers: u64,
    /// Publications of what the parent had claimed.
    pub by_parent: u64,
    pub lost: u64,
}

/// The tally of a history. Takes no memory; one look at each event, and one more at its claim.
pub fn tally_of(history: &[Event]) -> Tally
    ensures by_workers { result.by_workers ≡ of_workers history.now }
    ensures by_parent { result.by_parent ≡ of_parent history.now }
    ensures lost { result.lost ≡ losses history.now }
{
    let mut counted = Tally {
        by_workers: 0,
        by_parent: 0,
        lost: 0,
    };
    for event in history {
        count(&mut counted, history, event);
    }
    counted
}

// Counts one event of the history.
fn count(counted: &mut Tally, history: &[Event], event: &Event)
    requires by_workers { counted.old.by_workers + 1 < 2 ^ 64 }
    requires by_parent { counted.old.by_parent + 1 < 2 ^ 64 }
    requires lost { counted.old.lost + 1 < 2 ^ 64 }
    ensures by_workers { counted.new.by_workers ≡ counted.old.by_workers + published_by by_worker history.now (event.now ∷ []) }
    ensures by_parent { counted.new.by_parent ≡ counted.old.by_parent + published_by by_parent history.now (event.now ∷ []) }
    ensures lost { counted.new.lost ≡ counted.old.lost + losses (event.now ∷ []) }
{
    match *event {
        Event::Claim(_, _) => {}
        Event::Lose(_, _) => counted.lost += 1,
        Event::Publish(ticket) => match claimant(history, ticket) {
            Some(Who::Worker(_)) => counted.by_workers += 1,
            Some(Who::Parent) => counted.by_parent += 1,
            None => {}
        },
    }
}

// Who claimed under a ticket.
fn claimant(history: &[Event], ticket: u64) -> Option<Who>
    ensures { result ≡ claimant history.now ticket }
{
    match history.get(ticket as usize) {
        Some(Event::Claim(who, _)) => Some(*who),
        Some(Event::Publish(_)) => None,
        Some(Event::Lose(_, _)) => None,
        None => None,
    }
}

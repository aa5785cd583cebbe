ghost use Rattle.px_leak.specs.Laws.{LossesAreExact, LeaksAreOfEntries, LeaksAreRight};
ghost use Rattle.px_leak.specs.WorkedLeaks.{WorkedLeaks};

use px_manifest::{asking_nothing_is_taken, tests_decide};

/// A law: what is reached is the least such set, and what an entry loses is lost, where it is true of its own values.
pub fn losses_are_exact()
    ensures { LossesAreExact }
{
    tests_decide();
}

/// A law: each leak that is told is that of an entry, at the site of a block that it loses.
pub fn leaks_are_of_entries()
    ensures { LeaksAreOfEntries }
{}

/// A law: from every calling state some call takes the path of an entry that loses blocks, returns, and has lost as many, where
/// the entry is all that a derivation makes it.
pub fn leaks_are_right()
    ensures { LeaksAreRight }
{
    tests_decide();
    asking_nothing_is_taken();
}

/// Which leaks are told, worked by hand.
pub fn worked_leaks()
    ensures { WorkedLeaks }
{}

ghost use Rattle.px_book.specs.Tallies.{DeskTallies};
ghost use Rattle.px_book.specs.Laws.{BooksGoOn, CallsMoveOne, ClaimedJobsStay, HonestBooks};

/// In each legal history, publications and losses are of workers or of the parent, as the claims that they follow.
pub fn desk_tallies()
    ensures { DeskTallies }
{}

/// Each call leaves a book as it is or makes it later.
pub fn books_go_on()
    ensures { BooksGoOn }
{}

/// Each call moves its own procedure by one step, and no other.
pub fn calls_move_one()
    ensures { CallsMoveOne }
{}

/// While a procedure is held, its job is the one that its claim gave.
pub fn claimed_jobs_stay()
    ensures { ClaimedJobsStay }
{}

/// Honest pieces give the tables that one process makes.
pub fn honest_books_are_one()
    ensures { HonestBooks }
{}

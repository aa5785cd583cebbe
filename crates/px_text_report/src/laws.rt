ghost use Rattle.px_text_report.specs.Laws.{BugsAreOfEntries};
ghost use Rattle.px_text_report.specs.WorkedBugs.{WorkedBugs};

/// The bugs of a report are those that the entries of its tables have and that aren't inner, of each kind and site one.
pub fn bugs_are_of_entries()
    ensures { BugsAreOfEntries }
{}

/// Which bugs are inner, worked by hand.
pub fn worked_bugs()
    ensures { WorkedBugs }
{}

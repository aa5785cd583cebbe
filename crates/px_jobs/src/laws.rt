ghost use Rattle.px_jobs.specs.Laws.{JobsStay, SameJobs};

/// A procedure has one job under a ticket, whatever tables others have than those that it calls below.
pub fn jobs_of_procedures()
    ensures stay { JobsStay }
    ensures same { SameJobs }
{}

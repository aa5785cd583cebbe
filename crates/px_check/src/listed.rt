ghost use Rattle.std.specs.Prelude.{◌≡◌, IfOk};
ghost use Rattle.px_callgraph.specs.JobTree.{job_tree};
ghost use Rattle.px_callgraph.specs.Alternatives.{Walk as WalkOf};
ghost use Rattle.px_callgraph.specs.Derivations as spec;
ghost use Rattle.px_walks.specs.Walks.{walk_of, at_walk};
ghost use Rattle.px_check.specs.Leading.{leads_at};

use px_callgraph::{Job, Way};
use px_steps::Led;
use px_terms::NoMemory;
use px_walks::{Walk, act_in, is_listed};
use std::alloc::Global;

// What an act leads to where the path goes on or ends.
fn still_there(led: Option<Led>) -> Option<Led>
    ensures { (w : WalkOf) → leads_at w result ≡ spec.still_there (at_walk led w) }
{
    match led {
        Some(Led::Goes) => Some(Led::Goes),
        Some(Led::Ends(exit, given)) => Some(Led::Ends(exit, given)),
        Some(Led::Cut(_)) => None,
        None => None,
    }
}

/// Takes a way, if it is listed and the path goes on there or ends. The walk is changed in its place.
pub(crate) fn take_listed<'a>(
    alloc: Global,
    job: &'a Job,
    walk: &mut Walk<'a>,
    way: Way,
) -> Result<Option<Led>, NoMemory>
    ensures { IfOk result (λ led. leads_at (walk_of walk.new) led ≡ spec.take_listed (job_tree job.now) (walk_of walk.old) way) }
{
    if is_listed(alloc, job, walk, way)? {
        Ok(still_there(act_in(alloc, job, walk, way)?))
    } else {
        Ok(None)
    }
}

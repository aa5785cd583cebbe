ghost use Rattle.px_serving.specs.Laws.{WholeRequestsAreServed};

use px_worker::whole_inputs;

/// Whole requests are served, but for want of memory and for reads and writes that fail.
pub fn whole_requests_are_served()
    ensures { WholeRequestsAreServed }
{
    whole_inputs();
}

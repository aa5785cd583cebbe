ghost use Rattle.std.specs.Prelude.{◌≡◌, ◌⊎◌, ◌≤◌, length, IfOk, IsErrOf};
ghost use Rattle.px_callgraph.specs.JobTree.{job_tree};
ghost use Rattle.px_frames.specs.Frames.{frame_of, most_bytes};
ghost use Rattle.px_pieces.specs.declared.desk.Lost.{Lost as ALost};
ghost use Rattle.px_pool.specs.Outcomes.{request_of, IsUnasked};

use px_callgraph::Job;
use px_frames::{FrameFault, frame};
use px_pieces::Lost;
use px_wire::encode_request;
use std::alloc::Global;

/// The frame of the request to analyse a job, in a version.
pub(crate) fn request_frame(alloc: Global, job: &Job, version: u8) -> Result<Vec<u8>, Lost>
    requires { (version ≡ 1) ⊎ (version ≡ 2) }
    ensures frame { IfOk result (λ f. f.items ≡ frame_of (request_of version (job_tree job.now))) }
    ensures short { IfOk result (λ f. length (request_of version (job_tree job.now)) ≤ most_bytes) }
    ensures unasked { (why : ALost) → IsErrOf result why → IsUnasked version (job_tree job.now) why }
{
    let Ok(message) = encode_request(alloc, job, version) else {
        return Err(Lost::NoMemory);
    };
    match frame(alloc, &message) {
        Ok(framed) => Ok(framed),
        Err(FrameFault::TooLong(_)) => Err(Lost::Large),
        Err(FrameFault::NoMemory) => Err(Lost::NoMemory),
    }
}

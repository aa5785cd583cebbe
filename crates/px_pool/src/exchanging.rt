ghost use Rattle.std.specs.Prelude.{◌≡◌, ◌⊎◌, IfOk, IsErrOf, OnOk};
ghost use Rattle.px_callgraph.specs.JobTree.{job_tree};
ghost use Rattle.px_pieces.specs.declared.desk.Lost.{Lost as ALost};
ghost use Rattle.px_pieces.specs.Pieces.{table_from};
ghost use Rattle.px_pool.specs.Talks.{Talk, Passes};
ghost use Rattle.px_pool.specs.Words.{IsInStep};
ghost use Rattle.px_pool.specs.Outcomes.{IsAnswered, IsCauseOf, CountsFaults};

use crate::link::Link;
use crate::replies::ask;
use crate::requests::request_frame;
use px_callgraph::{Job, copy_job};
use px_pieces::{Lost, Piece};
use px_wire::is_request_in_range;
use std::alloc::Global;
use std::sync::Wait;

/// Asks a worker for a job in a version, and gives the piece of its reply, each entry checked when its derivation comes. It keeps no
/// copy of the reply's bytes. A reply in the other version is none: what a worker doesn't answer in this version isn't asked
/// for in the other.
///
/// The link has to stand where each exchange so far was answered, and stands there again where a piece is given. After an
/// error it may not be used for another job. It may wait for the worker for ever.
pub fn exchange<R: Wait, K: Link>(
    rt: &R,
    alloc: Global,
    link: &mut K,
    job: &Job,
    version: u8,
) -> Result<Piece<K::Word>, Lost>
    requires step { IsInStep (K.told link.old) }
    requires version { (version ≡ 1) ⊎ (version ≡ 2) }
    ensures job { IfOk result (λ p. job_tree p.job ≡ job_tree job.now) }
    ensures answered { IfOk result (λ p. (x : Talk) × Passes (K.told link.old) (K.told link.new) x × IsAnswered version (job_tree job.now) x (table_from p.entries p.drops)) }
    ensures word { IfOk result (λ p. K.Word.says (job_tree job.now) (table_from p.entries p.drops)) }
    ensures step { OnOk result (IsInStep (K.told link.new)) }
    ensures cause { (why : ALost) → IsErrOf result why → (x : Talk) × Passes (K.told link.old) (K.told link.new) x × IsCauseOf version (job_tree job.now) x why }
    ensures faults { CountsFaults (K.count link.old) (K.count link.new) result }
{
    let framed = request_frame(alloc, job, version)?;
    let answer = ask(rt, alloc, link, &framed, job, version)?;
    // A worker that keeps its word replies to no bytes but those of a request. What a liar replies to others isn't taken.
    if !is_request_in_range(job) {
        return Err(Lost::NoMemory);
    }
    let Ok(copy) = copy_job(alloc, job) else {
        return Err(Lost::NoMemory);
    };
    Ok(Piece::new(copy, answer.entries, answer.drops))
}

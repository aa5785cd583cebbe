ghost use Rattle.std.specs.Prelude.{◌≡◌};
ghost use Rattle.std.specs.List.{list_all};
ghost use Rattle.px_callgraph.specs.JobTree.{job_tree};
ghost use Rattle.px_wire.specs.TermRanges.{block_type_within};
ghost use Rattle.px_wire.specs.JobRanges.{callee_within, job_within};

use crate::body_ranges::is_body_within;
use crate::rising_kinds::{do_callees_rise, do_kinds_rise};
use crate::table_ranges::is_table_within;
use crate::term_ranges::is_block_type_within;
use px_base::ProcId;
use px_callgraph::{Callee, Job};
use px_terms::BlockType;

/// Whether the slots, variables and block types that a job names are there, and its callees and kinds rise.
pub(crate) fn is_job_within(job: &Job) -> bool
    ensures { result ≡ job_within (job_tree job.now) }
{
    let types = job.types.len();
    is_body_within(types, &job.body)
        && are_block_types_within(types, job.types.as_slice())
        && are_callees_within(types, job.callees.as_slice())
        && do_callees_rise(job.callees.as_slice())
        && do_kinds_rise(job.kinds.as_slice())
}

fn are_block_types_within(types: usize, all: &[BlockType]) -> bool
    ensures { result ≡ list_all (block_type_within types) all.now }
{
    all.iter().all(|t| is_block_type_within(types, t))
}

fn are_callees_within(types: usize, callees: &[(ProcId, Callee)]) -> bool
    ensures { result ≡ list_all (λ c. callee_within types c.1) callees.now }
{
    callees.iter().all(|c| is_callee_within(types, &c.1))
}

fn is_callee_within(types: usize, callee: &Callee) -> bool
    ensures { result ≡ callee_within types callee.now }
{
    match callee {
        Callee::Table(table) => is_table_within(types, table),
        Callee::Cycle | Callee::LeftOut | Callee::Unknown => true,
    }
}

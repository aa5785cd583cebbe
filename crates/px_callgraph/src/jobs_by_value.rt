ghost use Rattle.std.specs.Prelude.{◌≡◌, ◌↔◌, true, IfOk};
ghost use Rattle.px_callgraph.specs.JobTree.{job_tree};

use crate::{Callee, Job};
use px_base::ProcId;
use px_core::{copy_body, equal_bodies};
use px_terms::{ByValue, Items, NoMemory};
use std::alloc::Global;

/// A job that equals this one.
pub fn copy_job(alloc: Global, job: &Job) -> Result<Job, NoMemory>
    ensures { IfOk result (λ copy. job_tree copy ≡ job_tree job.now) }
{
    Ok(Job {
        proc: job.proc,
        body: copy_body(alloc, &job.body)?,
        types: job.types.copy(alloc)?,
        callees: copy_callees(alloc, job.callees.as_slice())?,
        limits: job.limits,
        kinds: Items::from_slice(alloc, job.kinds.as_slice())?,
        ticket: job.ticket,
    })
}

/// Whether two jobs are of one procedure and one ticket, and agree in all that a table depends on. Takes no memory.
pub fn equal_jobs(left: &Job, right: &Job) -> bool
    ensures { result ≡ true ↔ job_tree left.now ≡ job_tree right.now }
{
    left.proc == right.proc
        && left.ticket == right.ticket
        && left.limits == right.limits
        && left.kinds.as_slice() == right.kinds.as_slice()
        && left.types.equals(&right.types)
        && are_same_callees(left.callees.as_slice(), right.callees.as_slice())
        && equal_bodies(&left.body, &right.body)
}

impl ByValue for Callee {
    fn copy_in(&self, alloc: Global) -> Result<Callee, NoMemory> {
        Ok(match self {
            Callee::Table(table) => Callee::Table(table.copy_in(alloc)?),
            Callee::Cycle => Callee::Cycle,
            Callee::LeftOut => Callee::LeftOut,
            Callee::Unknown => Callee::Unknown,
        })
    }

    fn equals(&self, other: &Callee) -> bool {
        match (self, other) {
            (Callee::Table(a), Callee::Table(b)) => a.equals(b),
            (Callee::Cycle, Callee::Cycle)
            | (Callee::LeftOut, Callee::LeftOut)
            | (Callee::Unknown, Callee::Unknown) => true,
            _ => false,
        }
    }
}

fn copy_callees(
    alloc: Global,
    callees: &[(ProcId, Callee)],
) -> Result<Items<(ProcId, Callee)>, NoMemory>
    ensures { IfOk result (λ copy. copy ≡ callees.now) }
{
    let mut copy = Items::new(alloc);
    for (proc, callee) in callees {
        copy.push((*proc, callee.copy_in(alloc)?))?;
    }
    Ok(copy)
}

fn are_same_callees(a: &[(ProcId, Callee)], b: &[(ProcId, Callee)]) -> bool
    ensures { result ≡ true ↔ a.now ≡ b.now }
{
    if a.len() != b.len() {
        return false;
    }
    for i in 0..a.len() {
        if !is_same_pair(&a[i], &b[i]) {
            return false;
        }
    }
    true
}

fn is_same_pair(a: &(ProcId, Callee), b: &(ProcId, Callee)) -> bool
    ensures { result ≡ true ↔ a.now ≡ b.now }
{
    a.0 == b.0 && a.1.equals(&b.1)
}

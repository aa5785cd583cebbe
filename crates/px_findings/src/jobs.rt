ghost use Rattle.std.specs.Prelude.{◌≡◌, ◌<◌, ◌≤◌, Some, length, map, IfOk, OnOk, [], All};
ghost use Rattle.px_base.specs.Bounds.{most_parameters};
ghost use Rattle.px_core.specs.BodyTree.{body_tree};
ghost use Rattle.px_callgraph.specs.JobTree.{job_tree};
ghost use Rattle.px_symexec.specs.One.{Work};
ghost use Rattle.px_jobs.specs.Plans.{IsPlan, IsReady, tables_at};
ghost use Rattle.px_findings.specs.Jobs.{IsAnalysed, IsShared, IsAnalysedOf};

use crate::checks::check_all;
use crate::exploration::{Analysed, Exploration};
use crate::plan::Plan;
use px_base::{Limits, ProcId};
use px_callgraph::Job;
use px_core::Body;
use px_entry::Table;
use px_explore::{Counted, analyse_and_count};
use px_jobs::callees_of;
use px_pieces::{Honesty, Part, Piece};
use px_terms::{BlockType, Domain, Items, NoMemory};
use std::alloc::Global;
use std::mem::replace;

/// What the jobs of a program's procedures share. Its lists are lent to one job after another, and not copied for each.
#[derive(Drop)]
pub(crate) struct Shared {
    pub(crate) types: Items<BlockType>,
    pub(crate) limits: Limits,
    /// The kinds of the domains.
    pub(crate) kinds: Items<u8>,
}

// The table of a job, each entry checked, and how it was found.
fn analysed(
    alloc: Global,
    job: &Job,
    domains: &mut Vec<Box<dyn Domain>>,
) -> Result<Analysed, NoMemory>
    requires parameters { length job.now.body.parameters ≤ most_parameters }
    requires kinds { map (λ b. number b) domains.old.items ≡ job.now.kinds }
    requires clear { All (λ b. holds b []) domains.old.items }
    ensures analysed { IfOk result (λ a. IsAnalysed (job_tree job.now) a.part a.exploration) }
    ensures clear { All (λ b. holds b []) domains.new.items }
    ensures kinds { map (λ b. number b) domains.new.items ≡ map (λ b. number b) domains.old.items }
{
    let Counted {
        table,
        derivations,
        live,
    } = analyse_and_count(alloc, job, domains)?;
    let Table { entries, drops } = table;
    let checked = check_all(alloc, job, entries, derivations.as_slice())?;
    Ok(Analysed {
        part: Part::Tabled { checked, drops },
        exploration: Exploration { derivations, live },
    })
}

/// The answer to a job, with the help of domains of its kinds: its table, each entry checked by its derivation. It rests on nobody's
/// word.
pub fn piece_of<H: Honesty>(
    alloc: Global,
    job: Job,
    domains: &mut Vec<Box<dyn Domain>>,
) -> Result<Piece<H>, NoMemory>
    requires parameters { length job.body.parameters ≤ most_parameters }
    requires kinds { map (λ b. number b) domains.old.items ≡ job.kinds }
    requires clear { All (λ b. holds b []) domains.old.items }
    ensures job { IfOk result (λ p. p.job ≡ job) }
    ensures clear { All (λ b. holds b []) domains.new.items }
    ensures kinds { map (λ b. number b) domains.new.items ≡ map (λ b. number b) domains.old.items }
{
    let Analysed { part, .. } = analysed(alloc, &job, domains)?;
    match part {
        Part::Tabled { checked, drops } => Ok(Piece::new(job, checked, drops)),
        Part::LeftOut => unreachable!(),
    }
}

/// The part of the kept procedure with this number and this body, which isn't too large, where all that it calls below
/// have theirs, and how it was found. After `NoMemory` the lists that are shared may be gone.
pub(crate) fn part_of(
    alloc: Global,
    plan: &Plan,
    parts: &[Part],
    proc: ProcId,
    body: Body,
    shared: &mut Shared,
    domains: &mut Vec<Box<dyn Domain>>,
) -> Result<Analysed, NoMemory>
    requires proc { proc.0 < plan.now.kept }
    requires parts { length parts.now ≡ plan.now.kept }
    requires parameters { length body.parameters ≤ most_parameters }
    requires kinds { map (λ b. number b) domains.old.items ≡ shared.old.kinds }
    requires clear { All (λ b. holds b []) domains.old.items }
    ensures analysed { IfOk result (λ a. (w : Work) → IsPlan w plan.now.graph plan.now.out.items → IsShared w shared.old → IsReady w parts.now proc.0 → w.bodies proc.0 ≡ Some (body_tree body) → IsAnalysedOf w (tables_at parts.now) proc.0 a.part a.exploration) }
    ensures shared { OnOk result (shared.new ≡ shared.old) }
    ensures clear { All (λ b. holds b []) domains.new.items }
    ensures kinds { map (λ b. number b) domains.new.items ≡ map (λ b. number b) domains.old.items }
{
    let callees = callees_of(alloc, &plan.graph, &plan.out, parts, proc)?;
    let job = Job {
        proc,
        body,
        types: replace(&mut shared.types, Items::new(alloc)),
        callees,
        limits: shared.limits,
        kinds: replace(&mut shared.kinds, Items::new(alloc)),
        ticket: 0,
    };
    let analysed = analysed(alloc, &job, domains)?;
    shared.types = job.types;
    shared.kinds = job.kinds;
    Ok(analysed)
}

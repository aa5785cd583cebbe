ghost use Rattle.std.specs.Prelude.{◌≡◌, ◌+◌, ◌<◌, ◌≤◌, ◌^◌, [], All, length, map, IfOk, OnOk};
ghost use Rattle.std.specs.List.{AllByRecursion};
ghost use Rattle.px_base.specs.Bounds.{most_parameters};
ghost use Rattle.px_core.specs.declared.body.Body.{Body as ABody};
ghost use Rattle.px_callgraph.specs.CallGraphs.{bodies_in, IsGraphOf};
ghost use Rattle.px_callgraph.specs.JobTree.{job_tree};
ghost use Rattle.px_jobs.specs.Sources.{source_work};
ghost use Rattle.px_keep.specs.Lent.{item_of, AreLent};
ghost use Rattle.px_keep.specs.Looking.{AreKeys};
ghost use Rattle.px_keep.specs.Making.{AreMade, CanBeMade};
ghost use Rattle.px_keep.specs.Reused.{IsAnswer, IsReused, trues};

use crate::kept::{Kept, LentItem};
use crate::looking::{first_good, keys_of};
use crate::ordering::{job_at, order_of};
use crate::progress::{Progress, TableBy, no_progress, put};
use px_base::{Limits, ProcId};
use px_callgraph::{Graph, Job};
use px_chains::Chains;
use px_core::Body;
use px_findings::{Turn, piece_of};
use px_jobs::Sources;
use px_pieces::{Findings, Honest, Piece};
use px_pool::Answer;
use px_terms::{BlockType, Domain, Items, NoMemory};
use std::alloc::Global;

/// What is found with the help of kept items, and how many procedures have an item that is good for them.
#[derive(Drop)]
pub struct Reused {
    pub findings: Findings,
    pub used: u32,
}

/// What is found out of the kept procedures with these bodies, within these limits, with the help of these domains and of
/// kept items. Those that are too large have an empty body, and stand in `out` with the functions that are left out and not
/// kept.
///
/// An item is compared with one job at most: that of its own procedure.
pub fn reuse(
    alloc: Global,
    bodies: Items<Body>,
    graph: &Graph,
    types: Items<BlockType>,
    limits: Limits,
    kinds: Items<u8>,
    kept: u32,
    out: Items<ProcId>,
    items: &Kept<'_>,
    domains: &mut Vec<Box<dyn Domain>>,
) -> Result<Reused, NoMemory>
    requires bodies { length bodies ≡ kept }
    requires kept { length graph.now ≡ kept }
    requires graph { IsGraphOf (bodies_in bodies) graph.now }
    requires few { AllByRecursion (λ (b : ABody). length b.parameters ≤ most_parameters) bodies }
    requires kinds { map (λ b. number b) domains.old.items ≡ kinds }
    requires clear { All (λ b. holds b []) domains.old.items }
    ensures reused { IfOk result (λ r. IsReused (source_work (record { bodies = bodies; types = types; limits = limits; kinds = kinds; out = out }) kept) items.now r.findings r.used) }
    ensures events { IfOk result (λ r. r.findings.events ≡ []) }
    ensures clear { All (λ b. holds b []) domains.new.items }
    ensures kinds { map (λ b. number b) domains.new.items ≡ map (λ b. number b) domains.old.items }
{
    let order = order_of(alloc, graph, kept, out.as_slice())?;
    let sources = Sources::new(alloc, bodies, types, limits, kinds, out)?;
    let lent = items.lent();
    let keys = keys_of(alloc, lent, kept)?;
    let mut progress = no_progress(alloc, kept)?;
    for place in 0..order.len() {
        make_part(
            alloc,
            &sources,
            graph,
            lent,
            &keys,
            kept,
            &order,
            place,
            &mut progress,
            domains,
        )?;
    }
    let used = trues_in(&progress.uses);
    Ok(Reused {
        findings: Findings::new(Items::from_vec(progress.parts), Items::new(alloc)),
        used,
    })
}

// Makes the part of the procedure whose turn is at this place, where those before it have theirs.
fn make_part(
    alloc: Global,
    sources: &Sources,
    graph: &Graph,
    items: &[LentItem<'_>],
    keys: &Chains,
    kept: u32,
    order: &[Turn],
    place: usize,
    progress: &mut Progress,
    domains: &mut Vec<Box<dyn Domain>>,
) -> Result<(), NoMemory>
    requires order { CanBeMade sources.now graph.now kept order.now }
    requires place { place < length order.now }
    requires kinds { map (λ b. number b) domains.old.items ≡ sources.now.kinds }
    requires clear { All (λ b. holds b []) domains.old.items }
    requires lent { AreLent items.now }
    requires keys { AreKeys items.now kept keys.now }
    requires made { AreMade (IsAnswer (map item_of items.now)) (source_work sources.now kept) order.now progress.old.parts.items progress.old.uses.items place }
    ensures made { OnOk result (AreMade (IsAnswer (map item_of items.now)) (source_work sources.now kept) order.now progress.new.parts.items progress.new.uses.items (place + 1)) }
    ensures clear { All (λ b. holds b []) domains.new.items }
    ensures kinds { map (λ b. number b) domains.new.items ≡ map (λ b. number b) domains.old.items }
{
    let job = job_at(alloc, sources, graph, kept, order, place, &progress.parts)?;
    let proc = job.proc;
    let found = answered(alloc, items, keys, kept, job, domains)?;
    put(progress, proc, found);
    Ok(())
}

// The answer of the first item that is good for a job, or the job's own table.
fn answered(
    alloc: Global,
    items: &[LentItem<'_>],
    keys: &Chains,
    kept: u32,
    job: Job,
    domains: &mut Vec<Box<dyn Domain>>,
) -> Result<TableBy, NoMemory>
    requires lent { AreLent items.now }
    requires keys { AreKeys items.now kept keys.now }
    requires proc { job.proc.0 < kept }
    requires ticket { job.ticket ≡ 0 }
    requires parameters { length job.body.parameters ≤ most_parameters }
    requires kinds { map (λ b. number b) domains.old.items ≡ job.kinds }
    requires clear { All (λ b. holds b []) domains.old.items }
    ensures answer { IfOk result (λ x. IsAnswer (map item_of items.now) (job_tree job) x.used x.checked x.drops) }
    ensures clear { All (λ b. holds b []) domains.new.items }
    ensures kinds { map (λ b. number b) domains.new.items ≡ map (λ b. number b) domains.old.items }
{
    if let Some(Answer { entries, drops }) = first_good(alloc, items, keys, kept, &job)? {
        return Ok(TableBy {
            checked: entries,
            drops,
            used: true,
        });
    }
    let piece: Piece<Honest> = piece_of(alloc, job, domains)?;
    let (_job, checked, drops) = piece.into_parts();
    Ok(TableBy {
        checked,
        drops,
        used: false,
    })
}

// How many of these are true.
fn trues_in(uses: &[bool]) -> u32
    requires { length uses.now < 2 ^ 32 }
    ensures { result ≡ trues uses.now }
{
    let mut count = 0;
    for used in uses {
        if *used {
            count += 1;
        }
    }
    count
}

ghost use Rattle.std.specs.Prelude.{◌≡◌, ◌+◌, ◌<◌, ◌≤◌, [], All, length, map, IfOk, OnOk};
ghost use Rattle.std.specs.List.{AllByRecursion};
ghost use Rattle.px_base.specs.Bounds.{most_parameters};
ghost use Rattle.px_core.specs.declared.body.Body.{Body as ABody};
ghost use Rattle.px_callgraph.specs.CallGraphs.{bodies_in, IsGraphOf};
ghost use Rattle.px_callgraph.specs.JobTree.{job_tree};
ghost use Rattle.px_jobs.specs.Sources.{source_work};
ghost use Rattle.px_explore.specs.Derived.{AreDerived};
ghost use Rattle.px_pieces.specs.Pieces.{AreOf, table_from};
ghost use Rattle.px_wire.specs.Messages.{said_tree};
ghost use Rattle.px_keep.specs.Keeping.{IsOwn, IsOfReply, IsWritten, KeepSoFar, KeepsWork};
ghost use Rattle.px_keep.specs.Making.{AreMade, CanBeMade};

use crate::ordering::{job_at, order_of};
use crate::progress::{Progress, TableBy, no_progress, put};
use crate::writing::{put_head, put_item};
use px_base::{Limits, ProcId};
use px_callgraph::{Graph, Job};
use px_core::Body;
use px_entry::{Derivation, Table};
use px_explore::{Analysis, analyse};
use px_findings::{Turn, check_all};
use px_jobs::Sources;
use px_terms::{BlockType, Domain, Items, NoMemory};
use px_wire::Said;
use std::alloc::Global;

/// The bytes that keep what one process finds out of the kept procedures with these bodies, within these limits, with the help of
/// these domains. Those that are too large have an empty body, and stand in `out` with the functions that are left out and
/// not kept.
pub fn keep(
    alloc: Global,
    bodies: Items<Body>,
    graph: &Graph,
    types: Items<BlockType>,
    limits: Limits,
    kinds: Items<u8>,
    kept: u32,
    out: Items<ProcId>,
    domains: &mut Vec<Box<dyn Domain>>,
) -> Result<Vec<u8>, NoMemory>
    requires bodies { length bodies ≡ kept }
    requires kept { length graph.now ≡ kept }
    requires graph { IsGraphOf (bodies_in bodies) graph.now }
    requires few { AllByRecursion (λ (b : ABody). length b.parameters ≤ most_parameters) bodies }
    requires kinds { map (λ b. number b) domains.old.items ≡ kinds }
    requires clear { All (λ b. holds b []) domains.old.items }
    ensures keeps { IfOk result (λ bytes. KeepsWork (source_work (record { bodies = bodies; types = types; limits = limits; kinds = kinds; out = out }) kept) bytes.items) }
    ensures clear { All (λ b. holds b []) domains.new.items }
    ensures kinds { map (λ b. number b) domains.new.items ≡ map (λ b. number b) domains.old.items }
{
    let order = order_of(alloc, graph, kept, out.as_slice())?;
    let sources = Sources::new(alloc, bodies, types, limits, kinds, out)?;
    let mut progress = no_progress(alloc, kept)?;
    let mut bytes = Vec::new(alloc);
    put_head(&mut bytes)?;
    for place in 0..order.len() {
        keep_part(
            alloc,
            &sources,
            graph,
            kept,
            &order,
            place,
            &mut progress,
            &mut bytes,
            domains,
        )?;
    }
    Ok(bytes)
}

// Makes the part of the procedure whose turn is at this place, where those before it have theirs, and writes its item.
fn keep_part(
    alloc: Global,
    sources: &Sources,
    graph: &Graph,
    kept: u32,
    order: &[Turn],
    place: usize,
    progress: &mut Progress,
    bytes: &mut Vec<u8>,
    domains: &mut Vec<Box<dyn Domain>>,
) -> Result<(), NoMemory>
    requires order { CanBeMade sources.now graph.now kept order.now }
    requires place { place < length order.now }
    requires kinds { map (λ b. number b) domains.old.items ≡ sources.now.kinds }
    requires clear { All (λ b. holds b []) domains.old.items }
    requires made { AreMade IsOwn (source_work sources.now kept) order.now progress.old.parts.items progress.old.uses.items place }
    requires keeps { KeepSoFar (source_work sources.now kept) order.now progress.old.parts.items bytes.old.items place }
    ensures made { OnOk result (AreMade IsOwn (source_work sources.now kept) order.now progress.new.parts.items progress.new.uses.items (place + 1)) }
    ensures keeps { OnOk result (KeepSoFar (source_work sources.now kept) order.now progress.new.parts.items bytes.new.items (place + 1)) }
    ensures clear { All (λ b. holds b []) domains.new.items }
    ensures kinds { map (λ b. number b) domains.new.items ≡ map (λ b. number b) domains.old.items }
{
    let job = job_at(alloc, sources, graph, kept, order, place, &progress.parts)?;
    let found = written(alloc, &job, bytes, domains)?;
    put(progress, job.proc, found);
    Ok(())
}

// Analyses a job under ticket 0, and writes its item.
fn written(
    alloc: Global,
    job: &Job,
    bytes: &mut Vec<u8>,
    domains: &mut Vec<Box<dyn Domain>>,
) -> Result<TableBy, NoMemory>
    requires ticket { job.now.ticket ≡ 0 }
    requires parameters { length job.now.body.parameters ≤ most_parameters }
    requires kinds { map (λ b. number b) domains.old.items ≡ job.now.kinds }
    requires clear { All (λ b. holds b []) domains.old.items }
    ensures own { IfOk result (λ x. IsOwn (job_tree job.now) x.used x.checked x.drops) }
    ensures written { IfOk result (λ x. IsWritten (job_tree job.now) (table_from x.checked x.drops) bytes.old.items bytes.new.items) }
    ensures clear { All (λ b. holds b []) domains.new.items }
    ensures kinds { map (λ b. number b) domains.new.items ≡ map (λ b. number b) domains.old.items }
{
    let Analysis { table, derivations } = analyse(alloc, job, domains)?;
    let reply = Said::Reply {
        ticket: 0,
        kinds: Items::from_slice(alloc, job.kinds.as_slice())?,
        table,
        derivations,
    };
    put_item(alloc, job, &reply, bytes)?;
    let Some(Analysis { table, derivations }) = analysis_in(reply) else {
        unreachable!();
    };
    checked_table(alloc, job, table, derivations)
}

// The table of a reply, and the derivations of its entries.
fn analysis_in(reply: Said) -> Option<Analysis>
    ensures { IsOfReply (said_tree reply) result }
{
    match reply {
        Said::Reply {
            table,
            derivations,
            ..
        } => Some(Analysis { table, derivations }),
        Said::Request { .. } => None,
        Said::Large { .. } => None,
    }
}

// A table, each entry checked by the derivation beside it, which derives it.
fn checked_table(
    alloc: Global,
    job: &Job,
    table: Table,
    derivations: Items<Derivation>,
) -> Result<TableBy, NoMemory>
    requires { AreDerived (job_tree job.now) table.entries derivations }
    ensures table { IfOk result (λ x. table_from x.checked x.drops ≡ table) }
    ensures of { IfOk result (λ x. AreOf (job_tree job.now) x.checked) }
{
    let Table { entries, drops } = table;
    let checked = check_all(alloc, job, entries, derivations.as_slice())?;
    Ok(TableBy {
        checked,
        drops,
        used: false,
    })
}

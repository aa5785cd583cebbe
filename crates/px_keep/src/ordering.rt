ghost use Rattle.std.specs.Prelude.{◌≡◌, ◌<◌, ◌≤◌, length, slice_index_or, IfOk};
ghost use Rattle.px_base.specs.Bounds.{most_parameters};
ghost use Rattle.px_callgraph.specs.CallGraphs.{IsGraphOf};
ghost use Rattle.px_callgraph.specs.JobTree.{job_tree};
ghost use Rattle.px_symexec.specs.One.{Work, IsJob};
ghost use Rattle.px_jobs.specs.Plans.{tables_at};
ghost use Rattle.px_jobs.specs.Sources.{source_work};
ghost use Rattle.px_findings.specs.declared.order.Turn.{Turn as ATurn};
ghost use Rattle.px_keep.specs.Keeping.{AreRanked};
ghost use Rattle.px_keep.specs.Making.{IsOrder, HaveTables, CanBeMade};

use crate::progress::marks_of;
use px_base::ProcId;
use px_callgraph::{Graph, Job};
use px_findings::{Turn, turns_of};
use px_jobs::Sources;
use px_pieces::Part;
use px_terms::NoMemory;
use std::alloc::Global;

/// The procedures that are to have tables, by rank and then by number, where these are left out. So many are kept.
pub(crate) fn order_of(
    alloc: Global,
    graph: &Graph,
    kept: u32,
    out: &[ProcId],
) -> Result<Vec<Turn>, NoMemory>
    requires { length graph.now ≡ kept }
    ensures ordered { IfOk result (λ order. (w : Work) → w.kept ≡ kept → w.out ≡ out.now → IsGraphOf w.bodies graph.now → IsOrder w order.items) }
    ensures ranked { IfOk result (λ order. (w : Work) → w.kept ≡ kept → w.out ≡ out.now → IsGraphOf w.bodies graph.now → AreRanked w order.items) }
{
    let large = marks_of(alloc, out, kept)?;
    let order = turns_of(alloc, graph, kept, &large)?;
    Ok(order)
}

/// The job of the procedure whose turn is at this place, under ticket 0, where those before it have their tables.
pub(crate) fn job_at(
    alloc: Global,
    sources: &Sources,
    graph: &Graph,
    kept: u32,
    order: &[Turn],
    place: usize,
    parts: &[Part],
) -> Result<Job, NoMemory>
    requires order { CanBeMade sources.now graph.now kept order.now }
    requires place { place < length order.now }
    requires parts { length parts.now ≡ kept }
    requires before { HaveTables order.now parts.now place }
    ensures job { IfOk result (λ j. IsJob (source_work sources.now kept) (tables_at parts.now) j.proc.0 (job_tree j)) }
    ensures turn { IfOk result (λ j. (d : ATurn) → j.proc.0 ≡ (slice_index_or order.now place d).number) }
    ensures proc { IfOk result (λ j. j.proc.0 < kept) }
    ensures parameters { IfOk result (λ j. length j.body.parameters ≤ most_parameters) }
    ensures kinds { IfOk result (λ j. j.kinds ≡ sources.now.kinds) }
    ensures ticket { IfOk result (λ j. j.ticket ≡ 0) }
{
    let proc = ProcId(order[place].number);
    let job = sources.job(alloc, graph, parts, proc, 0)?;
    Ok(job)
}

ghost use Rattle.std.specs.Prelude.{◌≡◌, ◌↔◌, ◌<◌, length, true, IfOk};
ghost use Rattle.px_callgraph.specs.JobTree.{job_tree};
ghost use Rattle.px_callgraph.specs.CallGraphs.{IsGraphOf};
ghost use Rattle.px_symexec.specs.One.{IsJob};
ghost use Rattle.px_jobs.specs.Plans.{IsReady, tables_at};
ghost use Rattle.px_jobs.specs.Sources.{source_work, AreEqualSources};

use crate::callees::callees_of;
use crate::flags::flags_of;
use crate::same::{are_callees, same_bodies, same_functions, same_kinds};
use px_base::{Limits, ProcId};
use px_callgraph::{Graph, Job};
use px_core::{Body, copy_body, equal_bodies};
use px_pieces::Part;
use px_terms::{BlockType, Items, NoMemory, same_items};
use std::alloc::Global;
use std::marker::Model;

/// What the jobs of a program's procedures are made of, beside the call graph and the tables so far.
#[derive(Drop)]
pub struct Sources {
    bodies: Items<Body>,
    types: Items<BlockType>,
    limits: Limits,
    kinds: Items<u8>,
    out: Items<ProcId>,
    // By number, whether a function is left out.
    flags: Vec<bool>,
}

impl Model for Sources {
    ghost use Rattle.std.specs.Coded.{codes};
    ghost use Rattle.std.specs.Prelude.{◌≡◌, ℕ, false, slice_index_or};
    ghost use Rattle.px_core.specs.contracts.body.Body as body_row;
    ghost use Rattle.px_jobs.specs.Plans.{is_among};
    ghost use Rattle.px_jobs.specs.Sources.{SourceParts};

    ghost Value = { SourceParts };

    ghost coded = { Prim.hlevel (codes, body_row.the_row.coded) };

    ghost view = { λ s. record { bodies = s.bodies; types = s.types; limits = s.limits; kinds = s.kinds; out = s.out } };

    ghost invariant = { λ s. (g : ℕ) → slice_index_or s.flags.items g false ≡ is_among g s.out };
}

impl Sources {
    /// Those of these parts. `out` has the kept procedures that are too large, each with an empty body in its place, and
    /// the functions that are left out and of which none is kept. The memory is as the greatest number in `out`.
    pub fn new(
        alloc: Global,
        bodies: Items<Body>,
        types: Items<BlockType>,
        limits: Limits,
        kinds: Items<u8>,
        out: Items<ProcId>,
    ) -> Result<Sources, NoMemory>
        ensures { IfOk result (λ s. s ≡ record { bodies = bodies; types = types; limits = limits; kinds = kinds; out = out }) }
    {
        let flags = flags_of(alloc, out.as_slice())?;
        Ok(Sources {
            bodies,
            types,
            limits,
            kinds,
            out,
            flags,
        })
    }

    /// The job of a kept procedure, where all that it calls below have their parts.
    pub fn job(
        &self,
        alloc: Global,
        graph: &Graph,
        parts: &[Part],
        proc: ProcId,
        ticket: u64,
    ) -> Result<Job, NoMemory>
        requires proc { proc.0 < length graph.now }
        requires parts { length parts.now ≡ length graph.now }
        requires bodies { length self.now.bodies ≡ length graph.now }
        ensures job { IfOk result (λ j. let w = source_work self.now (length graph.now) in IsGraphOf w.bodies graph.now → IsReady w parts.now proc.0 → IsJob w (tables_at parts.now) proc.0 (job_tree j)) }
        ensures ticket { IfOk result (λ j. j.ticket ≡ ticket) }
    {
        Ok(Job {
            proc,
            body: copy_body(alloc, &self.bodies.as_slice()[proc.0 as usize])?,
            types: self.types.copy(alloc)?,
            callees: callees_of(alloc, graph, &self.flags, parts, proc)?,
            limits: self.limits,
            kinds: Items::from_slice(alloc, self.kinds.as_slice())?,
            ticket,
        })
    }

    /// Whether this is the job of a kept procedure under this ticket, where all that it calls below have their parts.
    /// Takes no memory.
    pub fn is_job(
        &self,
        graph: &Graph,
        parts: &[Part],
        proc: ProcId,
        ticket: u64,
        job: &Job,
    ) -> bool
        requires proc { proc.0 < length graph.now }
        requires parts { length parts.now ≡ length graph.now }
        requires bodies { length self.now.bodies ≡ length graph.now }
        ensures { let w = source_work self.now (length graph.now) in IsGraphOf w.bodies graph.now → IsReady w parts.now proc.0 → (result ≡ true) ↔ (IsJob w (tables_at parts.now) proc.0 (job_tree job.now) × (job.now.ticket ≡ ticket)) }
    {
        if job.proc.0 != proc.0 {
            return false;
        }
        if job.ticket != ticket {
            return false;
        }
        if !self.has_same(job.types.as_slice(), job.limits, job.kinds.as_slice()) {
            return false;
        }
        if !equal_bodies(&job.body, &self.bodies.as_slice()[proc.0 as usize]) {
            return false;
        }
        are_callees(graph, &self.flags, parts, proc, job.callees.as_slice())
    }

    /// Whether these are made of equal parts. Takes no memory.
    pub fn agrees(
        &self,
        bodies: &[Body],
        types: &[BlockType],
        limits: Limits,
        kinds: &[u8],
        out: &[ProcId],
    ) -> bool
        ensures { (result ≡ true) ↔ AreEqualSources self.now (record { bodies = bodies.now; types = types.now; limits = limits; kinds = kinds.now; out = out.now }) }
    {
        self.has_same(types, limits, kinds)
            && same_functions(self.out.as_slice(), out)
            && same_bodies(self.bodies.as_slice(), bodies)
    }

    // Whether they have these block types, limits and kinds.
    fn has_same(&self, types: &[BlockType], limits: Limits, kinds: &[u8]) -> bool
        ensures { (result ≡ true) ↔ ((types.now ≡ self.now.types) × (limits ≡ self.now.limits) × (kinds.now ≡ self.now.kinds)) }
    {
        limits == self.limits
            && same_kinds(kinds, self.kinds.as_slice())
            && same_items(types, self.types.as_slice())
    }
}

ghost use Rattle.std.specs.Prelude.{◌≡◌, ◌≤◌, [], length, map, IfOk, All};
ghost use Rattle.std.specs.List.{AllByRecursion};
ghost use Rattle.px_base.specs.Bounds.{most_parameters};
ghost use Rattle.px_syntax.specs.ProgramTree.{program_tree};
ghost use Rattle.px_findings.specs.Bodies.{CallsNamed};
ghost use Rattle.px_findings.specs.Found.{work_of};
ghost use Rattle.px_keep.specs.Reused.{IsReused};
ghost use Rattle.px_keep.specs.Keeping.{KeepsWork};

use px_base::Limits;
use px_findings::DeskParts;
use px_keep::{Kept, Reused, keep, reuse};
use px_pooled::{Parts, parts_of};
use px_syntax::Program;
use px_terms::{Domain, NoMemory};
use std::alloc::Global;

/// What is found out of a program within these limits, with the help of kept items and of these domains.
pub(crate) fn found_with(
    alloc: Global,
    program: &Program,
    limits: Limits,
    items: &Kept<'_>,
    domains: &mut Vec<Box<dyn Domain>>,
) -> Result<Reused, NoMemory>
    requires few { AllByRecursion (λ p. length p.parameters ≤ most_parameters) (program_tree program.now).procedures }
    requires named { CallsNamed (program_tree program.now) }
    requires clear { All (λ b. holds b []) domains.old.items }
    ensures reused { IfOk result (λ r. IsReused (work_of (program_tree program.now) limits (map (λ b. number b) domains.old.items)) items.now r.findings r.used) }
    ensures events { IfOk result (λ r. r.findings.events ≡ []) }
    ensures clear { All (λ b. holds b []) domains.new.items }
    ensures kinds { map (λ b. number b) domains.new.items ≡ map (λ b. number b) domains.old.items }
{
    let Parts {
        desk,
        types,
        limits,
        kinds,
    } = parts_of(alloc, program, limits, domains)?;
    let DeskParts {
        bodies,
        graph,
        kept,
        out,
    } = desk;
    reuse(
        alloc, bodies, &graph, types, limits, kinds, kept, out, items, domains,
    )
}

/// The bytes that keep what is found out of a program within these limits, with the help of these domains.
pub(crate) fn bytes_of(
    alloc: Global,
    program: &Program,
    limits: Limits,
    domains: &mut Vec<Box<dyn Domain>>,
) -> Result<Vec<u8>, NoMemory>
    requires few { AllByRecursion (λ p. length p.parameters ≤ most_parameters) (program_tree program.now).procedures }
    requires named { CallsNamed (program_tree program.now) }
    requires clear { All (λ b. holds b []) domains.old.items }
    ensures keeps { IfOk result (λ bytes. KeepsWork (work_of (program_tree program.now) limits (map (λ b. number b) domains.old.items)) bytes.items) }
    ensures clear { All (λ b. holds b []) domains.new.items }
    ensures kinds { map (λ b. number b) domains.new.items ≡ map (λ b. number b) domains.old.items }
{
    let Parts {
        desk,
        types,
        limits,
        kinds,
    } = parts_of(alloc, program, limits, domains)?;
    let DeskParts {
        bodies,
        graph,
        kept,
        out,
    } = desk;
    keep(
        alloc, bodies, &graph, types, limits, kinds, kept, out, domains,
    )
}

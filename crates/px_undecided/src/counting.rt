ghost use Rattle.std.specs.Prelude.{◌≡◌, ◌++◌, ◌<◌, ◌^◌, List, [], length, map, count_by, IfOk, OnOk};
ghost use Rattle.px_syntax.specs.ProgramTree.{program_tree, procedure_tree};
ghost use Rattle.px_text_report.specs.Known.{known_of, known};
ghost use Rattle.px_bits.specs.declared.looks.Look.{Look as ALook};
ghost use Rattle.px_bits.specs.Looks.{IsLook};
ghost use Rattle.px_undecided.specs.declared.counting.LookCounts.{LookCounts as TheCounts};
ghost use Rattle.px_undecided.specs.Counting as spec;

use px_base::ProcId;
use px_bits::{Look, look_at};
use px_entry::{Cause, Gap};
use px_pieces::{Findings, Part};
use px_syntax::{Procedure, Program};
use px_terms::{Conj, NoMemory};
use std::alloc::Global;

/// What the bits of a procedure's undecided drops come to.
#[derive(Clone, Copy, Debug, PartialEq, Eq)]
pub struct LookCounts {
    pub proc: ProcId,
    /// Of so many no words make the conjuncts true: no execution takes these paths.
    pub refuted: u64,
    /// Of so many some words do. That says nothing of the rest of the path.
    pub met: u64,
    /// So many have no clauses, or their search was given up.
    pub left_open: u64,
}

/// The counts of each kept procedure that has an undecided drop, in order. Each search may learn so many clauses.
pub fn look_counts(
    alloc: Global,
    program: &Program,
    findings: &Findings,
    conflicts: u32,
) -> Result<Vec<LookCounts>, NoMemory>
    requires { length findings.now.parts ≡ length program.now.procedures }
    ensures { IfOk result (λ all. spec.AreCounts conflicts (program_tree program.now).procedures (known findings.now) all.items) }
{
    all_counts(
        alloc,
        program.procedures.as_slice(),
        findings.parts(),
        conflicts,
    )
}

// Those of these procedures, of which this is known.
fn all_counts(
    alloc: Global,
    procedures: &[Procedure],
    parts: &[Part],
    conflicts: u32,
) -> Result<Vec<LookCounts>, NoMemory>
    requires { length parts.now ≡ length procedures.now }
    ensures { IfOk result (λ all. spec.AreCounts conflicts (map procedure_tree procedures.now) (map known_of parts.now) all.items) }
{
    let mut all = Vec::new(alloc);
    for i in 0..parts.len() {
        put_counts(alloc, &mut all, procedures[i].proc, &parts[i], conflicts)?;
    }
    Ok(all)
}

// Adds those of a procedure, if it has an undecided drop.
fn put_counts(
    alloc: Global,
    all: &mut Vec<LookCounts>,
    proc: ProcId,
    part: &Part,
    conflicts: u32,
) -> Result<(), NoMemory>
    ensures { OnOk result ((more : List TheCounts) × (all.new.items ≡ all.old.items ++ more) × spec.AreCountsOf conflicts proc (known_of part.now) more) }
{
    if let Part::Tabled { drops, .. } = part {
        let looks = looks(alloc, drops.as_slice(), conflicts)?;
        put_counted(all, proc, &looks)?;
    }
    Ok(())
}

// Adds the counts of these looks, if there are any.
fn put_counted(all: &mut Vec<LookCounts>, proc: ProcId, looks: &[Look]) -> Result<(), NoMemory>
    ensures { OnOk result (all.new.items ≡ all.old.items ++ spec.counted proc looks.now) }
{
    if !looks.is_empty() {
        all.push(LookCounts {
            proc,
            refuted: count(looks, Look::Refuted),
            met: count(looks, Look::Met),
            left_open: count(looks, Look::Open),
        })?;
    }
    Ok(())
}

// How many of these looks are this one.
fn count(looks: &[Look], look: Look) -> u64
    ensures { result ≡ count_by (spec.is_same look) looks.now }
{
    let mut count = 0;
    for other in looks {
        if is_same(look, *other) {
            count += 1;
        }
    }
    count
}

fn is_same(a: Look, b: Look) -> bool
    ensures { result ≡ spec.is_same a b }
{
    a == b
}

// A look at each undecided drop.
fn looks(alloc: Global, drops: &[Gap], conflicts: u32) -> Result<Vec<Look>, NoMemory>
    ensures { IfOk result (λ looks. spec.AreLooks conflicts (spec.undecided_in drops.now) looks.items) }
{
    let mut looks = Vec::new(alloc);
    for gap in drops {
        put_look(alloc, &mut looks, gap, conflicts)?;
    }
    Ok(looks)
}

// Adds a look at a drop, if it is undecided.
fn put_look(alloc: Global, looks: &mut Vec<Look>, gap: &Gap, conflicts: u32) -> Result<(), NoMemory>
    ensures { OnOk result ((more : List ALook) × (looks.new.items ≡ looks.old.items ++ more) × spec.AreLooks conflicts (spec.undecided_by gap.now.cause) more) }
{
    if let Cause::Undecided(conjuncts) = &gap.cause {
        looks.push(looked(alloc, conjuncts.as_slice(), conflicts)?)?;
    }
    Ok(())
}

// A look at conjuncts. Where they are too many for the numbers of their places, there is no memory for their clauses either.
fn looked(alloc: Global, conjuncts: &[Conj], conflicts: u32) -> Result<Look, NoMemory>
    ensures { IfOk result (IsLook conflicts conjuncts.now) }
{
    if conjuncts.len() > u32::MAX as usize {
        return Err(NoMemory);
    }
    look_at(alloc, conjuncts, conflicts)
}

ghost use Rattle.std.specs.Prelude.{◌≡◌, ◌<◌, ◌||◌, ℕ, false, length, nat_eq, replicate, set, slice_index_or, IfOk};
ghost use Rattle.px_jobs.specs.Plans.{is_among};
ghost use Rattle.px_pieces.specs.declared.findings.Part.TheVariants as part;

use px_base::ProcId;
use px_check::Checked;
use px_entry::Gap;
use px_pieces::Part;
use px_terms::{Items, NoMemory};
use std::alloc::Global;

/// The parts so far, and which of them items gave, each at its procedure's number.
#[derive(Drop)]
pub(crate) struct Progress {
    pub(crate) parts: Vec<Part>,
    pub(crate) uses: Vec<bool>,
}

/// The table of a job, each entry checked, and whether an item gave it.
#[derive(Drop)]
pub(crate) struct TableBy {
    pub(crate) checked: Items<Checked>,
    pub(crate) drops: Items<Gap>,
    pub(crate) used: bool,
}

/// Puts the part of the procedure with this number in its place.
pub(crate) fn put(progress: &mut Progress, proc: ProcId, found: TableBy)
    requires parts { proc.0 < length progress.old.parts.items }
    requires uses { proc.0 < length progress.old.uses.items }
    ensures parts { progress.new.parts.items ≡ set progress.old.parts.items proc.0 (part.Tabled found.checked found.drops) }
    ensures uses { progress.new.uses.items ≡ set progress.old.uses.items proc.0 found.used }
{
    let TableBy {
        checked,
        drops,
        used,
    } = found;
    progress.parts[proc.0 as usize] = Part::Tabled { checked, drops };
    progress.uses[proc.0 as usize] = used;
}

/// So many parts without a table, of which items gave none.
pub(crate) fn no_progress(alloc: Global, many: u32) -> Result<Progress, NoMemory>
    ensures parts { IfOk result (λ p. p.parts.items ≡ replicate many part.LeftOut) }
    ensures uses { IfOk result (λ p. p.uses.items ≡ replicate many false) }
{
    let mut parts = Vec::with_capacity(alloc, many as usize)?;
    for _place in 0..many {
        parts.push(Part::LeftOut)?;
    }
    let uses = vec![in alloc; false; many as usize]?;
    Ok(Progress { parts, uses })
}

/// Of each kept procedure, by its number, whether it is one of these.
pub(crate) fn marks_of(
    alloc: Global,
    procedures: &[ProcId],
    kept: u32,
) -> Result<Vec<bool>, NoMemory>
    ensures many { IfOk result (λ marks. length marks.items ≡ kept) }
    ensures marks { IfOk result (λ marks. (g : ℕ) → g < kept → slice_index_or marks.items g false ≡ is_among g procedures.now) }
{
    let mut marks = vec![in alloc; false; kept as usize]?;
    for proc in procedures {
        mark(&mut marks, *proc);
    }
    Ok(marks)
}

// Marks a procedure, if it has a place.
fn mark(marks: &mut Vec<bool>, proc: ProcId)
    ensures many { length marks.new.items ≡ length marks.old.items }
    ensures marks { (g : ℕ) → g < length marks.old.items → slice_index_or marks.new.items g false ≡ (slice_index_or marks.old.items g false || nat_eq proc.0 g) }
{
    let place = proc.0 as usize;
    if place < marks.len() {
        marks[place] = true;
    }
}

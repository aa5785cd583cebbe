ghost use Rattle.std.specs.Prelude.{◌≡◌, ℕ, ◌+◌, ◌<◌, ◌≤◌, ◌⊎◌, ◌↔◌, length, true, false, slice_index, IfOk, MatchOption};
ghost use Rattle.px_terms.specs.declared.variables.Sort.TheVariants.{Cell};
ghost use Rattle.px_plain.specs.Differences.{difference_at, AreInside};
ghost use Rattle.px_plain.specs.Places.{mark_at};
ghost use Rattle.px_plain.specs.Marks.{MarksUnwritten, SomeOtherSort, SomeMarkedEnd, HasUnmarkedEnds, SomeMarked};

use crate::nodes::Difference;
use px_terms::{Sort, VarInfo};
use std::alloc::{AllocError, Global};

// Whether a variable is the content of a cell.
pub(crate) fn is_cell(info: VarInfo) -> bool
    ensures { result ≡ true ↔ info.sort ≡ Cell }
{
    info.sort == Sort::Cell
}

// Marks the nodes that are to be unwritten. None where one of them can't be.
pub(crate) fn mark_unwritten(
    alloc: Global,
    vars: &[VarInfo],
    unwritten: &[u32],
) -> Result<Option<Vec<bool>>, AllocError>
    requires some { (k : ℕ) → k < length unwritten.now → 0 < slice_index unwritten.now k }
    requires inside { (k : ℕ) → k < length unwritten.now → slice_index unwritten.now k ≤ length vars.now }
    ensures { IfOk result (λ r. MatchOption r (SomeOtherSort vars.now unwritten.now) (λ marks. MarksUnwritten vars.now unwritten.now (length unwritten.now) marks.items)) }
{
    let mut marks = vec![in alloc; false; vars.len() + 1]?;
    for i in 0..unwritten.len() {
        let node = unwritten[i] as usize;
        if !is_cell(vars[node - 1]) {
            return Ok(None);
        }
        marks[node] = true;
    }
    Ok(Some(marks))
}

// Whether an end of a difference is marked.
fn has_marked_end(marks: &[bool], difference: Difference) -> bool
    requires from_inside { difference.from < length marks.now }
    requires to_inside { difference.to < length marks.now }
    ensures yes { result ≡ true → (mark_at marks.now difference.from ≡ true) ⊎ (mark_at marks.now difference.to ≡ true) }
    ensures no { result ≡ false → HasUnmarkedEnds marks.now difference }
{
    marks[difference.from as usize] || marks[difference.to as usize]
}

// Whether an end of some difference is marked.
pub(crate) fn have_marked_end(marks: &[bool], differences: &[Difference]) -> bool
    requires { AreInside (length marks.now) differences.now }
    ensures yes { result ≡ true → SomeMarkedEnd marks.now differences.now }
    ensures no { result ≡ false → (i : ℕ) → i < length differences.now → HasUnmarkedEnds marks.now (difference_at differences.now i) }
{
    for i in 0..differences.len() {
        if has_marked_end(marks, differences[i]) {
            return true;
        }
    }
    false
}

// Whether some node is marked.
pub(crate) fn have_marked(marks: &[bool], nodes: &[u32]) -> bool
    requires { (i : ℕ) → i < length nodes.now → slice_index nodes.now i < length marks.now }
    ensures yes { result ≡ true → SomeMarked marks.now nodes.now }
    ensures no { result ≡ false → (i : ℕ) → i < length nodes.now → mark_at marks.now (slice_index nodes.now i) ≡ false }
{
    for i in 0..nodes.len() {
        if marks[nodes[i] as usize] {
            return true;
        }
    }
    false
}

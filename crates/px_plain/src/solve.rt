ghost use Rattle.std.specs.Prelude.{◌≡◌, ℕ, ◌+◌, ◌≤◌, ◌<◌, length, IfOk, IfSome, MatchOption};
ghost use Rattle.px_plain.specs.NodeValues.{AreSorted};
ghost use Rattle.px_plain.specs.Marks.{AreMarks};
ghost use Rattle.px_plain.specs.Models.{IsModelOf, HasNoModel, AreLeastValues};

use crate::marks::{have_marked, have_marked_end, mark_unwritten};
use crate::nodes::Parts;
use crate::places::solve_places;
use crate::values::values_of;
use crate::words::solve_words;
use px_terms::{Value, VarInfo};
use std::alloc::{AllocError, Global};

// Marks what is to be unwritten. None where that can't be, or is to be written too.
fn marks_of(alloc: Global, vars: &[VarInfo], parts: &Parts) -> Result<Option<Vec<bool>>, AllocError>
    requires few { length vars.now ≤ 65536 }
    requires sorted { AreSorted vars.now parts.now.words.items parts.now.places.items parts.now.unwritten.items parts.now.written.items }
    ensures { IfOk result (λ r. MatchOption r (HasNoModel vars.now parts.now.words.items parts.now.places.items parts.now.unwritten.items parts.now.written.items) (λ marks. AreMarks vars.now parts.now.words.items parts.now.places.items parts.now.unwritten.items parts.now.written.items marks.items)) }
{
    let Some(marks) = mark_unwritten(alloc, vars, &parts.unwritten)? else {
        return Ok(None);
    };
    if have_marked_end(&marks, &parts.words) {
        return Ok(None);
    }
    if have_marked_end(&marks, &parts.places) {
        return Ok(None);
    }
    if have_marked(&marks, &parts.written) {
        return Ok(None);
    }
    Ok(Some(marks))
}

// Values that satisfy the parts; none where no values do.
fn values_under(
    alloc: Global,
    vars: &[VarInfo],
    parts: &Parts,
    marks: &[bool],
) -> Result<Option<Vec<Value>>, AllocError>
    requires few { length vars.now ≤ 65536 }
    requires few_words { length parts.now.words.items ≤ 65536 }
    requires sorted { AreSorted vars.now parts.now.words.items parts.now.places.items parts.now.unwritten.items parts.now.written.items }
    requires marks { AreMarks vars.now parts.now.words.items parts.now.places.items parts.now.unwritten.items parts.now.written.items marks.now }
    ensures found { IfOk result (λ r. MatchOption r (HasNoModel vars.now parts.now.words.items parts.now.places.items parts.now.unwritten.items parts.now.written.items) (λ vs. IsModelOf vars.now parts.now.words.items parts.now.places.items parts.now.unwritten.items parts.now.written.items vs.items)) }
    ensures least { IfOk result (λ r. IfSome r (λ vs. AreLeastValues vars.now parts.now.words.items parts.now.places.items parts.now.unwritten.items vs.items)) }
{
    let Some(words) = solve_words(alloc, vars.len() as u32 + 1, &parts.words)? else {
        return Ok(None);
    };
    let Some(places) = solve_places(alloc, vars, &parts.places)? else {
        return Ok(None);
    };
    let values = values_of(alloc, vars, marks, &words, &places)?;
    Ok(Some(values))
}

// Values that satisfy the parts; none where no values do.
pub(crate) fn solve(
    alloc: Global,
    vars: &[VarInfo],
    parts: &Parts,
) -> Result<Option<Vec<Value>>, AllocError>
    requires few { length vars.now ≤ 65536 }
    requires few_words { length parts.now.words.items ≤ 65536 }
    requires sorted { AreSorted vars.now parts.now.words.items parts.now.places.items parts.now.unwritten.items parts.now.written.items }
    ensures found { IfOk result (λ r. MatchOption r (HasNoModel vars.now parts.now.words.items parts.now.places.items parts.now.unwritten.items parts.now.written.items) (λ vs. IsModelOf vars.now parts.now.words.items parts.now.places.items parts.now.unwritten.items parts.now.written.items vs.items)) }
    ensures least { IfOk result (λ r. IfSome r (λ vs. AreLeastValues vars.now parts.now.words.items parts.now.places.items parts.now.unwritten.items vs.items)) }
{
    let Some(marks) = marks_of(alloc, vars, parts)? else {
        return Ok(None);
    };
    values_under(alloc, vars, parts, &marks)
}

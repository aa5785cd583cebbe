ghost use Rattle.std.specs.Prelude.{◌≡◌, ◌≤◌, ◌++◌, ◌∷◌, [], length, drop, map, option_map, IfOk, OnOk};
ghost use Rattle.px_syntax.specs.ProgramTree.{procedure_tree};
ghost use Rattle.px_text_report.specs.Places.{comes_before};
ghost use Rattle.px_text_report.specs.LeftOut.{left_with, left_word, without_table, those_before, those_after, by_place};
ghost use Rattle.px_text_report.specs.Known.{known_of};

use px_base::Site;
use px_pieces::Part;
use px_syntax::{Left, Name, Procedure};
use px_terms::NoMemory;
use std::alloc::Global;

/// The kept procedures that have no table.
pub(crate) fn without_table(
    alloc: Global,
    procedures: &[Procedure],
    parts: &[Part],
) -> Result<Vec<Left>, NoMemory>
    requires { length parts.now ≡ length procedures.now }
    ensures { IfOk result (λ v. v.items ≡ without_table (map procedure_tree procedures.now) (map known_of parts.now)) }
{
    let mut left = Vec::new(alloc);
    for i in 0..parts.len() {
        put_if_left(alloc, &mut left, &procedures[i], &parts[i])?;
    }
    Ok(left)
}

// Adds a procedure that has none.
fn put_if_left(
    alloc: Global,
    left: &mut Vec<Left>,
    procedure: &Procedure,
    part: &Part,
) -> Result<(), NoMemory>
    ensures { OnOk result (left.new.items ≡ left.old.items ++ left_with (procedure_tree procedure.now) (left_word (known_of part.now))) }
{
    if let Some(word) = left_word(part) {
        left.push(Left {
            proc: Some(procedure.proc),
            site: procedure.site,
            word: Name::from_slice(alloc, word)?,
        })?;
    }
    Ok(())
}

// Why a procedure has none.
fn left_word(part: &Part) -> Option<&'static [u8]>
    ensures { option_map (λ word. word.now) result ≡ left_word (known_of part.now) }
{
    match part {
        Part::Tabled { .. } => None,
        Part::LeftOut => Some(b"size"),
    }
}

/// Both lists, in the order of their places.
pub(crate) fn merged(alloc: Global, left: &[Left], others: &[Left]) -> Result<Vec<Left>, NoMemory>
    ensures { IfOk result (λ v. v.items ≡ by_place left.now others.now) }
{
    let mut all = Vec::new(alloc);
    let mut from = 0;
    for item in left {
        from += put_before(alloc, &mut all, item.site, behind(others, from))?;
        put_copy(alloc, &mut all, item)?;
    }
    put_copies(alloc, &mut all, behind(others, from))?;
    Ok(all)
}

// The items from a number on.
fn behind(later: &[Left], from: usize) -> &[Left]
    requires { from ≤ length later.now }
    ensures { result.now ≡ drop from later.now }
{
    &later[from..]
}

// Adds the first items, up to the first that doesn't come before the place, and answers how many they are.
fn put_before(
    alloc: Global,
    all: &mut Vec<Left>,
    site: Site,
    others: &[Left],
) -> Result<usize, NoMemory>
    ensures items { OnOk result (all.new.items ≡ all.old.items ++ those_before site others.now) }
    ensures count { IfOk result (λ n. (n ≤ length others.now) × (drop n others.now ≡ those_after site others.now)) }
{
    for i in 0..others.len() {
        if !comes_before(others[i].site, site) {
            return Ok(i);
        }
        put_copy(alloc, all, &others[i])?;
    }
    Ok(others.len())
}

fn put_copies(alloc: Global, all: &mut Vec<Left>, items: &[Left]) -> Result<(), NoMemory>
    ensures { OnOk result (all.new.items ≡ all.old.items ++ items.now) }
{
    for item in items {
        put_copy(alloc, all, item)?;
    }
    Ok(())
}

fn put_copy(alloc: Global, all: &mut Vec<Left>, item: &Left) -> Result<(), NoMemory>
    ensures { OnOk result (all.new.items ≡ all.old.items ++ item.now ∷ []) }
{
    all.push(Left {
        proc: item.proc,
        site: item.site,
        word: Name::from_slice(alloc, item.word.as_slice())?,
    })?;
    Ok(())
}

// Whether one place comes before another.
fn comes_before(a: Site, b: Site) -> bool
    ensures { result ≡ comes_before a b }
{
    if a.file == b.file {
        if a.line == b.line {
            a.column < b.column
        } else {
            a.line < b.line
        }
    } else {
        a.file < b.file
    }
}

ghost use Rattle.std.specs.Prelude.{◌≡◌, ◌≢◌, ℕ, ◌+◌, ◌<◌, ◌≤◌, length, All, false, true, IfOk, slice_index};
ghost use Rattle.px_terms.specs.Variables.{mentioned};
ghost use Rattle.px_plain.specs.Forest.{IsForest};
ghost use Rattle.px_solver.specs.Tables as spec;
ghost use Rattle.px_solver.specs.Tables.{AgreeOutside, AreApart, IsSolved, HasFailed};
ghost use Rattle.px_solver.specs.Layouts.{mark_at, IsLayout, HasSolved, HasNoSolution, stop_at};

use crate::candidates::{candidates, end_words};
use crate::chains::{Chains, places_of};
use crate::search::search;
use px_plain::Node;
use px_terms::{Conj, NoMemory};
use std::alloc::Global;

// Gives the member of a component, where there is one alone, the first of the words that come before all others and make
// its conjuncts true, if one does: mostly one does, and then no other candidates are found. Takes no memory.
fn is_solved_by_ends(
    members: &[u32],
    conjuncts: &[Conj],
    indexes: &[u32],
    table: &[Node],
    roots: &mut [u32],
) -> bool
    requires forest { IsForest table.now }
    requires size { length roots.old ≡ length table.now }
    requires small { length table.now ≤ 65537 }
    requires inside { All (λ c. All (λ x. x + 1 < length table.now) (mentioned c)) conjuncts.now }
    requires places { All (λ i. i < length conjuncts.now) indexes.now }
    requires members { All (λ r. r < length table.now) members.now }
    requires apart { AreApart members.now }
    ensures size { length roots.new ≡ length roots.old }
    ensures others { AgreeOutside members.now (slice_index roots.new) (slice_index roots.old) }
    ensures yes { result ≡ true → IsSolved table.now conjuncts.now indexes.now (slice_index roots.old) members.now (slice_index roots.new) }
{
    members.len() == 1 && search(members, &end_words(), conjuncts, indexes, table, roots)
}

// Gives the members of a component the first candidates that make its conjuncts true. False where it has
// more than three members, or no candidates do.
fn solve(
    alloc: Global,
    conjuncts: &[Conj],
    table: &[Node],
    indexes: &[u32],
    members: &[u32],
    roots: &mut [u32],
) -> Result<bool, NoMemory>
    requires forest { IsForest table.now }
    requires size { length roots.old ≡ length table.now }
    requires small { length table.now ≤ 65537 }
    requires inside { All (λ c. All (λ x. x + 1 < length table.now) (mentioned c)) conjuncts.now }
    requires places { All (λ i. i < length conjuncts.now) indexes.now }
    requires members { All (λ r. r < length table.now) members.now }
    requires apart { AreApart members.now }
    ensures size { length roots.new ≡ length roots.old }
    ensures others { AgreeOutside members.now (slice_index roots.new) (slice_index roots.old) }
    ensures yes { IfOk result (λ r. r ≡ true → IsSolved table.now conjuncts.now indexes.now (slice_index roots.old) members.now (slice_index roots.new)) }
    ensures no { IfOk result (λ r. r ≡ false → HasFailed table.now conjuncts.now indexes.now (slice_index roots.old) members.now) }
{
    if members.len() > 3 {
        return Ok(false);
    }
    if is_solved_by_ends(members, conjuncts, indexes, table, roots) {
        return Ok(true);
    }
    let values = candidates(alloc, conjuncts, table, indexes)?;
    Ok(search(members, &values, conjuncts, indexes, table, roots))
}

// Where the components of a list of conjuncts lie.
#[derive(Drop)]
pub(crate) struct Layout {
    // A forest that joins the nodes of representatives that share a component.
    pub(crate) joined: Vec<Node>,
    // The home of each conjunct, and the chains of the homes' places.
    pub(crate) homes: Vec<u32>,
    pub(crate) places: Chains,
    // The same of the nodes.
    pub(crate) node_homes: Vec<u32>,
    pub(crate) nodes: Chains,
    // The homes of conjuncts that aren't plain.
    pub(crate) hard: Vec<bool>,
}

// Solves the component of a home.
fn solve_home(
    alloc: Global,
    conjuncts: &[Conj],
    table: &[Node],
    layout: &Layout,
    home: u32,
    roots: &mut [u32],
) -> Result<bool, NoMemory>
    requires forest { IsForest table.now }
    requires size { length roots.old ≡ length table.now }
    requires small { length table.now ≤ 65537 }
    requires few { length conjuncts.now ≤ 65536 }
    requires inside { All (λ c. All (λ x. x + 1 < length table.now) (mentioned c)) conjuncts.now }
    requires layout { IsLayout table.now conjuncts.now layout.now }
    requires home { home < length table.now }
    ensures size { length roots.new ≡ length roots.old }
    ensures others { AgreeOutside (spec.places_of home layout.now.node_homes.items) (slice_index roots.new) (slice_index roots.old) }
    ensures yes { IfOk result (λ r. r ≡ true → IsSolved table.now conjuncts.now (spec.places_of home layout.now.homes.items) (slice_index roots.old) (spec.places_of home layout.now.node_homes.items) (slice_index roots.new)) }
    ensures no { IfOk result (λ r. r ≡ false → HasFailed table.now conjuncts.now (spec.places_of home layout.now.homes.items) (slice_index roots.old) (spec.places_of home layout.now.node_homes.items)) }
{
    let indexes = places_of(alloc, &layout.homes, &layout.places, home)?;
    let members = places_of(alloc, &layout.node_homes, &layout.nodes, home)?;
    solve(alloc, conjuncts, table, &indexes, &members, roots)
}

// Solves the component of a home, if the home is hard.
fn solve_if_hard(
    alloc: Global,
    conjuncts: &[Conj],
    table: &[Node],
    layout: &Layout,
    home: u32,
    roots: &mut [u32],
) -> Result<bool, NoMemory>
    requires forest { IsForest table.now }
    requires size { length roots.old ≡ length table.now }
    requires small { length table.now ≤ 65537 }
    requires few { length conjuncts.now ≤ 65536 }
    requires inside { All (λ c. All (λ x. x + 1 < length table.now) (mentioned c)) conjuncts.now }
    requires layout { IsLayout table.now conjuncts.now layout.now }
    requires home { home < length table.now }
    ensures size { length roots.new ≡ length roots.old }
    ensures easy { mark_at layout.now.hard.items home ≡ false → (v : ℕ) → slice_index roots.new v ≡ slice_index roots.old v }
    ensures others { AgreeOutside (spec.places_of home layout.now.node_homes.items) (slice_index roots.new) (slice_index roots.old) }
    ensures yes { IfOk result (λ r. r ≡ true → mark_at layout.now.hard.items home ≡ true → IsSolved table.now conjuncts.now (spec.places_of home layout.now.homes.items) (slice_index roots.old) (spec.places_of home layout.now.node_homes.items) (slice_index roots.new)) }
    ensures no { IfOk result (λ r. r ≡ false → (mark_at layout.now.hard.items home ≡ true) × HasFailed table.now conjuncts.now (spec.places_of home layout.now.homes.items) (slice_index roots.old) (spec.places_of home layout.now.node_homes.items)) }
{
    if !layout.hard[home as usize] {
        return Ok(true);
    }
    solve_home(alloc, conjuncts, table, layout, home, roots)
}

// Solves the components of hard homes, the least home first. Gives the first one that fails, or 0.
pub(crate) fn solve_all(
    alloc: Global,
    conjuncts: &[Conj],
    table: &[Node],
    layout: &Layout,
    roots: &mut [u32],
) -> Result<u32, NoMemory>
    requires forest { IsForest table.now }
    requires size { length roots.old ≡ length table.now }
    requires small { length table.now ≤ 65537 }
    requires few { length conjuncts.now ≤ 65536 }
    requires inside { All (λ c. All (λ x. x + 1 < length table.now) (mentioned c)) conjuncts.now }
    requires layout { IsLayout table.now conjuncts.now layout.now }
    requires null { slice_index layout.now.node_homes.items 0 ≡ 0 }
    requires zero { slice_index roots.old 0 ≡ 0 }
    ensures size { length roots.new ≡ length roots.old }
    ensures zero { slice_index roots.new 0 ≡ 0 }
    ensures easy { (v : ℕ) → v < length table.now → mark_at layout.now.hard.items (slice_index layout.now.node_homes.items v) ≡ false → slice_index roots.new v ≡ slice_index roots.old v }
    ensures solved { IfOk result (λ h. (g : ℕ) → 0 < g → g < stop_at h (length table.now) → mark_at layout.now.hard.items g ≡ true → HasSolved table.now conjuncts.now layout.now g (slice_index roots.new)) }
    ensures failed { IfOk result (λ h. h ≢ 0 → (h < length table.now) × (mark_at layout.now.hard.items h ≡ true) × HasNoSolution table.now conjuncts.now layout.now h) }
{
    for home in 1..table.len() as u32 {
        if !solve_if_hard(alloc, conjuncts, table, layout, home, roots)? {
            return Ok(home);
        }
    }
    Ok(0)
}

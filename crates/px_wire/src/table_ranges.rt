ghost use Rattle.std.specs.Prelude.{◌≡◌};
ghost use Rattle.std.specs.List.{list_all};
ghost use Rattle.px_wire.specs.TermRanges.{content_within};
ghost use Rattle.px_wire.specs.TableRanges.{atom_state_within, atom_within, result_within, entry_within, cause_within, gap_within, table_within};

use crate::term_ranges::{
    are_conjuncts_within, are_variables_within, is_content_within, is_type_within,
    is_variable_within,
};
use px_entry::{Atom, AtomState, Cause, Entry, Gap, Table};
use px_terms::Content;

/// How many variables a path has at most.
const MOST_VARIABLES: usize = 8_192;

/// Whether each entry of a table mentions its own variables and these block types alone.
pub(crate) fn is_table_within(types: usize, table: &Table) -> bool
    ensures { result ≡ table_within types table.now }
{
    are_entries_within(types, table.entries.as_slice()) && are_drops_within(table.drops.as_slice())
}

fn are_entries_within(types: usize, entries: &[Entry]) -> bool
    ensures { result ≡ list_all (entry_within types) entries.now }
{
    entries.iter().all(|e| is_entry_within(types, e))
}

/// Whether an entry mentions its own variables and these block types alone.
pub fn is_entry_within(types: usize, entry: &Entry) -> bool
    ensures { result ≡ entry_within types entry.now }
{
    let variables = entry.vars.len();
    are_variables_within(types, entry.vars.as_slice())
        && is_result_within(variables, &entry.result)
        && are_conjuncts_within(variables, entry.pure.as_slice())
        && are_atoms_within(variables, types, entry.pre.as_slice())
        && are_atoms_within(variables, types, entry.post.as_slice())
}

fn is_result_within(variables: usize, given: &Option<Content>) -> bool
    ensures { result ≡ result_within variables given.now }
{
    match given {
        Some(content) => is_content_within(variables, content),
        None => true,
    }
}

fn are_atoms_within(variables: usize, types: usize, atoms: &[Atom]) -> bool
    ensures { result ≡ list_all (atom_within variables types) atoms.now }
{
    atoms.iter().all(|a| is_atom_within(variables, types, a))
}

fn is_atom_within(variables: usize, types: usize, atom: &Atom) -> bool
    ensures { result ≡ atom_within variables types atom.now }
{
    is_variable_within(variables, atom.place.0)
        && is_type_within(types, atom.block)
        && is_state_within(variables, &atom.state)
}

fn is_state_within(variables: usize, state: &AtomState) -> bool
    ensures { result ≡ atom_state_within variables state.now }
{
    match state {
        AtomState::Live(cells) => are_contents_within(variables, cells.as_slice()),
        AtomState::Freed => true,
    }
}

fn are_contents_within(variables: usize, contents: &[Content]) -> bool
    ensures { result ≡ list_all (content_within variables) contents.now }
{
    contents.iter().all(|c| is_content_within(variables, c))
}

fn are_drops_within(drops: &[Gap]) -> bool
    ensures { result ≡ list_all gap_within drops.now }
{
    drops.iter().all(|g| is_drop_within(g))
}

/// Whether a drop mentions variables alone that a path may have.
pub fn is_drop_within(gap: &Gap) -> bool
    ensures { result ≡ gap_within gap.now }
{
    is_cause_within(&gap.cause)
}

fn is_cause_within(cause: &Cause) -> bool
    ensures { result ≡ cause_within cause.now }
{
    match cause {
        Cause::Undecided(conjuncts) => are_conjuncts_within(MOST_VARIABLES, conjuncts.as_slice()),
        _ => true,
    }
}

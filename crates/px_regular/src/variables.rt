ghost use Rattle.std.specs.Prelude.{◌≡◌, ◌||◌, not};
ghost use Rattle.std.specs.List.{list_all};
ghost use Rattle.px_entry.specs.Sorts as sorts;
ghost use Rattle.px_entry.specs.Regular as spec;

use px_terms::{Sort, VarInfo};
use px_ways::is_int_type;

fn is_given_sort(sort: Sort) -> bool
    ensures { result ≡ sorts.is_given_sort sort }
{
    matches!(sort, Sort::Given)
}

pub(crate) fn is_cell_sort(sort: Sort) -> bool
    ensures { result ≡ sorts.is_cell_sort sort }
{
    matches!(sort, Sort::Cell)
}

fn is_input_sort(sort: Sort) -> bool
    ensures { result ≡ sorts.is_input_sort sort }
{
    matches!(sort, Sort::Input)
}

pub(crate) fn is_made_sort(sort: Sort) -> bool
    ensures { result ≡ sorts.is_made_sort sort }
{
    matches!(sort, Sort::Made)
}

// Whether a variable of the list is given.
pub(crate) fn is_given(vars: &[VarInfo], x: u32) -> bool
    ensures { result ≡ sorts.is_given vars.now x }
{
    match vars.get(x as usize) {
        Some(info) => is_given_sort(info.sort),
        None => false,
    }
}

// Whether a variable of the list is an input.
pub(crate) fn is_input(vars: &[VarInfo], x: u32) -> bool
    ensures { result ≡ sorts.is_input vars.now x }
{
    match vars.get(x as usize) {
        Some(info) => is_input_sort(info.sort),
        None => false,
    }
}

// Whether none is given.
fn is_none_given(vars: &[VarInfo]) -> bool
    ensures { result ≡ list_all (λ i. not (sorts.is_given_sort i.sort)) vars.now }
{
    vars.iter().all(|info| !is_given_sort(info.sort))
}

// Whether the first variables, so many, are given, and no other is.
pub(crate) fn are_given(count: usize, vars: &[VarInfo]) -> bool
    ensures { result ≡ spec.are_given count vars.now }
{
    let mut left = count;
    let mut rest = vars;
    while left > 0 {
        let Some((first, others)) = rest.split_first() else {
            return false;
        };
        if !is_given_sort(first.sort) {
            return false;
        }
        left -= 1;
        rest = others;
    }
    is_none_given(rest)
}

// Whether each input is an `int`.
pub(crate) fn are_inputs_words(vars: &[VarInfo]) -> bool
    ensures { result ≡ spec.are_inputs_words vars.now }
{
    vars.iter().all(|info| !is_input_sort(info.sort) || is_int_type(info.value))
}

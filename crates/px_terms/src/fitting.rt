ghost use Rattle.std.specs.Prelude.{◌≡◌, ◌↔◌, ℕ, ◌<◌, true, false, length};
ghost use Rattle.px_terms.specs.Valuations.{valuation_of, HasType, IsBlock, FitsSort, FitTogether};
ghost use Rattle.px_terms.specs.Fitting.{HaveOneType, StandApart, StandsApartBelow, FitsAt};
ghost use Rattle.px_terms.specs.declared.variables.Sort.TheVariants.{Made};

use crate::truth::is_unwritten;
use crate::{Sort, Value, ValueType, VarInfo};

// Whether a value is written and of the type.
fn has_type(kind: ValueType, value: Value) -> bool
    ensures { result ≡ true ↔ HasType kind value }
{
    match (kind, value) {
        (ValueType::Int, Value::Word(_)) => true,
        (ValueType::Pointer(_), Value::Null | Value::Block(_)) => true,
        _ => false,
    }
}

// Whether a value is a block.
fn is_block(value: Value) -> bool
    ensures { result ≡ true ↔ IsBlock value }
{
    matches!(value, Value::Block(_))
}

// Whether a variable of this sort and type may have the value.
fn fits_sort(info: VarInfo, value: Value) -> bool
    ensures { result ≡ true ↔ FitsSort info.sort info.value value }
{
    match info.sort {
        Sort::Given | Sort::Input => has_type(info.value, value),
        Sort::Cell => is_unwritten(value) || has_type(info.value, value),
        Sort::Made => has_type(info.value, value) && is_block(value),
    }
}

// Whether a variable stands for a block that `malloc` made.
fn is_made(info: VarInfo) -> bool
    ensures { result ≡ true ↔ info.sort ≡ Made }
{
    matches!(info.sort, Sort::Made)
}

// Whether two variables of these types may have one block.
fn have_one_type(i: ValueType, j: ValueType) -> bool
    ensures { result ≡ true ↔ HaveOneType i j }
{
    match (i, j) {
        (ValueType::Pointer(s), ValueType::Pointer(t)) => s == t,
        _ => true,
    }
}

// Whether two variables may have these values.
fn stand_apart(i: VarInfo, a: Value, j: VarInfo, b: Value) -> bool
    ensures { result ≡ true ↔ StandApart i a j b }
{
    a != b || (!is_made(i) && !is_made(j) && have_one_type(i.value, j.value))
}

// Whether a variable and each one before it may have their values.
fn stands_apart(vars: &[VarInfo], values: &[Value], x: usize) -> bool
    requires size { length values.now ≡ length vars.now }
    requires inside { x < length vars.now }
    ensures { result ≡ true ↔ StandsApartBelow vars.now values.now x x }
{
    for y in 0..x {
        if !stand_apart(vars[y], values[y], vars[x], values[x]) {
            return false;
        }
    }
    true
}

// Whether a variable may have its value, beside those of the variables before it.
fn fits_at(vars: &[VarInfo], values: &[Value], x: usize) -> bool
    requires size { length values.now ≡ length vars.now }
    requires inside { x < length vars.now }
    ensures { result ≡ true ↔ FitsAt vars.now values.now x }
{
    fits_sort(vars[x], values[x]) && (!is_block(values[x]) || stands_apart(vars, values, x))
}

/// Whether values fit a list of variables: one for each, of its sort and type, where a made block is that of no
/// other variable, and a block has one type. Takes no memory. The time is quadratic where many are blocks.
pub fn fits(vars: &[VarInfo], values: &[Value]) -> bool
    ensures { result ≡ true ↔ FitTogether vars.now values.now }
{
    if values.len() != vars.len() {
        return false;
    }
    for x in 0..vars.len() {
        if !fits_at(vars, values, x) {
            return false;
        }
    }
    true
}

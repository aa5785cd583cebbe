ghost use Rattle.std.specs.Prelude.{◌≡◌, ℕ, ◌<◌, All, Bool, true, false, IfOk, OnOk, OnErr};
ghost use Rattle.px_parity.specs.Bits.{bit_of, parity};
ghost use Rattle.px_parity.specs.Equations.{columns, AreEven, IsPivot, IsCleared, IsTriangular, AddsEquation};

use crate::row::Row;
use std::alloc::AllocError;

// An equation, and a variable of it that no later one has.
#[derive(Drop)]
pub(crate) struct Pivot {
    pub(crate) row: Row,
    pub(crate) lead: usize,
}

// What an equation, or a conjunct, is to those before it.
#[derive(Clone, Copy)]
pub(crate) enum Mark {
    // They imply it, or it says nothing modulo 2.
    Implied,
    // It is a pivot more.
    Added,
    // It contradicts them, or they contradict each other.
    Refuted,
}

// Takes the variable of a pivot out of an equation.
fn clear(row: &mut Row, pivot: &Pivot) -> Result<(), AllocError>
    requires { IsPivot pivot.now }
    ensures cleared { OnOk result (bit_of row.new pivot.now.lead ≡ false) }
    ensures kept { OnOk result ((k : ℕ) → bit_of pivot.now.row k ≡ false → bit_of row.new k ≡ bit_of row.old k) }
    ensures same { OnOk result ((w : ℕ → Bool) → parity w pivot.now.row ≡ false → parity w row.new ≡ parity w row.old) }
{
    if row.has(pivot.lead) {
        row.add(&pivot.row)?;
    }
    Ok(())
}

// Takes the variables of all pivots out of an equation.
fn reduce(row: &mut Row, pivots: &[Pivot]) -> Result<(), AllocError>
    requires { IsTriangular pivots.now }
    ensures cleared { OnOk result (IsCleared row.new pivots.now) }
    ensures same { OnOk result ((w : ℕ → Bool) → AreEven w pivots.now → parity w row.new ≡ parity w row.old) }
{
    for pivot in pivots {
        clear(row, pivot)?;
    }
    Ok(())
}

// Adds an equation, and says what it is to the others. Rows are added only for the pivots whose variables stand in it.
pub(crate) fn insert(pivots: &mut Vec<Pivot>, mut row: Row) -> Result<Mark, AllocError>
    requires { IsTriangular pivots.old.items }
    ensures adds { IfOk result (λ mark. AddsEquation mark pivots.old.items pivots.new.items (λ v. parity (columns v) row ≡ false)) }
    ensures failed { OnErr result (pivots.new.items ≡ pivots.old.items) }
{
    reduce(&mut row, pivots)?;
    match row.first_variable() {
        Some(lead) => {
            pivots.push(Pivot { row, lead })?;
            Ok(Mark::Added)
        }
        None => {
            if row.has(0) {
                return Ok(Mark::Refuted);
            }
            Ok(Mark::Implied)
        }
    }
}

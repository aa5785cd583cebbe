ghost use Rattle.std.specs.Prelude.{◌≡◌, ◌↔◌, List, IfOk};
ghost use Rattle.px_terms.specs.Conjuncts.{AreWellSorted};
ghost use Rattle.px_terms.specs.declared.types.Value.{Value as ValueOf};
ghost use Rattle.px_plain.specs.Models.{IsPlainModel, IsLeastModel, IsPlainlyRefuted};

use crate::reading::read_all;
use crate::solve::solve;
use px_terms::{Conj, Items, NoMemory, Value, VarInfo};
use std::alloc::Global;

/// A value for each variable, in their order.
pub type Values = Items<Value>;

/// Whether plain conjuncts can be true together.
#[derive(Drop)]
pub enum Plain {
    /// Values that fit the variables and make all plain conjuncts true.
    Model(Values),
    /// There are no such values.
    Refuted,
}

/// Decides the plain conjuncts of a list; the others it passes over.
///
/// Word variables that equalities tie share a class, each by its difference from the least of the class,
/// so chains may wrap. The classes then take the least words that disequalities leave them, from the least
/// variable up. Places that are the same share a block, named by the least variable of them, or are null
/// where something makes them so: only null can be of two types.
///
/// After `NoMemory` nothing is known. The time is that of sorting the conjuncts.
pub fn sat(alloc: Global, vars: &[VarInfo], conjuncts: &[Conj]) -> Result<Plain, NoMemory>
    requires { AreWellSorted vars.now conjuncts.now }
    ensures model { IfOk result (λ p. (vs : List ValueOf) → p ≡ Plain.Model vs → IsPlainModel vars.now conjuncts.now vs) }
    ensures least { IfOk result (λ p. (vs : List ValueOf) → p ≡ Plain.Model vs → IsLeastModel vars.now conjuncts.now vs) }
    ensures refuted { IfOk result (λ p. (p ≡ Plain.Refuted) ↔ IsPlainlyRefuted vars.now conjuncts.now) }
{
    let parts = read_all(alloc, conjuncts)?;
    match solve(alloc, vars, &parts)? {
        None => Ok(Plain::Refuted),
        Some(values) => Ok(Plain::Model(Values::from_vec(values))),
    }
}

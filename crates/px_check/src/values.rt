ghost use Rattle.std.specs.Prelude.{◌≡◌, ◌↔◌, true, length, All};
ghost use Rattle.px_terms.specs.Valuations.{valuation_of};
ghost use Rattle.px_terms.specs.Conjuncts.{IsTrueUnder};
ghost use Rattle.px_entry.specs.Satisfied.{IsSatisfied};
ghost use Rattle.px_check.specs.Values.{AreInside, HavePlaces};

use crate::separate::are_separate;
use px_entry::Entry;
use px_terms::{Conj, Value, eval, fits};

// Whether values make conjuncts true.
fn are_true(conjuncts: &[Conj], values: &[Value]) -> bool
    requires { AreInside (length values.now) conjuncts.now }
    ensures { result ≡ true ↔ All (IsTrueUnder (valuation_of values.now)) conjuncts.now }
{
    for i in 0..conjuncts.len() {
        if !eval(&conjuncts[i], values) {
            return false;
        }
    }
    true
}

/// Whether an entry's own values fit its variables and make its constraint true. Takes no memory.
pub(crate) fn is_satisfied(entry: &Entry) -> bool
    requires pure { AreInside (length entry.now.vars) entry.now.pure }
    requires places { HavePlaces (length entry.now.vars) entry.now.post }
    ensures { result ≡ true ↔ IsSatisfied entry.now }
{
    let vars = entry.vars.as_slice();
    let values = entry.model.as_slice();
    if fits(vars, values) {
        are_true(entry.pure.as_slice(), values) && are_separate(vars, entry.post.as_slice(), values)
    } else {
        false
    }
}

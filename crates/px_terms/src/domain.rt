ghost use Rattle.std.specs.Prelude.{◌≡◌, ◌↔◌, ◌<◌, ℕ, List, [], ◌∷◌, All, length, true, map, IfOk, IfErr, OnOk};
ghost use Rattle.px_terms.specs.Variables.{mentioned};
ghost use Rattle.px_terms.specs.Conjuncts.{AreWellSorted};
ghost use Rattle.px_terms.specs.Rules.{RulesOut, SomeRulesOut};
ghost use Rattle.px_terms.specs.declared.conjuncts.Conj.{Conj as ConjOf};

use crate::{Conj, NoMemory, VarInfo};

/// A way to rule lists of conjuncts out: by intervals (kind 1), by parity (kind 2) or by order (kind 3).
/// A domain of another kind has no rule, and rules nothing out.
///
/// It is asked of a list that is handed in, or of the conjuncts that it holds: these are pushed and popped one by one, so
/// that lists with one beginning share the work on it.
pub trait Domain: Drop + Send {
    /// The number of its rule.
    ghost number: { Self → ℕ };

    /// It holds these conjuncts, the last one first.
    ghost holds: { Self → List ConjOf → Type 0 };

    /// The number of its rule.
    fn kind(&self) -> u8
        ensures { result ≡ number self.now };

    /// Whether the rule of the domain's kind rules the conjuncts out. `vars` says what the variables are.
    /// It doesn't look at what it holds, and that stays.
    fn refutes(&mut self, vars: &[VarInfo], conjuncts: &[Conj]) -> Result<bool, NoMemory>
        requires { AreWellSorted vars.now conjuncts.now }
        ensures answer { IfOk result (λ yes. yes ≡ true ↔ RulesOut (number self.old) conjuncts.now) }
        ensures held { (cs : List ConjOf) → holds self.old cs → holds self.new cs }
        ensures kind { number self.new ≡ number self.old };

    /// Whether it holds no conjunct.
    fn is_clear(&self) -> bool
        ensures { result ≡ true ↔ holds self.now [] };

    /// Adds a conjunct to those that it holds. After `NoMemory` these are as before.
    fn push(&mut self, conjunct: &Conj) -> Result<(), NoMemory>
        requires few { (cs : List ConjOf) × holds self.old cs × (length cs < 65536) }
        requires variables { All (λ x. x < 65536) (mentioned conjunct.now) }
        ensures pushed { OnOk result ((cs : List ConjOf) → holds self.old cs → holds self.new (conjunct.now ∷ cs)) }
        ensures failed { IfErr result (λ e. (cs : List ConjOf) → holds self.old cs → holds self.new cs) }
        ensures kind { number self.new ≡ number self.old };

    /// Takes back the conjunct that was pushed last.
    fn pop(&mut self)
        requires some { (c : ConjOf) × (cs : List ConjOf) × holds self.old (c ∷ cs) }
        ensures popped { (c : ConjOf) (cs : List ConjOf) → holds self.old (c ∷ cs) → holds self.new cs }
        ensures kind { number self.new ≡ number self.old };

    /// Whether the rule of the domain's kind rules out what it holds.
    fn refuted(&self) -> bool
        ensures { (cs : List ConjOf) → holds self.now cs → (result ≡ true ↔ RulesOut (number self.now) cs) };
}

/// Whether some domain of the list rules the conjuncts out. The list keeps its length, its order, its kinds and what
/// it holds, after `NoMemory` too.
pub fn some_refutes(
    vars: &[VarInfo],
    conjuncts: &[Conj],
    domains: &mut Vec<Box<dyn Domain>>,
) -> Result<bool, NoMemory>
    requires { AreWellSorted vars.now conjuncts.now }
    ensures answer { IfOk result (λ yes. yes ≡ true ↔ SomeRulesOut (map (λ b. number b) domains.old.items) conjuncts.now) }
    ensures held { (cs : List ConjOf) → All (λ b. holds b cs) domains.old.items → All (λ b. holds b cs) domains.new.items }
    ensures kinds { map (λ b. number b) domains.new.items ≡ map (λ b. number b) domains.old.items }
{
    let mut yes = false;
    for i in 0..domains.len() {
        let here = refuted_by(vars, conjuncts, &mut domains[i])?;
        yes |= here;
    }
    Ok(yes)
}

// Whether this domain rules the conjuncts out.
fn refuted_by(
    vars: &[VarInfo],
    conjuncts: &[Conj],
    domain: &mut Box<dyn Domain>,
) -> Result<bool, NoMemory>
    requires { AreWellSorted vars.now conjuncts.now }
    ensures answer { IfOk result (λ yes. yes ≡ true ↔ RulesOut (number domain.old) conjuncts.now) }
    ensures held { (cs : List ConjOf) → holds domain.old cs → holds domain.new cs }
    ensures kind { number domain.new ≡ number domain.old }
{
    domain.refutes(vars, conjuncts)
}

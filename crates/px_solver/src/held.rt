ghost use Rattle.std.specs.Prelude.{◌≡◌, ◌↔◌, ◌<◌, List, ◌∷◌, All, map, length, true, OnOk, IfErr};
ghost use Rattle.px_terms.specs.Variables.{mentioned};
ghost use Rattle.px_terms.specs.Conjuncts.{IsWellSorted};
ghost use Rattle.px_terms.specs.Rules.{RulesOut, SomeRulesOut};
ghost use Rattle.px_terms.specs.declared.conjuncts.Conj.{Conj as ConjOf};
ghost use Rattle.px_plain.specs.Held.{HeldItem, OfConj, held_vars, held_conjuncts, held_count};
ghost use Rattle.px_plain.specs.Stacks.{Holds};
ghost use Rattle.px_solver.specs.Decisions.{IsRefuted};
ghost use Rattle.px_solver.specs.Pushed.{pushed_conjuncts};

use px_plain::Stack;
use px_terms::{Conj, Domain, NoMemory};

/// Adds a conjunct to what the stack holds and to what each domain holds: everywhere, or, after `NoMemory`, nowhere.
pub fn push(
    stack: &mut Stack,
    domains: &mut Vec<Box<dyn Domain>>,
    conjunct: &Conj,
) -> Result<(), NoMemory>
    requires stack { (items : List HeldItem) × Holds stack.old items × IsWellSorted (held_vars items) conjunct.now × (held_count items < 65536) }
    requires domains { (cs : List ConjOf) × All (λ b. holds b cs) domains.old.items × (length cs < 65536) }
    requires variables { All (λ x. x < 65536) (mentioned conjunct.now) }
    ensures pushed { OnOk result ((items : List HeldItem) → Holds stack.old items → Holds stack.new (OfConj conjunct.now ∷ items)) }
    ensures everywhere { OnOk result ((cs : List ConjOf) → All (λ b. holds b cs) domains.old.items → All (λ b. holds b (conjunct.now ∷ cs)) domains.new.items) }
    ensures failed { IfErr result (λ e. (items : List HeldItem) → Holds stack.old items → Holds stack.new items) }
    ensures nowhere { IfErr result (λ e. (cs : List ConjOf) → All (λ b. holds b cs) domains.old.items → All (λ b. holds b cs) domains.new.items) }
    ensures kinds { map (λ b. number b) domains.new.items ≡ map (λ b. number b) domains.old.items }
{
    stack.push(conjunct)?;
    if let Err(fault) = push_each(domains, conjunct) {
        stack.pop();
        return Err(fault);
    }
    Ok(())
}

/// Takes back the conjunct that the stack and each domain hold last. Takes no memory.
pub fn pop(stack: &mut Stack, domains: &mut Vec<Box<dyn Domain>>)
    requires stack { (c : ConjOf) × (items : List HeldItem) × Holds stack.old (OfConj c ∷ items) }
    requires domains { (c : ConjOf) × (cs : List ConjOf) × All (λ b. holds b (c ∷ cs)) domains.old.items }
    ensures popped { (i : HeldItem) (items : List HeldItem) → Holds stack.old (i ∷ items) → Holds stack.new items }
    ensures everywhere { (c : ConjOf) (cs : List ConjOf) → All (λ b. holds b (c ∷ cs)) domains.old.items → All (λ b. holds b cs) domains.new.items }
    ensures kinds { map (λ b. number b) domains.new.items ≡ map (λ b. number b) domains.old.items }
{
    stack.pop();
    pop_each(domains);
}

/// Whether what the stack and the domains hold is refuted. The stack may hold places apart, which the domains don't need:
/// their rules look at no place. Takes no memory.
pub fn refuted_now(stack: &Stack, domains: &Vec<Box<dyn Domain>>) -> bool
    ensures { (items : List HeldItem) → Holds stack.now items → All (λ b. holds b (pushed_conjuncts items)) domains.now.items → (result ≡ true ↔ IsRefuted (held_vars items) (held_conjuncts items) (map (λ b. number b) domains.now.items)) }
{
    stack.refuted() || some_refuted(domains)
}

// Adds a conjunct to what each domain holds, or to none.
fn push_each(domains: &mut [Box<dyn Domain>], conjunct: &Conj) -> Result<(), NoMemory>
    requires few { (cs : List ConjOf) × All (λ b. holds b cs) domains.old × (length cs < 65536) }
    requires variables { All (λ x. x < 65536) (mentioned conjunct.now) }
    ensures pushed { OnOk result ((cs : List ConjOf) → All (λ b. holds b cs) domains.old → All (λ b. holds b (conjunct.now ∷ cs)) domains.new) }
    ensures failed { IfErr result (λ e. (cs : List ConjOf) → All (λ b. holds b cs) domains.old → All (λ b. holds b cs) domains.new) }
    ensures kinds { map (λ b. number b) domains.new ≡ map (λ b. number b) domains.old }
{
    let Some((first, rest)) = domains.split_first_mut() else {
        return Ok(());
    };
    push_on(first, conjunct)?;
    if let Err(fault) = push_each(rest, conjunct) {
        pop_from(first);
        return Err(fault);
    }
    Ok(())
}

// Takes back what each domain holds last.
fn pop_each(domains: &mut [Box<dyn Domain>])
    requires { (c : ConjOf) × (cs : List ConjOf) × All (λ b. holds b (c ∷ cs)) domains.old }
    ensures popped { (c : ConjOf) (cs : List ConjOf) → All (λ b. holds b (c ∷ cs)) domains.old → All (λ b. holds b cs) domains.new }
    ensures kinds { map (λ b. number b) domains.new ≡ map (λ b. number b) domains.old }
{
    let Some((first, rest)) = domains.split_first_mut() else {
        return;
    };
    pop_from(first);
    pop_each(rest);
}

// Whether some domain rules out what all hold.
fn some_refuted(domains: &[Box<dyn Domain>]) -> bool
    ensures { (cs : List ConjOf) → All (λ b. holds b cs) domains.now → (result ≡ true ↔ SomeRulesOut (map (λ b. number b) domains.now) cs) }
{
    let Some((first, rest)) = domains.split_first() else {
        return false;
    };
    is_refuted_by(first) || some_refuted(rest)
}

fn push_on(domain: &mut Box<dyn Domain>, conjunct: &Conj) -> Result<(), NoMemory>
    requires few { (cs : List ConjOf) × holds domain.old cs × (length cs < 65536) }
    requires variables { All (λ x. x < 65536) (mentioned conjunct.now) }
    ensures pushed { OnOk result ((cs : List ConjOf) → holds domain.old cs → holds domain.new (conjunct.now ∷ cs)) }
    ensures failed { IfErr result (λ e. (cs : List ConjOf) → holds domain.old cs → holds domain.new cs) }
    ensures kind { number domain.new ≡ number domain.old }
{
    domain.push(conjunct)
}

fn pop_from(domain: &mut Box<dyn Domain>)
    requires { (c : ConjOf) × (cs : List ConjOf) × holds domain.old (c ∷ cs) }
    ensures popped { (c : ConjOf) (cs : List ConjOf) → holds domain.old (c ∷ cs) → holds domain.new cs }
    ensures kind { number domain.new ≡ number domain.old }
{
    domain.pop();
}

fn is_refuted_by(domain: &Box<dyn Domain>) -> bool
    ensures { (cs : List ConjOf) → holds domain.now cs → (result ≡ true ↔ RulesOut (number domain.now) cs) }
{
    domain.refuted()
}

ghost use Rattle.std.specs.Prelude.{◌≡◌, ℕ, ◌+◌, ◌%◌, ◌^◌, ◌<◌, ◌≤◌, ◌++◌, [], ◌∷◌, length, All, IfOk, OnOk};
ghost use Rattle.std.specs.List.{AllZip};
ghost use Rattle.px_terms.specs.Monomials.{term_of};
ghost use Rattle.px_terms.specs.Variables.{variables_of, mentioned};
ghost use Rattle.px_terms.specs.declared.conjuncts.Conj.TheVariants.{Quotient};
ghost use Rattle.px_plain.specs.Forest.{IsForest, Keeps};
ghost use Rattle.px_solver.specs.Tables as spec;
ghost use Rattle.px_solver.specs.Tables.{roots_of, AreOne, Joins, HasFirst};

use px_plain::{Node, join};
use px_terms::{Conj, Monomial, Poly, Var};
use std::alloc::{AllocError, Global};

// Adds the root of a variable, but for node 0.
fn push_root(out: &mut Vec<u32>, table: &[Node], x: u32) -> Result<(), AllocError>
    requires small { length table.now ≤ 65537 }
    requires inside { x + 1 < length table.now }
    ensures { OnOk result (out.new.items ≡ out.old.items ++ roots_of table.now (x ∷ [])) }
{
    let root = table[x as usize + 1].parent;
    if root != 0 {
        out.push(root)?;
    }
    Ok(())
}

// Adds the roots of a monomial's variables.
fn push_product(out: &mut Vec<u32>, table: &[Node], m: &Monomial<4>) -> Result<(), AllocError>
    requires small { length table.now ≤ 65537 }
    requires inside { All (λ x. x + 1 < length table.now) (term_of m.now).vars }
    ensures { OnOk result (out.new.items ≡ out.old.items ++ roots_of table.now (term_of m.now).vars) }
{
    let vars = m.vars();
    for i in 0..vars.len() {
        push_root(out, table, vars[i])?;
    }
    Ok(())
}

// Adds the roots of a polynomial's variables.
fn push_sum(out: &mut Vec<u32>, table: &[Node], p: &Poly) -> Result<(), AllocError>
    requires small { length table.now ≤ 65537 }
    requires inside { All (λ x. x + 1 < length table.now) (variables_of p.now) }
    ensures { OnOk result (out.new.items ≡ out.old.items ++ roots_of table.now (variables_of p.now)) }
{
    for m in p.monomials() {
        push_product(out, table, m)?;
    }
    Ok(())
}

// Adds the roots of a quotient's variables.
fn push_quotient(
    out: &mut Vec<u32>,
    table: &[Node],
    x: Var,
    p: &Poly,
    q: &Poly,
) -> Result<(), AllocError>
    requires small { length table.now ≤ 65537 }
    requires variable { x.0 + 1 < length table.now }
    requires left { All (λ x. x + 1 < length table.now) (variables_of p.now) }
    requires right { All (λ x. x + 1 < length table.now) (variables_of q.now) }
    ensures { OnOk result (out.new.items ≡ out.old.items ++ roots_of table.now (mentioned (Quotient x p.now q.now))) }
{
    push_root(out, table, x.0)?;
    push_sum(out, table, p)?;
    push_sum(out, table, q)
}

// Adds what a conjunct touches.
fn push_touched(out: &mut Vec<u32>, table: &[Node], conjunct: &Conj) -> Result<(), AllocError>
    requires small { length table.now ≤ 65537 }
    requires inside { All (λ x. x + 1 < length table.now) (mentioned conjunct.now) }
    ensures { OnOk result (out.new.items ≡ out.old.items ++ spec.touched table.now conjunct.now) }
{
    match conjunct {
        Conj::Equal(p) | Conj::Unequal(p) => push_sum(out, table, p),
        Conj::Less(p, q) | Conj::AtMost(p, q) => {
            push_sum(out, table, p)?;
            push_sum(out, table, q)
        }
        Conj::Quotient(x, p, q) => push_quotient(out, table, *x, p, q),
        _ => Ok(()),
    }
}

// Joins the trees of two nodes.
fn join_two(components: &mut [Node], from: u32, to: u32)
    requires forest { IsForest components.old }
    requires bare { Keeps (λ v. 0) components.old }
    requires from_inside { from < length components.old }
    requires to_inside { to < length components.old }
    ensures forest { IsForest components.new }
    ensures bare { Keeps (λ v. 0) components.new }
    ensures old { (val : ℕ → ℕ) → Keeps val components.new → Keeps val components.old }
    ensures joined { (val : ℕ → ℕ) → Keeps val components.new → val to % 2 ^ 32 ≡ val from % 2 ^ 32 }
    ensures new { (val : ℕ → ℕ) → Keeps val components.old → val to % 2 ^ 32 ≡ val from % 2 ^ 32 → Keeps val components.new }
{
    let _joined = join(components, from as usize, to as usize, 0);
}

// Joins the trees of all nodes of a list.
fn join_roots(components: &mut [Node], nodes: &[u32])
    requires forest { IsForest components.old }
    requires bare { Keeps (λ v. 0) components.old }
    requires inside { All (λ u. u < length components.old) nodes.now }
    ensures forest { IsForest components.new }
    ensures bare { Keeps (λ v. 0) components.new }
    ensures old { (val : ℕ → ℕ) → Keeps val components.new → Keeps val components.old }
    ensures one { (val : ℕ → ℕ) → Keeps val components.new → AreOne val nodes.now }
    ensures new { (val : ℕ → ℕ) → Keeps val components.old → AreOne val nodes.now → Keeps val components.new }
{
    for i in 1..nodes.len() {
        join_two(components, nodes[0], nodes[i]);
    }
}

// The first of a list, or 0.
fn first_of(nodes: &[u32]) -> u32
    ensures { result ≡ spec.first_of nodes.now }
{
    match nodes {
        [] => 0,
        [first, ..] => *first,
    }
}

// Joins what each conjunct touches, and gives the first root that each touches, or 0.
pub(crate) fn join_all_touched(
    alloc: Global,
    components: &mut [Node],
    table: &[Node],
    conjuncts: &[Conj],
) -> Result<Vec<u32>, AllocError>
    requires small { length table.now ≤ 65537 }
    requires forest { IsForest table.now }
    requires size { length components.old ≡ length table.now }
    requires components { IsForest components.old }
    requires free { (val : ℕ → ℕ) → Keeps val components.old }
    requires inside { All (λ c. All (λ x. x + 1 < length table.now) (mentioned c)) conjuncts.now }
    ensures joins { IfOk result (λ _. Joins table.now conjuncts.now components.new) }
    ensures firsts { IfOk result (λ homes. AllZip (HasFirst table.now) conjuncts.now homes.items) }
{
    let mut homes = Vec::new(alloc);
    let mut touched = Vec::new(alloc);
    for conjunct in conjuncts {
        touched.clear();
        push_touched(&mut touched, table, conjunct)?;
        join_roots(components, &touched);
        homes.push(first_of(&touched))?;
    }
    Ok(homes)
}

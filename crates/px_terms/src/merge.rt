ghost use Rattle.std.specs.Prelude.{◌≡◌, ℕ, ◌+◌, ◌++◌, ◌<◌, ◌≤◌, [], ◌∷◌, length, take, drop, map, fold, All, IfOk, OnOk};
ghost use Rattle.std.specs.List.Sorted.{IsNonDecreasing};
ghost use Rattle.px_terms.specs.Terms.{key_cmp, put_term, gathered, IsRising, IsNormal};
ghost use Rattle.px_terms.specs.Terms as spec;
ghost use Rattle.px_terms.specs.Rows.{times_of, row_of, TakesNext};
ghost use Rattle.px_terms.specs.Monomials.{term_of};

use crate::monomial::Monomial;
use std::alloc::{AllocError, Global};
use std::cmp::Ordering;

// The order of the variables: by degree, then one after another.
pub(crate) fn order<const N: usize>(a: &Monomial<N>, b: &Monomial<N>) -> Ordering
    ensures { result ≡ key_cmp (term_of a.now).vars (term_of b.now).vars }
{
    let by_degree = a.degree.cmp(&b.degree);
    by_degree.then(a.vars[..a.degree].cmp(&b.vars[..b.degree]))
}

// Puts a variable among the first `len`, which are in order.
fn put_among(vars: &mut [u32], len: usize, x: u32)
    requires { len < length vars.old }
    ensures { take (len + 1) vars.new ≡ spec.put_among (take len vars.old) x }
{
    let mut x = x;
    for i in 0..len {
        let y = vars[i];
        vars[i] = y.min(x);
        x = y.max(x);
    }
    vars[len] = x;
}

// The product of two monomials whose degrees leave room.
fn times<const N: usize>(s: &Monomial<N>, t: &Monomial<N>) -> Monomial<N>
    requires { s.now.degree + t.now.degree ≤ N }
    ensures { term_of result ≡ times_of (term_of s.now) (term_of t.now) }
{
    let mut vars = t.vars;
    for i in 0..s.degree {
        put_among(&mut vars, t.degree + i, s.vars[i]);
    }
    Monomial {
        coefficient: s.coefficient.wrapping_mul(t.coefficient),
        degree: t.degree + s.degree,
        vars,
    }
}

// Appends a monomial with these variables, unless its coefficient is 0.
fn put<const N: usize>(
    out: &mut Vec<Monomial<N>>,
    coefficient: u32,
    like: &Monomial<N>,
) -> Result<(), AllocError>
    ensures { OnOk result (map term_of out.new.items ≡ map term_of out.old.items ++ put_term coefficient (term_of like.now).vars []) }
{
    if coefficient != 0 {
        out.push(Monomial {
            coefficient,
            degree: like.degree,
            vars: like.vars,
        })?;
    }
    Ok(())
}

// Appends the monomials of `a` from `from` on that stand before `next`, and `next` together with the
// one of its variables, if there is one; says what is left of `a`.
fn put_next<const N: usize>(
    out: &mut Vec<Monomial<N>>,
    a: &[Monomial<N>],
    from: usize,
    next: &Monomial<N>,
) -> Result<usize, AllocError>
    requires from { from ≤ length a.now }
    requires rising { IsRising (map term_of a.now) }
    ensures to { IfOk result (λ to. to ≤ length a.now) }
    ensures takes { IfOk result (λ to. TakesNext (term_of next.now) (map term_of out.old.items) (map term_of (drop from a.now)) (map term_of out.new.items) (map term_of (drop to a.now))) }
{
    let mut i = from;
    while i < a.len() {
        let first = &a[i];
        match order(first, next) {
            Ordering::Less => out.push(*first)?,
            Ordering::Equal => {
                put(out, first.coefficient.wrapping_add(next.coefficient), next)?;
                return Ok(i + 1);
            }
            Ordering::Greater => break,
        }
        i += 1;
    }
    put(out, next.coefficient, next)?;
    Ok(i)
}

// The sum of some monomials and of the products of one with others.
//
// The products stand in the order of the others, so that one pass merges them with `a`.
pub(crate) fn add_row<const N: usize>(
    alloc: Global,
    a: &[Monomial<N>],
    s: &Monomial<N>,
    b: &[Monomial<N>],
) -> Result<Vec<Monomial<N>>, AllocError>
    requires left { IsRising (map term_of a.now) }
    requires right { IsNormal (map term_of b.now) }
    requires room { All (λ m. s.now.degree + m.degree ≤ N) b.now }
    ensures { IfOk result (λ v. map term_of v.items ≡ gathered (map term_of a.now ++ row_of (term_of s.now) (map term_of b.now))) }
{
    let mut out = Vec::with_capacity(alloc, a.len().saturating_add(b.len()))?;
    let mut i = 0;
    for m in b {
        let next = times(s, m);
        i = put_next(&mut out, a, i, &next)?;
    }
    out.extend_from_slice(&a[i..])?;
    Ok(out)
}

ghost use Rattle.std.specs.Prelude.{◌≡◌, ◌+◌, ◌%◌, ◌^◌};
ghost use Rattle.px_terms.specs.Monomials.{term_of};
ghost use Rattle.px_interval.specs.Bounds as spec;

use px_terms::{Conj, Monomial, Poly};

// How many places there are.
pub(crate) const PLACES: u64 = 0x1_0000_0000;

// What a polynomial is beside its constant.
#[derive(Clone, Copy)]
pub(crate) enum Form {
    // Nothing.
    Constant,
    // A variable.
    Plus(u32),
    // A variable, negated.
    Minus(u32),
    // Something else.
    Other,
}

// A side of an order.
#[derive(Clone, Copy)]
pub(crate) enum Side {
    // A constant, by its place.
    Constant(u32),
    // A variable alone.
    Variable(u32),
    // Something else.
    Other,
}

// The place of a variable's word is from `low` on and before `end`, or it isn't.
#[derive(Clone, Copy)]
pub(crate) struct Bound {
    pub(crate) variable: u32,
    pub(crate) inside: bool,
    pub(crate) low: u32,
    pub(crate) end: u64,
}

// The place of a word among all words in their signed order.
fn place(word: u32) -> u32
    ensures { result ≡ spec.place word }
{
    word.wrapping_add(0x8000_0000)
}

fn unit_of(monomial: &Monomial<4>) -> Form
    ensures { result ≡ spec.unit_of (term_of monomial.now) }
{
    let coefficient = monomial.coefficient();
    let [x] = monomial.vars() else {
        return Form::Other;
    };
    if coefficient == 1 {
        return Form::Plus(*x);
    }
    if coefficient == u32::MAX {
        return Form::Minus(*x);
    }
    Form::Other
}

fn form_of(p: &Poly) -> Form
    ensures { result ≡ spec.form_of p.now.monomials }
{
    match p.monomials() {
        [] => Form::Constant,
        [s] => unit_of(s),
        _ => Form::Other,
    }
}

fn side_of(p: &Poly) -> Side
    ensures { result ≡ spec.side_of p.now.constant (spec.form_of p.now.monomials) }
{
    let c = p.constant();
    match form_of(p) {
        Form::Constant => Side::Constant(place(c)),
        Form::Plus(x) if c == 0 => Side::Variable(x),
        _ => Side::Other,
    }
}

// The bound that an equality or a disequality is.
fn equal_bound(p: &Poly, inside: bool) -> Option<Bound>
    ensures { result ≡ spec.equal_bound p.now.constant inside (spec.form_of p.now.monomials) }
{
    let c = p.constant();
    let (variable, word) = match form_of(p) {
        Form::Plus(x) => (x, c.wrapping_neg()),
        Form::Minus(x) => (x, c),
        _ => return None,
    };
    let at = place(word);
    Some(Bound {
        variable,
        inside,
        low: at,
        end: u64::from(at) + 1,
    })
}

// The bound that `Less` is: the variable's place isn't that of the constant or one beyond it.
fn less_bound(first: Side, second: Side) -> Option<Bound>
    ensures { result ≡ spec.less_bound first second }
{
    match (first, second) {
        (Side::Variable(variable), Side::Constant(low)) => Some(Bound {
            variable,
            inside: false,
            low,
            end: PLACES,
        }),
        (Side::Constant(at), Side::Variable(variable)) => Some(Bound {
            variable,
            inside: false,
            low: 0,
            end: u64::from(at) + 1,
        }),
        _ => None,
    }
}

// The bound that `AtMost` is: the variable's place is that of the constant or one on this side of it.
fn at_most_bound(first: Side, second: Side) -> Option<Bound>
    ensures { result ≡ spec.at_most_bound first second }
{
    match (first, second) {
        (Side::Variable(variable), Side::Constant(at)) => Some(Bound {
            variable,
            inside: true,
            low: 0,
            end: u64::from(at) + 1,
        }),
        (Side::Constant(low), Side::Variable(variable)) => Some(Bound {
            variable,
            inside: true,
            low,
            end: PLACES,
        }),
        _ => None,
    }
}

// The bound that a conjunct is; none where it bounds no variable alone.
pub(crate) fn bound_of(conjunct: &Conj) -> Option<Bound>
    ensures { result ≡ spec.bound_of conjunct.now }
{
    match conjunct {
        Conj::Equal(p) => equal_bound(p, true),
        Conj::Unequal(p) => equal_bound(p, false),
        Conj::Less(p, q) => less_bound(side_of(p), side_of(q)),
        Conj::AtMost(p, q) => at_most_bound(side_of(p), side_of(q)),
        _ => None,
    }
}

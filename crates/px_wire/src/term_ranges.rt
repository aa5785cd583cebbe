ghost use Rattle.std.specs.Prelude.{◌≡◌, ◌&&◌, nat_lt};
ghost use Rattle.std.specs.List.{list_all};
ghost use Rattle.px_terms.specs.Monomials.{term_of};
ghost use Rattle.px_wire.specs.TermRanges.{value_type_within, block_type_within, var_info_within, polynomial_within, place_within, content_within, conj_within};

use px_terms::{BlockType, Conj, Content, Monomial, Place, Poly, TypeId, ValueType, VarInfo};

pub(crate) fn is_type_within(types: usize, t: TypeId) -> bool
    ensures { result ≡ nat_lt t.0 types }
{
    (t.0 as usize) < types
}

pub(crate) fn is_value_type_within(types: usize, t: ValueType) -> bool
    ensures { result ≡ value_type_within types t }
{
    match t {
        ValueType::Int => true,
        ValueType::Pointer(block) => is_type_within(types, block),
    }
}

pub(crate) fn are_value_types_within(types: usize, all: &[ValueType]) -> bool
    ensures { result ≡ list_all (value_type_within types) all.now }
{
    all.iter().all(|t| is_value_type_within(types, *t))
}

pub(crate) fn is_block_type_within(types: usize, t: &BlockType) -> bool
    ensures { result ≡ block_type_within types t.now }
{
    match t {
        BlockType::One(cell) => is_value_type_within(types, *cell),
        BlockType::Fields(cells) => are_value_types_within(types, cells.as_slice()),
        BlockType::Opaque => true,
    }
}

pub(crate) fn are_variables_within(types: usize, vars: &[VarInfo]) -> bool
    ensures { result ≡ list_all (var_info_within types) vars.now }
{
    vars.iter().all(|x| is_value_type_within(types, x.value))
}

// Whether a variable is one of so many.
pub(crate) fn is_variable_within(variables: usize, x: u32) -> bool
    ensures { result ≡ nat_lt x variables }
{
    (x as usize) < variables
}

fn are_numbers_within(variables: usize, xs: &[u32]) -> bool
    ensures { result ≡ list_all (λ x. nat_lt x variables) xs.now }
{
    xs.iter().all(|x| is_variable_within(variables, *x))
}

fn are_monomials_within(variables: usize, monomials: &[Monomial<4>]) -> bool
    ensures { result ≡ list_all (λ m. list_all (λ x. nat_lt x variables) (term_of m).vars) monomials.now }
{
    monomials
        .iter()
        .all(|m| are_numbers_within(variables, m.vars()))
}

fn is_polynomial_within(variables: usize, p: &Poly) -> bool
    ensures { result ≡ polynomial_within variables p.now }
{
    are_monomials_within(variables, p.monomials())
}

fn are_polynomials_within(variables: usize, p: &Poly, q: &Poly) -> bool
    ensures { result ≡ (polynomial_within variables p.now && polynomial_within variables q.now) }
{
    is_polynomial_within(variables, p) && is_polynomial_within(variables, q)
}

fn is_place_within(variables: usize, place: Place) -> bool
    ensures { result ≡ place_within variables place }
{
    match place {
        Place::Null => true,
        Place::Var(x) => is_variable_within(variables, x.0),
    }
}

pub(crate) fn is_content_within(variables: usize, content: &Content) -> bool
    ensures { result ≡ content_within variables content.now }
{
    match content {
        Content::Unwritten => true,
        Content::Word(p) => is_polynomial_within(variables, p),
        Content::Place(a) => is_place_within(variables, *a),
        Content::Cell(x) => is_variable_within(variables, x.0),
    }
}

fn is_conjunct_within(variables: usize, conjunct: &Conj) -> bool
    ensures { result ≡ conj_within variables conjunct.now }
{
    match conjunct {
        Conj::Equal(p) | Conj::Unequal(p) => is_polynomial_within(variables, p),
        Conj::Less(p, q) | Conj::AtMost(p, q) => are_polynomials_within(variables, p, q),
        Conj::SamePlace(a, b) | Conj::OtherPlace(a, b) => {
            is_place_within(variables, *a) && is_place_within(variables, *b)
        }
        Conj::Written(x) | Conj::Unwritten(x) => is_variable_within(variables, x.0),
        Conj::Quotient(x, p, q) => {
            is_variable_within(variables, x.0) && are_polynomials_within(variables, p, q)
        }
    }
}

pub(crate) fn are_conjuncts_within(variables: usize, conjuncts: &[Conj]) -> bool
    ensures { result ≡ list_all (conj_within variables) conjuncts.now }
{
    conjuncts.iter().all(|c| is_conjunct_within(variables, c))
}

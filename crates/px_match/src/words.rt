ghost use Rattle.std.specs.Prelude.{◌≡◌, IfOk};
ghost use Rattle.std.specs.List.{list_all};
ghost use Rattle.std.specs.Option.{option_copied};
ghost use Rattle.px_terms.specs.Variables.{variables_of};
ghost use Rattle.px_terms.specs.Monomials.{term_of};
ghost use Rattle.px_terms.specs.Substitutions.{content_for};
ghost use Rattle.px_callgraph.specs.Renaming as spec;
ghost use Rattle.px_match.specs.Through.{IsRead};

use px_terms::{Content, Monomial, NoMemory, Poly, TermFault, Var};

/// A polynomial as the caller reads it.
#[derive(Drop)]
pub(crate) enum Read {
    /// A variable of it doesn't stand for a word.
    NoWord,
    Word(Poly),
    /// It is too long to be kept.
    Long,
}

// The first content that stands for the variable with this number.
pub(crate) fn find<'a>(substitution: &'a [(Var, Content)], x: u32) -> Option<&'a Content>
    ensures { option_copied result ≡ content_for substitution.now x }
{
    for pair in substitution {
        if pair.0.0 == x {
            return Some(&pair.1);
        }
    }
    None
}

// Whether a content is a word, or may be what a cell holds.
fn is_word(content: Option<&Content>) -> bool
    ensures { result ≡ spec.is_word (option_copied content.entry) }
{
    match content {
        Some(Content::Word(_) | Content::Cell(_)) => true,
        _ => false,
    }
}

fn stands_for_word(substitution: &[(Var, Content)], x: u32) -> bool
    ensures { result ≡ spec.is_word (content_for substitution.now x) }
{
    is_word(find(substitution, x))
}

fn stand_for_words(substitution: &[(Var, Content)], xs: &[u32]) -> bool
    ensures { result ≡ list_all (λ x. spec.is_word (content_for substitution.now x)) xs.now }
{
    xs.iter().all(|x| stands_for_word(substitution, *x))
}

fn are_all_words(substitution: &[(Var, Content)], monomials: &[Monomial<4>]) -> bool
    ensures { result ≡ list_all (λ m. list_all (λ x. spec.is_word (content_for substitution.now x)) (term_of m).vars) monomials.now }
{
    monomials
        .iter()
        .all(|m| stand_for_words(substitution, m.vars()))
}

// Whether all variables of a polynomial stand for words.
fn has_words(substitution: &[(Var, Content)], p: &Poly) -> bool
    ensures { result ≡ list_all (λ x. spec.is_word (content_for substitution.now x)) (variables_of p.now) }
{
    are_all_words(substitution, p.monomials())
}

// A polynomial all of whose variables stand for words.
pub(crate) fn word_through(substitution: &[(Var, Content)], p: &Poly) -> Result<Read, NoMemory>
    ensures { IfOk result (λ r. IsRead r (spec.word_through substitution.now p.now)) }
{
    if !has_words(substitution, p) {
        return Ok(Read::NoWord);
    }
    match p.substitute(substitution) {
        Ok(q) => Ok(Read::Word(q)),
        Err(TermFault::Long) => Ok(Read::Long),
        Err(TermFault::NoMemory) => Err(NoMemory),
    }
}

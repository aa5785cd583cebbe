ghost use Rattle.std.specs.Prelude.{◌≡◌, Option, IfOk};
ghost use Rattle.std.specs.Option.{option_copied};
ghost use Rattle.px_terms.specs.Polynomials.{Polynomial};
ghost use Rattle.px_terms.specs.declared.conjuncts.Conj.TheVariants as conjunct;
ghost use Rattle.px_callgraph.specs.Renaming as spec;
ghost use Rattle.px_callgraph.specs.Renaming.{Claim};
ghost use Rattle.px_match.specs.Through.{IsRead, IsClaimed};

use crate::contents::{place_through, variable_in};
use crate::is_open;
use crate::words::{Read, find, word_through};
use px_terms::{Conj, Content, NoMemory, Place, Var, VarInfo};
use std::alloc::Global;

/// What a conjunct of an entry says of the caller.
#[derive(Drop)]
pub enum Claimed {
    /// Nothing: it is so.
    Surely,
    /// It can't be.
    Never,
    Claims(Conj),
    /// A conjunct with a polynomial that is too long to be kept.
    Long,
}

/// What a conjunct of the entry says of the caller.
pub fn claim_through(
    _: Global,
    substitution: &[(Var, Content)],
    conjunct: &Conj,
) -> Result<Claimed, NoMemory>
    ensures { IfOk result (λ r. IsClaimed r (spec.claim_through substitution.now conjunct.now)) }
{
    match conjunct {
        Conj::Equal(p) => Ok(equal(word_through(substitution, p)?)),
        Conj::Unequal(p) => Ok(unequal(word_through(substitution, p)?)),
        Conj::Less(p, q) => Ok(less(
            word_through(substitution, p)?,
            word_through(substitution, q)?,
        )),
        Conj::AtMost(p, q) => Ok(at_most(
            word_through(substitution, p)?,
            word_through(substitution, q)?,
        )),
        Conj::SamePlace(a, b) => {
            Ok(same_place(
                place_through(substitution, *a),
                place_through(substitution, *b),
            ))
        }
        Conj::OtherPlace(a, b) => {
            Ok(other_place(
                place_through(substitution, *a),
                place_through(substitution, *b),
            ))
        }
        Conj::Written(x) => Ok(written(find(substitution, x.0))),
        Conj::Unwritten(x) => Ok(unwritten(find(substitution, x.0))),
        Conj::Quotient(x, p, q) => Ok(quotient(
            variable_in(find(substitution, x.0)),
            word_through(substitution, p)?,
            word_through(substitution, q)?,
        )),
    }
}

fn equal(p: Read) -> Claimed
    ensures { (o : Option Polynomial) → IsRead p o → IsClaimed result (spec.claim_one conjunct.Equal o) }
{
    match p {
        Read::NoWord => Claimed::Never,
        Read::Word(p) => Claimed::Claims(Conj::Equal(p)),
        Read::Long => Claimed::Long,
    }
}

fn unequal(p: Read) -> Claimed
    ensures { (o : Option Polynomial) → IsRead p o → IsClaimed result (spec.claim_one conjunct.Unequal o) }
{
    match p {
        Read::NoWord => Claimed::Never,
        Read::Word(p) => Claimed::Claims(Conj::Unequal(p)),
        Read::Long => Claimed::Long,
    }
}

fn less(p: Read, q: Read) -> Claimed
    ensures { (o u : Option Polynomial) → IsRead p o → IsRead q u → IsClaimed result (spec.claim_two conjunct.Less o u) }
{
    match (p, q) {
        (Read::NoWord, _) | (_, Read::NoWord) => Claimed::Never,
        (Read::Word(p), Read::Word(q)) => Claimed::Claims(Conj::Less(p, q)),
        _ => Claimed::Long,
    }
}

fn at_most(p: Read, q: Read) -> Claimed
    ensures { (o u : Option Polynomial) → IsRead p o → IsRead q u → IsClaimed result (spec.claim_two conjunct.AtMost o u) }
{
    match (p, q) {
        (Read::NoWord, _) | (_, Read::NoWord) => Claimed::Never,
        (Read::Word(p), Read::Word(q)) => Claimed::Claims(Conj::AtMost(p, q)),
        _ => Claimed::Long,
    }
}

fn quotient(x: Option<Var>, p: Read, q: Read) -> Claimed
    ensures { (o u : Option Polynomial) → IsRead p o → IsRead q u → IsClaimed result (spec.quotient_claim x o u) }
{
    match x {
        None => Claimed::Never,
        Some(x) => quotient_of(x, p, q),
    }
}

fn quotient_of(x: Var, p: Read, q: Read) -> Claimed
    ensures { (o u : Option Polynomial) → IsRead p o → IsRead q u → IsClaimed result (spec.claim_two (conjunct.Quotient x) o u) }
{
    match (p, q) {
        (Read::NoWord, _) | (_, Read::NoWord) => Claimed::Never,
        (Read::Word(p), Read::Word(q)) => Claimed::Claims(Conj::Quotient(x, p, q)),
        _ => Claimed::Long,
    }
}

fn same_place(a: Option<Place>, b: Option<Place>) -> Claimed
    ensures { IsClaimed result (spec.claim_two conjunct.SamePlace a b) }
{
    match (a, b) {
        (Some(a), Some(b)) => Claimed::Claims(Conj::SamePlace(a, b)),
        _ => Claimed::Never,
    }
}

fn other_place(a: Option<Place>, b: Option<Place>) -> Claimed
    ensures { IsClaimed result (spec.claim_two conjunct.OtherPlace a b) }
{
    match (a, b) {
        (Some(a), Some(b)) => Claimed::Claims(Conj::OtherPlace(a, b)),
        _ => Claimed::Never,
    }
}

// That a content was written.
fn written(content: Option<&Content>) -> Claimed
    ensures { IsClaimed result (spec.written_claim (option_copied content.entry)) }
{
    match content {
        Some(Content::Word(_) | Content::Place(_)) => Claimed::Surely,
        Some(Content::Cell(y)) => Claimed::Claims(Conj::Written(*y)),
        _ => Claimed::Never,
    }
}

// That a content was never written.
fn unwritten(content: Option<&Content>) -> Claimed
    ensures { IsClaimed result (spec.unwritten_claim (option_copied content.entry)) }
{
    match content {
        Some(Content::Unwritten) => Claimed::Surely,
        Some(Content::Cell(y)) => Claimed::Claims(Conj::Unwritten(*y)),
        _ => Claimed::Never,
    }
}

/// Whether what an entry says may be assumed. A conjunct that is too long is neither tested nor decided. Takes
/// no memory.
pub fn is_claim_open(vars: &[VarInfo], claimed: &Claimed) -> bool
    ensures { (claim : Claim) → IsClaimed claimed.now claim → result ≡ spec.is_claim_open vars.now claim }
{
    match claimed {
        Claimed::Surely | Claimed::Long => true,
        Claimed::Never => false,
        Claimed::Claims(c) => is_open(vars, c),
    }
}

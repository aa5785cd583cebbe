ghost use Rattle.std.specs.Prelude.{◌≡◌, List, map, drop, option_map};
ghost use Rattle.px_real_expressions.specs.Lexemes.{Lexeme};
ghost use Rattle.px_real_declarations.specs.Names as Names;
ghost use Rattle.px_real_declaring.specs.Trees.{group_tree, specifier_tree, declarator_tree, declared_tree};
ghost use Rattle.px_real_types.specs.Scopes.{texts};
ghost use Rattle.px_real_types.specs.Specifiers.{groups_mark, unless_spoilt};
ghost use Rattle.px_real_types.specs.declared.words.Mark.TheVariants.{Spoils};
ghost use Rattle.px_real_types.specs.Declarators.{starred, declared, declared_shape, is_nothing, bare_name, function_in, signature_tree, own_signature, before_suffix, before_all};

use crate::scope::Texts;
use crate::shape::Shape;
use crate::specifiers::{groups_mark, qualifiers_spoil, unless_spoilt};
use crate::words::Mark;
use px_base::Site;
use px_real_declaring::{Declarator, Declared, Group, Specifier, Suffix};
use px_real_symbols::Span;
use px_syntax::Name;

// The type of a pointer, by what stands behind its star.
fn starred(on: Texts, qualifiers: &[Specifier], shape: Shape) -> Shape
    ensures { result ≡ starred (map (specifier_tree (texts on.entry)) qualifiers.now) shape }
{
    unless_spoilt(qualifiers_spoil(on, qualifiers), shape.pointer_to())
}

// The type, unless these attributes make it another.
fn attributed(on: Texts, attributes: &[Group], shape: Shape) -> Shape
    ensures { result ≡ unless_spoilt (groups_mark Spoils (map (group_tree (texts on.entry)) attributes.now)) shape }
{
    unless_spoilt(groups_mark(Mark::Spoils, on, attributes), shape)
}

// The type before what stands behind a declarator, from the one after it.
fn before_suffix(suffix: Suffix, shape: Shape) -> Shape
    ensures { result ≡ before_suffix suffix shape }
{
    match suffix {
        Suffix::Array { .. } => shape.array_of(),
        Suffix::Function { .. } => Shape::Outside,
    }
}

// The type before all of these, the last first.
fn before_all(suffixes: &[Suffix], shape: Shape) -> Shape
    ensures { result ≡ before_all suffixes.now shape }
{
    let mut before = shape;
    let mut at = suffixes.len();
    while at > 0 {
        at -= 1;
        before = before_suffix(suffixes[at], before);
    }
    before
}

/// Whether a declarator is nothing at all.
#[cycle(is_nothing)]
#[tactic(auto, using(px_real_declaring::proofs::DeclaratorEquations::trees))]
pub fn is_nothing(declarator: &Declarator) -> bool
    ensures { (all : List Lexeme) → result ≡ is_nothing (declarator_tree all declarator.now) }
{
    match declarator {
        Declarator::NoName => true,
        Declarator::Suffixed { core, suffixes } => suffixes.is_empty() && is_nothing(core),
        Declarator::Name { .. } | Declarator::Inner { .. } | Declarator::Pointer { .. } => false,
    }
}

// The type of the name that a declarator has.
#[cycle(declared)]
#[tactic(auto, using(px_real_declaring::proofs::DeclaratorEquations::trees))]
fn declared(declarator: &Declarator, on: Texts, shape: Shape) -> Shape
    ensures { result ≡ declared (declarator_tree (texts on.entry) declarator.now) shape }
{
    match declarator {
        Declarator::NoName | Declarator::Name { .. } => shape,
        Declarator::Inner {
            attributes,
            inner,
            ..
        } => declared(inner, on, attributed(on, attributes, shape)),
        Declarator::Pointer {
            qualifiers,
            target,
            ..
        } => declared(target, on, starred(on, qualifiers, shape)),
        Declarator::Suffixed { core, suffixes } => {
            declared(core, on, before_all(suffixes, shape))
        }
    }
}

/// The type of what is declared, where its specifiers say this type.
pub fn declared_shape(declared_one: &Declared, on: Texts, shape: Shape) -> Shape
    ensures { result ≡ declared_shape (declared_tree (texts on.entry) declared_one.now) shape }
{
    let mut spoilt = groups_mark(Mark::Spoils, on, &declared_one.before);
    spoilt |= groups_mark(Mark::Spoils, on, &declared_one.after);
    unless_spoilt(spoilt, declared(&declared_one.declarator, on, shape))
}

/// The name that a declarator has.
#[cycle(declared_name)]
#[tactic(auto, using(px_real_declaring::proofs::DeclaratorEquations::trees))]
pub fn declared_name(declarator: &Declarator) -> Option<&Name>
    ensures { (all : List Lexeme) → option_map (λ n. n.now) result ≡ Names.declared_name (declarator_tree all declarator.now) }
{
    match declarator {
        Declarator::NoName => None,
        Declarator::Name { name, .. } => Some(name),
        Declarator::Inner { inner, .. } => declared_name(inner),
        Declarator::Pointer { target, .. } => declared_name(target),
        Declarator::Suffixed { core, .. } => declared_name(core),
    }
}

/// A function that is declared: its name and the place of that, the type of its result, and what stands between its parentheses.
#[derive(Clone, Copy)]
pub struct Signature<'a> {
    pub name: &'a Name,
    pub site: Site,
    pub gives: Shape,
    pub parameters: Span,
}

// The name that a declarator is, in parentheses or not.
#[cycle(bare_name)]
#[tactic(auto, using(px_real_declaring::proofs::DeclaratorEquations::trees))]
fn bare_name(declarator: &Declarator) -> Option<(&Name, Site)>
    ensures { (all : List Lexeme) → option_map (λ x. (x.0.now, x.1)) result ≡ bare_name (declarator_tree all declarator.now) }
{
    match declarator {
        Declarator::Name { name, site } => Some((name, *site)),
        Declarator::Inner { inner, .. } => bare_name(inner),
        Declarator::Suffixed { core, suffixes } => {
            if suffixes.is_empty() {
                bare_name(core)
            } else {
                None
            }
        }
        Declarator::NoName | Declarator::Pointer { .. } => None,
    }
}

// The function whose parentheses stand directly behind its name, if these do, and its result has this type.
fn signature_of<'a>(core: &'a Declarator, first: Suffix, shape: Shape) -> Option<Signature<'a>>
    ensures { (all : List Lexeme) → option_map (signature_tree all) result ≡ own_signature all (declarator_tree all core.entry.now) first shape }
{
    let Suffix::Function { held, .. } = first else {
        return None;
    };
    let (name, site) = bare_name(core)?;
    Some(Signature {
        name,
        site,
        gives: shape,
        parameters: held,
    })
}

/// The function that a declarator declares, if it declares one, where its specifiers say this type.
#[cycle(function_in)]
#[tactic(auto, using(px_real_declaring::proofs::DeclaratorEquations::trees))]
pub fn function_in<'a>(declarator: &'a Declarator, on: Texts, shape: Shape) -> Option<Signature<'a>>
    ensures { option_map (signature_tree (texts on.entry)) result ≡ function_in (declarator_tree (texts on.entry) declarator.entry.now) shape }
{
    match declarator {
        Declarator::NoName | Declarator::Name { .. } => None,
        Declarator::Inner {
            attributes,
            inner,
            ..
        } => function_in(inner, on, attributed(on, attributes, shape)),
        Declarator::Pointer {
            qualifiers,
            target,
            ..
        } => function_in(target, on, starred(on, qualifiers, shape)),
        Declarator::Suffixed { core, suffixes } => {
            let Some(first) = suffixes.first() else {
                return function_in(core, on, shape);
            };
            let result = before_all(&suffixes[1..], shape);
            if let Some(signature) = signature_of(core, *first, result) {
                return Some(signature);
            }
            function_in(core, on, before_suffix(*first, result))
        }
    }
}

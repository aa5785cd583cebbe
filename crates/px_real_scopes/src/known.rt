ghost use Rattle.std.specs.Prelude.{◌≡◌, ◌&&◌, List, is_some};
ghost use Rattle.px_real_expressions.specs.Lexemes.{Lexeme};
ghost use Rattle.px_real_declaring.specs.Trees.{declarator_tree, declared_tree};
ghost use Rattle.px_real_types.specs.Declarators.{bare_name};
ghost use Rattle.px_real_types.specs.Scopes.{texts};
ghost use Rattle.px_real_types.specs.Types.{unknown};
ghost use Rattle.px_real_scopes.specs.Lookups.{seen};
ghost use Rattle.px_real_scopes.specs.Knowing.{beyond, begins_array, beyond_by, with_shape, is_array_of, beyond_declarator, declared_known, parameter_known};

use px_real_declaring::{Declarator, Declared, Suffix};
use px_real_types::{Base, Known, Shape, Texts, declared_shape};

// Nothing.
pub fn unknown() -> Known
    ensures { result ≡ unknown }
{
    Known::Seen(Shape::Outside)
}

// The shape that is seen.
pub fn seen(known: Known) -> Shape
    ensures { result ≡ seen known }
{
    match known {
        Known::Seen(shape) => shape,
        _ => Shape::Outside,
    }
}

// What is known beyond a shape that isn't seen.
fn beyond(known: Known) -> Known
    ensures { result ≡ beyond known }
{
    match known {
        Known::Array | Known::Seen(Shape::Array { .. }) => Known::Array,
        Known::Record(number) => Known::Record(number),
        Known::Seen(
            Shape::Value {
                base: Base::Struct(number),
                stars: 0,
            },
        ) => Known::Record(number),
        _ => unknown(),
    }
}

// A type of this shape, or of what is known beyond it.
pub fn with_shape(shape: Shape, known: Known) -> Known
    ensures { result ≡ with_shape shape known }
{
    match shape {
        Shape::Outside => beyond(known),
        _ => Known::Seen(shape),
    }
}

// Whether a declarator is a name, in parentheses or not.
#[cycle(is_bare)]
#[tactic(auto, using(px_real_declaring::proofs::DeclaratorEquations::trees))]
fn is_bare(declarator: &Declarator) -> bool
    ensures { (all : List Lexeme) → result ≡ is_some (bare_name (declarator_tree all declarator.now)) }
{
    match declarator {
        Declarator::Name { .. } => true,
        Declarator::Inner { inner, .. } => is_bare(inner),
        Declarator::Suffixed { core, suffixes } => suffixes.is_empty() && is_bare(core),
        Declarator::NoName | Declarator::Pointer { .. } => false,
    }
}

// Whether the first that stands behind a declarator is a pair of brackets.
fn begins_array(suffixes: &[Suffix]) -> bool
    ensures { result ≡ begins_array suffixes.now }
{
    match suffixes.first() {
        Some(Suffix::Array { .. }) => true,
        _ => false,
    }
}

// Whether brackets stand directly behind a name, of which it is said whether it stands alone before these.
fn array_behind(bare: bool, suffixes: &[Suffix]) -> bool
    ensures { result ≡ (begins_array suffixes.now && bare) }
{
    begins_array(suffixes) && bare
}

// Whether brackets stand directly behind the name.
#[cycle(is_array_of)]
#[tactic(auto, using(px_real_declaring::proofs::DeclaratorEquations::trees))]
fn is_array_of(declarator: &Declarator) -> bool
    ensures { (all : List Lexeme) → result ≡ is_array_of (declarator_tree all declarator.now) }
{
    match declarator {
        Declarator::NoName | Declarator::Name { .. } => false,
        Declarator::Inner { inner, .. } => is_array_of(inner),
        Declarator::Pointer { target, .. } => is_array_of(target),
        Declarator::Suffixed { core, suffixes } => {
            array_behind(is_bare(core), suffixes) | is_array_of(core)
        }
    }
}

// What is known beyond the shape of a name alone, of an array or of something else.
fn beyond_by(bare: bool, array: bool, known: Known) -> Known
    ensures { result ≡ beyond_by bare array known }
{
    if bare {
        known
    } else if array {
        Known::Array
    } else {
        unknown()
    }
}

// What is known beyond the shape of what a declarator declares.
fn beyond_declarator(declarator: &Declarator, known: Known) -> Known
    ensures { (all : List Lexeme) → result ≡ beyond_declarator (declarator_tree all declarator.now) known }
{
    beyond_by(is_bare(declarator), is_array_of(declarator), known)
}

/// What is known of the type of what is declared, where its specifiers say this.
pub fn declared_known(declared: &Declared, on: Texts, known: Known) -> Known
    ensures { result ≡ declared_known (declared_tree (texts on.entry) declared.now) known }
{
    let shape = declared_shape(declared, on, seen(known));
    with_shape(shape, beyond_declarator(&declared.declarator, known))
}

/// What is known of a parameter that is declared so.
pub fn parameter_known(known: Known) -> Known
    ensures { result ≡ parameter_known known }
{
    match known {
        Known::Seen(shape) => Known::Seen(shape.as_parameter()),
        Known::Array => unknown(),
        Known::Record(number) => Known::Record(number),
    }
}

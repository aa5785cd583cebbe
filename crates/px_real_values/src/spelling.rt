ghost use Rattle.std.specs.Prelude.{◌≡◌, List, map, IfOk};
ghost use Rattle.px_real_expressions.specs.Lexemes.{Lexeme};
ghost use Rattle.px_real_symbols.specs.Symbols.{lexemes};
ghost use Rattle.px_real_blocks.specs.Parts.{no_types};
ghost use Rattle.px_real_declarations.specs.DeclarationTree.{declaration};
ghost use Rattle.px_real_declaring.specs.Trees.{specifier_tree, declarator_tree, declared_tree, declaration_tree};
ghost use Rattle.px_real_types.specs.Scopes.{texts};
ghost use Rattle.px_real_values.specs.Spelled as Rules;
ghost use Rattle.px_real_values.specs.Views.{spelled_seen};

use crate::environment::TypeSpelled;
use px_real_declaring::{
    Declaration, DeclarationFault, Declarator, Declared, Specifier, parameter_of,
};
use px_real_symbols::TypeNames;
use px_real_tokens::Token;
use px_real_types::{Scope, Shape, Texts, declared_shape, is_nothing, specified};
use px_terms::NoMemory;
use std::alloc::Global;

// Whether a star stands nearest to where the name would stand.
#[cycle(is_starred)]
#[tactic(auto, using(px_real_declaring::proofs::DeclaratorEquations::trees))]
fn is_starred(declarator: &Declarator) -> bool
    ensures { (all : List Lexeme) → result ≡ Rules.is_starred (declarator_tree all declarator.now) }
{
    match declarator {
        Declarator::NoName | Declarator::Name { .. } => false,
        Declarator::Inner { inner, .. } => is_starred(inner),
        Declarator::Pointer { target, .. } => is_nothing(target) || is_starred(target),
        Declarator::Suffixed { core, .. } => is_starred(core),
    }
}

// What spells nothing that is seen.
fn nothing_seen() -> TypeSpelled
    ensures { spelled_seen result ≡ Rules.nothing_seen }
{
    TypeSpelled {
        shape: Shape::Outside,
        is_starred: false,
    }
}

// What a parameter without a name spells.
fn spelled_in<S: Scope>(scope: &S, on: Texts, declaration: &Declaration) -> TypeSpelled
    ensures { spelled_seen result ≡ Rules.spelled_in (S.meanings scope.now) (declaration_tree (texts on.entry) declaration.now) }
{
    match declaration {
        Declaration::Declaration {
            specifiers,
            declared,
        } => spelled_by(scope, on, specifiers, declared),
        Declaration::Assertion { .. } => nothing_seen(),
    }
}

// What these specifiers spell, and the one that is declared.
fn spelled_by<S: Scope>(
    scope: &S,
    on: Texts,
    specifiers: &[Specifier],
    declared: &[Declared],
) -> TypeSpelled
    ensures { spelled_seen result ≡ Rules.spelled_in (S.meanings scope.now) (declaration (map (specifier_tree (texts on.entry)) specifiers.now) (map (declared_tree (texts on.entry)) declared.now)) }
{
    if declared.len() != 1 {
        return nothing_seen();
    }
    let one = &declared[0];
    let shape = specified(scope, on, specifiers);
    TypeSpelled {
        shape: declared_shape(one, on, shape),
        is_starred: is_starred(&one.declarator),
    }
}

/// The type that these tokens spell, which are the name of one, where these words are names of types.
pub fn type_spelled<S: Scope, T: TypeNames>(
    alloc: Global,
    scope: &S,
    types: &T,
    source: &[u8],
    tokens: &[Token],
) -> Result<TypeSpelled, NoMemory>
    ensures { IfOk result (λ s. Rules.Spells (S.meanings scope.now) (T.named types.now) (lexemes no_types source.now tokens.now) (spelled_seen s)) }
{
    match parameter_of(alloc, source, tokens, types) {
        Ok(tree) => Ok(spelled_in(scope, Texts { source, tokens }, &tree)),
        Err(DeclarationFault::NoMemory) => Err(NoMemory),
        Err(_) => Ok(nothing_seen()),
    }
}

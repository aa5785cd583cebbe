ghost use Rattle.std.specs.Prelude.{◌≡◌, ◌++◌, List, map, OnOk};
ghost use Rattle.px_real_expressions.specs.Lexemes.{Lexeme};
ghost use Rattle.px_real_declaring.specs.Trees.{specifier_tree, declarator_tree, declared_tree, declaration_tree};
ghost use Rattle.px_real_types.specs.Scopes.{texts};
ghost use Rattle.px_real_types.specs.Linkage.{is_static, says_static, weakens, any_weakens, declarator_weakens, is_weak, weak_name, weak_among, weak_names};

use crate::declarators::declared_name;
use crate::scope::{Texts, any_marks};
use crate::specifiers::groups_mark;
use crate::words::{Mark, is_static_word};
use px_real_declaring::{Declaration, Declarator, Declared, Specifier};
use px_syntax::Name;
use px_terms::NoMemory;
use std::alloc::Global;

// Whether it is the word `static`.
fn is_static(specifier: &Specifier) -> bool
    ensures { (all : List Lexeme) → result ≡ is_static (specifier_tree all specifier.now) }
{
    match specifier {
        Specifier::Keyword { word, .. } => is_static_word(word.as_slice()),
        _ => false,
    }
}

/// Whether specifiers say `static`.
pub fn says_static(specifiers: &[Specifier]) -> bool
    ensures { (all : List Lexeme) → result ≡ says_static (map (specifier_tree all) specifiers.now) }
{
    for specifier in specifiers {
        if is_static(specifier) {
            return true;
        }
    }
    false
}

// Whether an attribute makes weak.
fn weakens(on: Texts, specifier: &Specifier) -> bool
    ensures { result ≡ weakens (specifier_tree (texts on.entry) specifier.now) }
{
    match specifier {
        Specifier::Group(group) => any_marks(Mark::Weakens, on, group.held),
        _ => false,
    }
}

fn any_weakens(on: Texts, specifiers: &[Specifier]) -> bool
    ensures { result ≡ any_weakens (map (specifier_tree (texts on.entry)) specifiers.now) }
{
    for specifier in specifiers {
        if weakens(on, specifier) {
            return true;
        }
    }
    false
}

// Whether an attribute within a declarator makes weak.
#[cycle(declarator_weakens)]
#[tactic(auto, using(px_real_declaring::proofs::DeclaratorEquations::trees))]
fn declarator_weakens(declarator: &Declarator, on: Texts) -> bool
    ensures { result ≡ declarator_weakens (declarator_tree (texts on.entry) declarator.now) }
{
    match declarator {
        Declarator::NoName | Declarator::Name { .. } => false,
        Declarator::Inner {
            attributes,
            inner,
            ..
        } => {
            let mut weak = groups_mark(Mark::Weakens, on, attributes);
            weak |= declarator_weakens(inner, on);
            weak
        }
        Declarator::Pointer {
            qualifiers,
            target,
            ..
        } => {
            let mut weak = any_weakens(on, qualifiers);
            weak |= declarator_weakens(target, on);
            weak
        }
        Declarator::Suffixed { core, .. } => declarator_weakens(core, on),
    }
}

// Whether what is declared is weak or another's, or has an assembler name; `all` says whether its specifiers make all of them weak.
fn is_weak(all: bool, on: Texts, declared: &Declared) -> bool
    ensures { result ≡ is_weak all (declared_tree (texts on.entry) declared.now) }
{
    if all {
        return true;
    }
    if let Some(_) = &declared.label {
        return true;
    }
    let mut weak = groups_mark(Mark::Weakens, on, &declared.before);
    weak |= groups_mark(Mark::Weakens, on, &declared.after);
    weak |= declarator_weakens(&declared.declarator, on);
    weak
}

// The name of what is declared, where it is weak.
fn add_weak(
    alloc: Global,
    names: &mut Vec<Name>,
    on: Texts,
    all: bool,
    declared: &Declared,
) -> Result<(), NoMemory>
    ensures { OnOk result (names.new.items ≡ names.old.items ++ weak_name all (declared_tree (texts on.entry) declared.now)) }
{
    if !is_weak(all, on, declared) {
        return Ok(());
    }
    let Some(name) = declared_name(&declared.declarator) else {
        return Ok(());
    };
    names.push(Name::from_slice(alloc, name.as_slice())?)?;
    Ok(())
}

// The names of those among these that are weak.
fn add_all_weak(
    alloc: Global,
    names: &mut Vec<Name>,
    on: Texts,
    all: bool,
    declared: &[Declared],
) -> Result<(), NoMemory>
    ensures { OnOk result (names.new.items ≡ names.old.items ++ weak_among all (map (declared_tree (texts on.entry)) declared.now)) }
{
    for each in declared {
        add_weak(alloc, names, on, all, each)?;
    }
    Ok(())
}

/// The names that a declaration makes weak, another function's, or the assembler's.
pub fn add_weak_names(
    alloc: Global,
    names: &mut Vec<Name>,
    on: Texts,
    declaration: &Declaration,
) -> Result<(), NoMemory>
    ensures { OnOk result (names.new.items ≡ names.old.items ++ weak_names (declaration_tree (texts on.entry) declaration.now)) }
{
    let Declaration::Declaration {
        specifiers,
        declared,
    } = declaration
    else {
        return Ok(());
    };
    let all = any_weakens(on, specifiers);
    add_all_weak(alloc, names, on, all, declared)
}

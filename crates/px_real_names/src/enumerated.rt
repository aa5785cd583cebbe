ghost use Rattle.std.specs.Prelude.{◌≡◌, ◌++◌, List, map, OnOk};
ghost use Rattle.px_real_expressions.specs.Lexemes.{Lexeme};
ghost use Rattle.px_real_symbols.specs.Symbols.{held_in};
ghost use Rattle.px_real_declarations.specs.Names.{enumerator_name};
ghost use Rattle.px_real_declaring.specs.Trees.{specifier_tree, declaration_tree};
ghost use Rattle.px_real_members.specs.Trees.{enumerator_tree};
ghost use Rattle.px_real_types.specs.Scopes.{texts};
ghost use Rattle.px_real_names.specs.Enumerated.{of_enumeration, of_record, of_held, of_specifier, of_each, of_member, of_members, deeper_by, enumerated_by, enumerated, Adds, Found};

use crate::slices::{skip, some_first};
use px_real_declarations::Role;
use px_real_declaring::{Declaration, DeclarationFault, Specifier, role_of};
use px_real_members::{Enumerator, enumerators_of, members_of};
use px_real_symbols::{Span, TypeNames};
use px_real_types::Texts;
use px_syntax::Name;
use px_terms::NoMemory;
use std::alloc::Global;

// How deep structs may stand within one another.
const STRUCT_LIMIT: u32 = 200;

/// The tokens that are held.
pub fn within<'a>(on: Texts<'a>, held: Span) -> Texts<'a>
    ensures { texts result ≡ held_in (texts on.entry) held }
{
    let behind = skip(on.tokens, held.first);
    Texts {
        source: on.source,
        tokens: some_first(behind, held.after.saturating_sub(held.first)),
    }
}

// The names of these enumerators.
fn add_enumerators(
    alloc: Global,
    names: &mut Vec<Name>,
    enumerators: &[Enumerator],
) -> Result<(), NoMemory>
    ensures { OnOk result ((all : List Lexeme) → names.new.items ≡ names.old.items ++ map enumerator_name (map (enumerator_tree all) enumerators.now)) }
{
    for enumerator in enumerators {
        names.push(Name::from_slice(alloc, enumerator.name.as_slice())?)?;
    }
    Ok(())
}

// Those of an enumeration.
fn add_enumeration(alloc: Global, names: &mut Vec<Name>, on: Texts) -> Result<(), DeclarationFault>
    ensures { Adds names.old.items names.new.items result (of_enumeration (texts on.entry)) }
{
    match enumerators_of(alloc, on.source, on.tokens) {
        Ok(enumerators) => {
            add_enumerators(alloc, names, &enumerators)?;
            Ok(())
        }
        Err(fault) => Err(fault),
    }
}

// Those of a struct or union, where others may stand within it so deep.
#[cycle(add_specifier)]
fn add_record<T: TypeNames>(
    alloc: Global,
    names: &mut Vec<Name>,
    on: Texts,
    types: &T,
    depth: u32,
) -> Result<(), DeclarationFault>
    ensures { Adds names.old.items names.new.items result (of_record (T.named types.now) (deeper_by (T.named types.now) depth) (texts on.entry)) }
{
    if depth == 0 {
        return Err(DeclarationFault::Deep(0));
    }
    match members_of(alloc, on.source, on.tokens, types) {
        Ok(members) => add_members(alloc, names, on, types, depth - 1, &members),
        Err(fault) => Err(fault),
    }
}

// The enumerators that stand between the braces behind a keyword of this role, where structs may stand within it so deep.
#[cycle(add_specifier)]
fn add_held<T: TypeNames>(
    alloc: Global,
    names: &mut Vec<Name>,
    on: Texts,
    types: &T,
    depth: u32,
    role: Role,
) -> Result<(), DeclarationFault>
    ensures { Adds names.old.items names.new.items result (of_held (T.named types.now) (deeper_by (T.named types.now) depth) role (texts on.entry)) }
{
    match role {
        Role::Enumeration => add_enumeration(alloc, names, on),
        Role::Record => add_record(alloc, names, on, types, depth),
        _ => Err(DeclarationFault::NotADeclaration(0)),
    }
}

// The enumerators that a specifier declares.
#[cycle(add_specifier)]
fn add_specifier<T: TypeNames>(
    alloc: Global,
    names: &mut Vec<Name>,
    on: Texts,
    types: &T,
    depth: u32,
    specifier: &Specifier,
) -> Result<(), DeclarationFault>
    ensures { Adds names.old.items names.new.items result (enumerated_by (T.named types.now) depth (specifier_tree (texts on.entry) specifier.now)) }
{
    match specifier {
        Specifier::Tagged {
            word,
            held: Some(held),
            ..
        } => add_held(
            alloc,
            names,
            within(on, *held),
            types,
            depth,
            role_of(word.as_slice()),
        ),
        _ => Ok(()),
    }
}

// Those that all of these declare.
#[cycle(add_specifier)]
fn add_specifiers<T: TypeNames>(
    alloc: Global,
    names: &mut Vec<Name>,
    on: Texts,
    types: &T,
    depth: u32,
    specifiers: &[Specifier],
) -> Result<(), DeclarationFault>
    ensures { Adds names.old.items names.new.items result (of_each (enumerated_by (T.named types.now) depth) (map (specifier_tree (texts on.entry)) specifiers.now)) }
{
    for specifier in specifiers {
        add_specifier(alloc, names, on, types, depth, specifier)?;
    }
    Ok(())
}

// Those of one member.
#[cycle(add_specifier)]
fn add_member<T: TypeNames>(
    alloc: Global,
    names: &mut Vec<Name>,
    on: Texts,
    types: &T,
    depth: u32,
    member: &Declaration,
) -> Result<(), DeclarationFault>
    ensures { Adds names.old.items names.new.items result (of_member (enumerated_by (T.named types.now) depth) (declaration_tree (texts on.entry) member.now)) }
{
    match member {
        Declaration::Declaration { specifiers, .. } => {
            add_specifiers(alloc, names, on, types, depth, specifiers)
        }
        Declaration::Assertion(_) => Ok(()),
    }
}

// Those of all members.
#[cycle(add_specifier)]
fn add_members<T: TypeNames>(
    alloc: Global,
    names: &mut Vec<Name>,
    on: Texts,
    types: &T,
    depth: u32,
    members: &[Declaration],
) -> Result<(), DeclarationFault>
    ensures { Adds names.old.items names.new.items result (of_members (enumerated_by (T.named types.now) depth) (map (declaration_tree (texts on.entry)) members.now)) }
{
    for member in members {
        add_member(alloc, names, on, types, depth, member)?;
    }
    Ok(())
}

// The enumerators that specifiers declare, those of members among them.
pub fn enumerated<T: TypeNames>(
    alloc: Global,
    on: Texts,
    types: &T,
    specifiers: &[Specifier],
) -> Result<Vec<Name>, DeclarationFault>
    ensures { Found (λ names. names.items) result (enumerated (T.named types.now) (map (specifier_tree (texts on.entry)) specifiers.now)) }
{
    let mut names = Vec::new(alloc);
    add_specifiers(alloc, &mut names, on, types, STRUCT_LIMIT, specifiers)?;
    Ok(names)
}

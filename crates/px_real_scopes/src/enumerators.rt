ghost use Rattle.std.specs.Prelude.{◌≡◌, ◌∷◌, map, option_map, OnOk, OnErr, Some};
ghost use Rattle.px_real_symbols.specs.Symbols.{held_in};
ghost use Rattle.px_real_symbols.specs.Words.{value_of};
ghost use Rattle.px_real_members.specs.Trees.{enumerator_tree};
ghost use Rattle.px_real_types.specs.Scopes.{texts};
ghost use Rattle.px_real_scopes.specs.Scopes.{an_enumeration};
ghost use Rattle.px_real_scopes.specs.Entering as Rules;
ghost use Rattle.px_real_scopes.specs.Steps.{Comes, Grows};

use crate::meaning::{Binding, Meaning, Tag};
use crate::scopes::Scopes;
use px_real_declaring::DeclarationFault;
use px_real_members::{Enumerator, enumerators_of};
use px_real_names::enumerated::within;
use px_real_symbols::Span;
use px_real_tokens::TokenKind;
use px_real_types::Texts;
use px_syntax::Name;
use px_terms::NoMemory;
use std::alloc::Global;

// The greatest int.
const GREATEST: u32 = 2147483647;

// The value of a constant of the profile.
fn value_in(kind: TokenKind) -> Option<u32>
    ensures { result ≡ value_of kind }
{
    match kind {
        TokenKind::Number(value) | TokenKind::Character(value) => value,
        _ => None,
    }
}

// The value of these tokens, where they are one constant.
fn constant_in(on: Texts) -> Option<u32>
    ensures { result ≡ Rules.constant_in (texts on.entry) }
{
    if on.tokens.len() != 1 {
        return None;
    }
    value_in(on.tokens[0].kind)
}

// The value that is written, or else this one.
fn enumerator_value(on: Texts, next: Option<u32>, value: Option<Span>) -> Option<u32>
    ensures { result ≡ Rules.enumerator_value next (option_map (held_in (texts on.entry)) value) }
{
    match value {
        Some(held) => constant_in(within(on, held)),
        None => next,
    }
}

// The next value, where an int has it.
fn counted_on(value: Option<u32>) -> Option<u32>
    ensures { result ≡ Rules.counted_on value }
{
    match value {
        Some(number) if number < GREATEST => Some(number + 1),
        _ => None,
    }
}

// An enumerator.
fn add_enumerator(
    alloc: Global,
    scopes: &mut Scopes,
    name: &[u8],
    value: Option<u32>,
) -> Result<(), NoMemory>
    ensures added { OnOk result (scopes.new ≡ record scopes.old { bindings = Rules.enumerator_binding name.now value ∷ scopes.old.bindings }) }
    ensures refused { OnErr result (scopes.new ≡ scopes.old) }
{
    let name = Name::from_slice(alloc, name)?;
    scopes.add_binding(Binding::Name {
        name,
        meaning: Meaning::Enumerator(value),
    })
}

// These enumerators, in order.
fn add_enumerators(
    alloc: Global,
    scopes: &mut Scopes,
    on: Texts,
    enumerators: &[Enumerator],
) -> Result<(), NoMemory>
    ensures added { OnOk result (scopes.new ≡ record scopes.old { bindings = Rules.with_enumerators (Some 0) (map (enumerator_tree (texts on.entry)) enumerators.now) scopes.old.bindings }) }
    ensures grows { Grows scopes.old scopes.new }
{
    let mut next = Some(0);
    for enumerator in enumerators {
        let value = enumerator_value(on, next, enumerator.value);
        add_enumerator(alloc, scopes, enumerator.name.as_slice(), value)?;
        next = counted_on(value);
    }
    Ok(())
}

// The tag of an enumeration, if it has one.
fn add_tag(alloc: Global, scopes: &mut Scopes, tag: &Option<Name>) -> Result<(), NoMemory>
    ensures added { OnOk result (scopes.new ≡ record scopes.old { bindings = Rules.with_tag tag.now an_enumeration scopes.old.bindings }) }
    ensures refused { OnErr result (scopes.new ≡ scopes.old) }
{
    match tag {
        Some(tag) => scopes.add_binding(Binding::Tag {
            name: Name::from_slice(alloc, tag.as_slice())?,
            tag: Tag::Enumeration,
        }),
        None => Ok(()),
    }
}

// An enumeration with these enumerators.
fn add_enumeration(
    alloc: Global,
    scopes: &mut Scopes,
    on: Texts,
    tag: &Option<Name>,
    enumerators: &[Enumerator],
) -> Result<(), NoMemory>
    ensures added { OnOk result (scopes.new ≡ Rules.with_enumerated tag.now (map (enumerator_tree (texts on.entry)) enumerators.now) scopes.old) }
    ensures grows { Grows scopes.old scopes.new }
{
    add_tag(alloc, scopes, tag)?;
    add_enumerators(alloc, scopes, on, enumerators)
}

// An enumeration with these tokens between its braces.
fn define_enumeration(
    alloc: Global,
    scopes: &mut Scopes,
    on: Texts,
    tag: &Option<Name>,
) -> Result<(), DeclarationFault>
    ensures comes { Comes (Rules.with_enumeration tag.now (Some (texts on.entry)) scopes.old) scopes.new result }
    ensures grows { Grows scopes.old scopes.new }
{
    match enumerators_of(alloc, on.source, on.tokens) {
        Ok(enumerators) => {
            add_enumeration(alloc, scopes, on, tag, &enumerators)?;
            Ok(())
        }
        Err(fault) => Err(fault),
    }
}

/// An enumeration, where what it holds follows.
pub fn with_enumeration(
    alloc: Global,
    scopes: &mut Scopes,
    on: Texts,
    tag: &Option<Name>,
    held: Option<Span>,
) -> Result<(), DeclarationFault>
    ensures comes { Comes (Rules.with_enumeration tag.now (option_map (held_in (texts on.entry)) held) scopes.old) scopes.new result }
    ensures grows { Grows scopes.old scopes.new }
{
    match held {
        Some(held) => define_enumeration(alloc, scopes, within(on, held), tag),
        None => Ok(()),
    }
}

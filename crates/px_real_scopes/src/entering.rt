ghost use Rattle.std.specs.Prelude.{◌≡◌, ◌∷◌, ◌++◌, [], List, map, length, option_map, false, IfOk, OnOk, OnErr};
ghost use Rattle.px_real_symbols.specs.Symbols.{held_in};
ghost use Rattle.px_real_declaring.specs.Trees.{specifier_tree, declaration_tree};
ghost use Rattle.px_real_types.specs.Scopes.{texts};
ghost use Rattle.px_real_scopes.specs.Entering as Rules;
ghost use Rattle.px_real_scopes.specs.Views.{binding_view};
ghost use Rattle.px_real_scopes.specs.Steps.{Comes, Grows};

use crate::enumerators::with_enumeration;
use crate::meaning::{Binding, Definition, Tag};
use crate::members::MemberList;
use crate::scopes::{Scopes, record_in};
use px_base::Site;
use px_real_declarations::Role;
use px_real_declaring::{Declaration, DeclarationFault, Specifier, role_of};
use px_real_members::members_of;
use px_real_names::enumerated::within;
use px_real_symbols::Span;
use px_real_types::Texts;
use px_syntax::Name;
use px_terms::NoMemory;
use std::alloc::Global;

// How deep structs may stand within one another.
pub const STRUCT_LIMIT: u32 = 200;

// How a struct or union is named: whether it is a struct, its tag, its place, whether what it holds follows, and whether nothing but it is declared.
#[derive(Clone, Copy)]
pub struct Naming<'a> {
    pub is_struct: bool,
    pub alone: bool,
    pub defines: bool,
    pub tag: &'a Option<Name>,
    pub site: Site,
}

// The number of a struct or union, unless it is defined.
fn if_open(scopes: &Scopes, number: Option<u32>) -> Option<u32>
    ensures { result ≡ Rules.if_open scopes.now number }
{
    let number = number?;
    if scopes.is_defined(number) {
        None
    } else {
        Some(number)
    }
}

// The number of the struct or union with this tag that is meant, if it is declared.
fn tagged_number(scopes: &Scopes, alone: bool, defines: bool, tag: &[u8]) -> Option<u32>
    ensures { result ≡ Rules.tagged_number scopes.now alone defines tag.now }
{
    if defines {
        return if_open(scopes, record_in(scopes.bindings.own_tag(tag)));
    }
    if alone {
        return record_in(scopes.bindings.own_tag(tag));
    }
    record_in(scopes.bindings.tag(tag))
}

// The number of the struct or union that is meant, if it is declared.
fn declared_number(scopes: &Scopes, naming: Naming) -> Option<u32>
    ensures { result ≡ Rules.declared_number scopes.now naming.entry.alone naming.entry.defines naming.entry.tag.now }
{
    match naming.tag {
        Some(tag) => tagged_number(scopes, naming.alone, naming.defines, tag.as_slice()),
        None => None,
    }
}

// What says in scope which one has this number.
fn record_binding(alloc: Global, naming: Naming, number: u32) -> Result<Binding, NoMemory>
    ensures { IfOk result (λ b. Rules.record_binding naming.entry.tag.now naming.entry.site number ≡ binding_view b) }
{
    match naming.tag {
        Some(tag) => Ok(Binding::Tag {
            name: Name::from_slice(alloc, tag.as_slice())?,
            tag: Tag::Record(number),
        }),
        None => Ok(Binding::Place {
            site: naming.site,
            number,
        }),
    }
}

// A new struct or union, with its number.
fn new_record(alloc: Global, scopes: &mut Scopes, naming: Naming) -> Result<u32, NoMemory>
    ensures added { OnOk result (scopes.new ≡ Rules.new_record naming.entry.is_struct naming.entry.tag.now naming.entry.site scopes.old) }
    ensures number { IfOk result (λ n. n ≡ length scopes.old.records) }
    ensures grows { Grows scopes.old scopes.new }
{
    let Ok(number) = u32::try_from(scopes.records.len()) else {
        return Err(NoMemory);
    };
    let binding = record_binding(alloc, naming, number)?;
    scopes.add_record(naming.is_struct)?;
    scopes.add_binding(binding)?;
    Ok(number)
}

// The number of the struct or union that is meant, which is a new one if there is none.
fn meant_record(alloc: Global, scopes: &mut Scopes, naming: Naming) -> Result<u32, NoMemory>
    ensures meant { IfOk result (λ n. (n, scopes.new) ≡ Rules.meant_record naming.entry.is_struct naming.entry.alone naming.entry.defines naming.entry.tag.now naming.entry.site scopes.old) }
    ensures grows { Grows scopes.old scopes.new }
{
    match declared_number(scopes, naming) {
        Some(number) => Ok(number),
        None => new_record(alloc, scopes, naming),
    }
}

// The struct or union with this number is defined.
fn add_definition(scopes: &mut Scopes, number: u32, members: MemberList) -> Result<(), NoMemory>
    ensures added { OnOk result (scopes.new ≡ Rules.with_definition number (scopes.old, members.members)) }
    ensures refused { OnErr result (scopes.new ≡ scopes.old) }
{
    scopes.add_definition(Definition {
        number,
        members: members.into_members(),
    })
}

// The struct or union with this number with these members, where others may stand within it so deep.
#[cycle(enter_specifier)]
fn define_by(
    alloc: Global,
    scopes: &mut Scopes,
    on: Texts,
    depth: u32,
    number: u32,
    lines: &[Declaration],
) -> Result<(), DeclarationFault>
    ensures comes { Comes (Rules.defined_by (Rules.with_specifier (Rules.deeper_by depth) false) number scopes.old (map (declaration_tree (texts on.entry)) lines.now)) scopes.new result }
    ensures grows { Grows scopes.old scopes.new }
{
    let mut members = MemberList::new(alloc, scopes.is_seen(number));
    enter_lines(alloc, scopes, on, depth, &mut members, lines)?;
    add_definition(scopes, number, members)?;
    Ok(())
}

// With what stands between its braces.
#[cycle(enter_specifier)]
fn define(
    alloc: Global,
    scopes: &mut Scopes,
    on: Texts,
    depth: u32,
    number: u32,
) -> Result<(), DeclarationFault>
    ensures comes { Comes (Rules.defined_as (Rules.deeper_by depth) (texts on.entry) (number, scopes.old)) scopes.new result }
    ensures grows { Grows scopes.old scopes.new }
{
    if depth == 0 {
        return Err(DeclarationFault::Deep(0));
    }
    match members_of(alloc, on.source, on.tokens, &scopes.bindings) {
        Ok(lines) => define_by(alloc, scopes, on, depth - 1, number, &lines),
        Err(fault) => Err(fault),
    }
}

// The struct or union that is named so, and what it holds, if that follows.
#[cycle(enter_specifier)]
fn enter_record(
    alloc: Global,
    scopes: &mut Scopes,
    on: Texts,
    depth: u32,
    naming: Naming,
    held: Option<Span>,
) -> Result<(), DeclarationFault>
    ensures comes { Comes (Rules.entered_record (Rules.deeper_by depth) naming.entry.is_struct naming.entry.alone naming.entry.tag.now naming.entry.site (option_map (held_in (texts on.entry)) held) scopes.old) scopes.new result }
    ensures grows { Grows scopes.old scopes.new }
{
    let naming = Naming {
        defines: held.is_some(),
        ..naming
    };
    let number = meant_record(alloc, scopes, naming)?;
    match held {
        Some(held) => define(alloc, scopes, within(on, held), depth, number),
        None => Ok(()),
    }
}

// What a specifier brings into scope.
#[cycle(enter_specifier)]
fn enter_specifier(
    alloc: Global,
    scopes: &mut Scopes,
    on: Texts,
    depth: u32,
    alone: bool,
    specifier: &Specifier,
) -> Result<(), DeclarationFault>
    ensures comes { Comes (Rules.with_specifier (Rules.deeper_by depth) alone scopes.old (specifier_tree (texts on.entry) specifier.now)) scopes.new result }
    ensures grows { Grows scopes.old scopes.new }
{
    let Specifier::Tagged {
        word,
        site,
        tag,
        held,
        ..
    } = specifier
    else {
        return Ok(());
    };
    match role_of(word.as_slice()) {
        Role::Enumeration => with_enumeration(alloc, scopes, on, tag, *held),
        Role::Record => {
            let naming = Naming {
                is_struct: word.as_slice() == b"struct".as_slice(),
                alone,
                defines: false,
                tag,
                site: *site,
            };
            enter_record(alloc, scopes, on, depth, naming, *held)
        }
        _ => Ok(()),
    }
}

// What specifiers bring into scope, one after the other.
#[cycle(enter_specifier)]
fn enter_specifiers(
    alloc: Global,
    scopes: &mut Scopes,
    on: Texts,
    depth: u32,
    alone: bool,
    specifiers: &[Specifier],
) -> Result<(), DeclarationFault>
    ensures comes { Comes (Rules.in_turn (Rules.with_specifier (Rules.deeper_by depth) alone) scopes.old (map (specifier_tree (texts on.entry)) specifiers.now)) scopes.new result }
    ensures grows { Grows scopes.old scopes.new }
{
    for specifier in specifiers {
        enter_specifier(alloc, scopes, on, depth, alone, specifier)?;
    }
    Ok(())
}

// What one declaration of members brings into scope, and its members.
#[cycle(enter_specifier)]
fn enter_line(
    alloc: Global,
    scopes: &mut Scopes,
    on: Texts,
    depth: u32,
    members: &mut MemberList,
    line: &Declaration,
) -> Result<(), DeclarationFault>
    ensures comes { Comes (Rules.with_line (Rules.with_specifier (Rules.deeper_by depth) false) members.old.cells (scopes.old, members.old.members) (declaration_tree (texts on.entry) line.now)) (scopes.new, members.new.members) result }
    ensures grows { Grows scopes.old scopes.new }
    ensures same { OnOk result (members.new.cells ≡ members.old.cells) }
{
    let Declaration::Declaration {
        specifiers,
        declared,
    } = line
    else {
        return Ok(());
    };
    enter_specifiers(alloc, scopes, on, depth, false, specifiers)?;
    members.add_line(alloc, scopes, on, specifiers, declared)?;
    Ok(())
}

// The same of all declarations of members.
#[cycle(enter_specifier)]
fn enter_lines(
    alloc: Global,
    scopes: &mut Scopes,
    on: Texts,
    depth: u32,
    members: &mut MemberList,
    lines: &[Declaration],
) -> Result<(), DeclarationFault>
    ensures comes { Comes (Rules.in_turn (Rules.with_line (Rules.with_specifier (Rules.deeper_by depth) false) members.old.cells) (scopes.old, members.old.members) (map (declaration_tree (texts on.entry)) lines.now)) (scopes.new, members.new.members) result }
    ensures grows { Grows scopes.old scopes.new }
{
    for line in lines {
        enter_line(alloc, scopes, on, depth, members, line)?;
    }
    Ok(())
}

/// What specifiers bring into scope, which stand alone or not.
pub fn with_specifiers(
    alloc: Global,
    scopes: &mut Scopes,
    on: Texts,
    alone: bool,
    specifiers: &[Specifier],
) -> Result<(), DeclarationFault>
    ensures comes { Comes (Rules.with_specifiers alone (map (specifier_tree (texts on.entry)) specifiers.now) scopes.old) scopes.new result }
    ensures grows { Grows scopes.old scopes.new }
{
    enter_specifiers(alloc, scopes, on, STRUCT_LIMIT, alone, specifiers)
}

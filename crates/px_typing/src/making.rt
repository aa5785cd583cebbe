ghost use Rattle.std.specs.Prelude.{◌≡◌, [], ◌∷◌, map, filter_map, ◌++◌, IfOk, OnOk};
ghost use Rattle.px_syntax.specs.ParsedTree.{parsed_tree, file_tree};
ghost use Rattle.px_bodies.specs.Environment.{environment_of, fields_of, fields_of_one, value_type};
ghost use Rattle.px_bodies.specs.Lent.{type_of};
ghost use Rattle.px_typing.specs.ItemViews.{judged_of};
ghost use Rattle.px_typing.specs.Apart.{is_kept};
ghost use Rattle.px_typing.specs.Programs as specs;

use crate::marked::JudgedItem;
use crate::numbering::function_name;
use px_base::Site;
use px_bodies::{CType, Environment};
use px_syntax::{FieldDeclaration, Item, Left, Name, ParsedFile, ParsedItem, TypeName};
use px_terms::{BlockType, Items, NoMemory, ValueType};
use std::alloc::Global;

// The place of an item, or of its refusal.
fn site_of(item: &ParsedItem) -> Site
    ensures { result ≡ specs.site_of (parsed_tree item.now) }
{
    match item {
        ParsedItem::Parsed(Item::Struct { site, .. }) => *site,
        ParsedItem::Parsed(Item::Declared { site, .. }) => *site,
        ParsedItem::Parsed(Item::Prototype { site, .. }) => *site,
        ParsedItem::Parsed(Item::Function { site, .. }) => *site,
        ParsedItem::Out { site, .. } => *site,
    }
}

// An item that is left out, or none where it is kept.
fn left_item<'a>(
    alloc: Global,
    environment: &Environment<'a>,
    judged: JudgedItem<'a>,
) -> Result<Option<Left>, NoMemory>
    ensures { IfOk result (λ l. l ≡ specs.left_of (environment_of environment.now) (judged_of judged.entry)) }
{
    let Some(word) = judged.word else {
        return Ok(None);
    };
    let proc = match function_name(judged.item) {
        Some(name) => Some(environment.proc_id(name)),
        None => None,
    };
    Ok(Some(Left {
        proc,
        site: site_of(judged.item),
        word: Name::from_slice(alloc, word)?,
    }))
}

// The same, after others.
fn add_left<'a>(
    alloc: Global,
    environment: &Environment<'a>,
    judged: JudgedItem<'a>,
    all: &mut Items<Left>,
) -> Result<(), NoMemory>
    ensures { OnOk result (all.new ≡ all.old ++ filter_map (specs.left_of (environment_of environment.now)) (judged_of judged.entry ∷ [])) }
{
    match left_item(alloc, environment, judged)? {
        Some(left) => all.push(left),
        None => Ok(()),
    }
}

/// The items that are left out.
pub(crate) fn left_items<'a>(
    alloc: Global,
    environment: &Environment<'a>,
    judged: &[JudgedItem<'a>],
) -> Result<Items<Left>, NoMemory>
    ensures { IfOk result (λ all. all ≡ filter_map (specs.left_of (environment_of environment.now)) (map judged_of judged.now)) }
{
    let mut all = Items::new(alloc);
    for i in 0..judged.len() {
        add_left(alloc, environment, judged[i], &mut all)?;
    }
    Ok(all)
}

/// Which items are kept.
pub(crate) fn kept_items<'a>(
    alloc: Global,
    judged: &[JudgedItem<'a>],
) -> Result<Vec<bool>, NoMemory>
    ensures { IfOk result (λ all. all.items ≡ map is_kept (map judged_of judged.now)) }
{
    let mut all = Vec::with_capacity(alloc, judged.len())?;
    for i in 0..judged.len() {
        all.push(judged[i].word.is_none())?;
    }
    Ok(all)
}

// The types of the fields of one declaration, after others.
fn add_field_types<'a>(
    environment: &Environment<'a>,
    declaration: &'a FieldDeclaration,
    all: &mut Items<ValueType>,
) -> Result<(), NoMemory>
    ensures { OnOk result (all.new ≡ all.old ++ map (λ f. value_type (environment_of environment.now) f.1) (fields_of_one declaration.entry.now)) }
{
    for declarator in declaration.declarators.as_slice() {
        all.push(environment.value_type(CType::new(&declaration.base, declarator.stars)))?;
    }
    Ok(())
}

// The types of the fields of a struct.
fn field_types<'a>(
    alloc: Global,
    environment: &Environment<'a>,
    fields: &'a [FieldDeclaration],
) -> Result<Items<ValueType>, NoMemory>
    ensures { IfOk result (λ all. all ≡ map (λ f. value_type (environment_of environment.now) f.1) (fields_of fields.entry.now)) }
{
    let mut all = Items::new(alloc);
    for declaration in fields {
        add_field_types(environment, declaration, &mut all)?;
    }
    Ok(all)
}

// What a block of a type holds.
fn block_type<'a>(
    alloc: Global,
    environment: &Environment<'a>,
    of: CType<'a>,
) -> Result<BlockType, NoMemory>
    ensures { IfOk result (λ b. b ≡ specs.block_type (environment_of environment.now) (type_of of.entry)) }
{
    if of.is_value() {
        return Ok(BlockType::One(environment.value_type(of)));
    }
    match environment.declarations(of) {
        Some(fields) => Ok(BlockType::Fields(field_types(alloc, environment, fields)?)),
        None => Ok(BlockType::Opaque),
    }
}

/// What the blocks of types hold.
pub(crate) fn block_types<'a>(
    alloc: Global,
    environment: &Environment<'a>,
    types: &[CType<'a>],
) -> Result<Items<BlockType>, NoMemory>
    ensures { IfOk result (λ all. all ≡ map (specs.block_type (environment_of environment.now)) (map type_of types.now)) }
{
    let mut all = Items::new(alloc);
    for i in 0..types.len() {
        all.push(block_type(alloc, environment, types[i])?)?;
    }
    Ok(all)
}

/// Copies of types.
pub(crate) fn copied_types<'a>(
    alloc: Global,
    types: &[CType<'a>],
) -> Result<Vec<TypeName>, NoMemory>
    ensures { IfOk result (λ all. all.items ≡ map type_of types.now) }
{
    let mut all = Vec::with_capacity(alloc, types.len())?;
    for i in 0..types.len() {
        all.push(types[i].to_name(alloc)?)?;
    }
    Ok(all)
}

/// Copies of names.
pub(crate) fn copied_names(alloc: Global, names: &[&[u8]]) -> Result<Items<Name>, NoMemory>
    ensures { IfOk result (λ all. all ≡ map (λ n. n.now) names.now) }
{
    let mut all = Items::new(alloc);
    for i in 0..names.len() {
        all.push(Name::from_slice(alloc, names[i])?)?;
    }
    Ok(all)
}

/// The names of files.
pub(crate) fn file_names(alloc: Global, files: &[ParsedFile]) -> Result<Items<Name>, NoMemory>
    ensures { IfOk result (λ all. all ≡ map (λ f. f.name) (map file_tree files.now)) }
{
    let mut all = Items::new(alloc);
    for file in files {
        all.push(Name::from_slice(alloc, file.name.as_slice())?)?;
    }
    Ok(all)
}

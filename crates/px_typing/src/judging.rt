ghost use Rattle.std.specs.Prelude.{◌≡◌, map, option_map, IfOk};
ghost use Rattle.px_syntax.specs.StatementTree.{statement_tree};
ghost use Rattle.px_syntax.specs.ItemTree.{item_tree};
ghost use Rattle.px_syntax.specs.ParsedTree.{parsed_tree};
ghost use Rattle.px_bodies.specs.Environment.{environment_of, fields_of};
ghost use Rattle.px_bodies.specs.Functions as rules;
ghost use Rattle.px_typing.specs.Keeping as keeping;
ghost use Rattle.px_typing.specs.ItemViews.{marked_of, judged_of};

use crate::marked::{JudgedItem, MarkedItem};
use crate::shapes::{are_many, have_types, is_prototype};
use px_base::{MOST_PARAMETERS, ProcId, Site};
use px_bodies::{Environment, typed_function};
use px_syntax::{FieldDeclaration, Item, Parameter, ParsedItem, ResultType, Statement};
use px_terms::NoMemory;
use std::alloc::Global;

// The word of a struct's definition, if it is left out.
fn struct_word<'a>(
    alloc: Global,
    duplicate: bool,
    fields: &'a [FieldDeclaration],
) -> Result<Option<&'a [u8]>, NoMemory>
    ensures { IfOk result (λ w. option_map (λ x. x.now) w ≡ keeping.struct_word duplicate (fields_of fields.entry.now)) }
{
    if duplicate {
        return Ok(Some(b"duplicate".as_slice()));
    }
    if are_many(fields) {
        return Ok(Some(b"fields".as_slice()));
    }
    if have_types(alloc, fields)? {
        Ok(None)
    } else {
        Ok(Some(b"type".as_slice()))
    }
}

// The word of a prototype, if it is left out.
fn prototype_word<'a>(
    alloc: Global,
    returns: &'a ResultType,
    parameters: &'a [Parameter],
) -> Result<Option<&'a [u8]>, NoMemory>
    ensures { IfOk result (λ w. option_map (λ x. x.now) w ≡ keeping.prototype_word returns.entry.now parameters.entry.now) }
{
    if parameters.len() > MOST_PARAMETERS {
        return Ok(Some(b"parameters".as_slice()));
    }
    if is_prototype(alloc, returns, parameters)? {
        Ok(None)
    } else {
        Ok(Some(b"type".as_slice()))
    }
}

// The word of a function's definition, if it is left out.
fn function_word<'a>(
    alloc: Global,
    environment: &Environment<'a>,
    duplicate: bool,
    site: Site,
    returns: &'a ResultType,
    parameters: &'a [Parameter],
    body: &'a [Statement],
) -> Result<Option<&'a [u8]>, NoMemory>
    ensures { IfOk result (λ w. option_map (λ x. x.now) w ≡ keeping.function_word duplicate parameters.entry.now (rules.typed_function (environment_of environment.now) (record { 0 = 0 }) site returns.entry.now parameters.entry.now (map statement_tree body.entry.now))) }
{
    if duplicate {
        return Ok(Some(b"duplicate".as_slice()));
    }
    if parameters.len() > MOST_PARAMETERS {
        return Ok(Some(b"parameters".as_slice()));
    }
    match typed_function(
        alloc,
        environment,
        ProcId(0),
        site,
        returns,
        parameters,
        body,
    )? {
        Some(_) => Ok(None),
        None => Ok(Some(b"type".as_slice())),
    }
}

// The word of an item with a tree, if it is left out.
fn tree_word<'a>(
    alloc: Global,
    environment: &Environment<'a>,
    duplicate: bool,
    item: &'a Item,
) -> Result<Option<&'a [u8]>, NoMemory>
    ensures { IfOk result (λ w. option_map (λ x. x.now) w ≡ keeping.word_of_tree (environment_of environment.now) duplicate (item_tree item.entry.now)) }
{
    match item {
        Item::Struct { fields, .. } => struct_word(alloc, duplicate, fields.as_slice()),
        Item::Declared { .. } => Ok(None),
        Item::Prototype {
            result,
            parameters,
            ..
        } => prototype_word(alloc, result, parameters.as_slice()),
        Item::Function {
            site,
            result,
            parameters,
            body,
            ..
        } => {
            function_word(
                alloc,
                environment,
                duplicate,
                *site,
                result,
                parameters.as_slice(),
                body.as_slice(),
            )
        }
    }
}

// The word of an item, if it is left out.
fn word_of<'a>(
    alloc: Global,
    environment: &Environment<'a>,
    duplicate: bool,
    item: &'a ParsedItem,
) -> Result<Option<&'a [u8]>, NoMemory>
    ensures { IfOk result (λ w. option_map (λ x. x.now) w ≡ keeping.word_of (environment_of environment.now) duplicate (parsed_tree item.entry.now)) }
{
    match item {
        ParsedItem::Parsed(item) => tree_word(alloc, environment, duplicate, item),
        ParsedItem::Out { word, .. } => Ok(Some(word.as_slice())),
    }
}

/// Each item with its word, if it is left out.
pub(crate) fn judge<'a>(
    alloc: Global,
    environment: &Environment<'a>,
    marked: &[MarkedItem<'a>],
) -> Result<Vec<JudgedItem<'a>>, NoMemory>
    ensures { IfOk result (λ v. map judged_of v.items ≡ map (keeping.judged (environment_of environment.now)) (map marked_of marked.now)) }
{
    let mut judged = Vec::with_capacity(alloc, marked.len())?;
    for i in 0..marked.len() {
        let MarkedItem { item, duplicate } = marked[i];
        let word = word_of(alloc, environment, duplicate, item)?;
        judged.push(JudgedItem { item, word })?;
    }
    Ok(judged)
}

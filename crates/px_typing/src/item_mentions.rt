ghost use Rattle.std.specs.Prelude.{◌≡◌, [], ◌∷◌, ◌++◌, flat_map, IfOk, OnOk};
ghost use Rattle.px_syntax.specs.ItemTree.{item_tree};
ghost use Rattle.px_bodies.specs.Environment.{fields_of, fields_of_one};
ghost use Rattle.px_typing.specs.ItemViews.{judged_of};
ghost use Rattle.px_typing.specs.Mentions.{of_type, of_result, of_parameters, of_item};
ghost use Rattle.px_typing.specs.Programs as programs;

use crate::marked::JudgedItem;
use crate::mention::{Mentioned, Mentions};
use crate::walk::{statements_mentions, type_mentions};
use px_syntax::{FieldDeclaration, Item, Parameter, ParsedItem, ResultType};
use px_terms::NoMemory;
use std::alloc::Global;

// What the declarators of a declaration of fields name.
fn declarators_mentions<'a>(
    declaration: &'a FieldDeclaration,
    out: &mut Mentions<'a>,
) -> Result<(), NoMemory>
    ensures { OnOk result (out.new ≡ out.old ++ flat_map (λ f. of_type f.1) (fields_of_one declaration.entry.now)) }
{
    for declarator in declaration.declarators.as_slice() {
        out.push(Mentioned::Named(&declaration.base, declarator.stars))?;
    }
    Ok(())
}

// What the fields of a struct name.
fn fields_mentions<'a>(
    fields: &'a [FieldDeclaration],
    out: &mut Mentions<'a>,
) -> Result<(), NoMemory>
    ensures { OnOk result (out.new ≡ out.old ++ flat_map (λ f. of_type f.1) (fields_of fields.entry.now)) }
{
    for declaration in fields {
        declarators_mentions(declaration, out)?;
    }
    Ok(())
}

// What a result names.
fn result_mentions<'a>(returns: &'a ResultType, out: &mut Mentions<'a>) -> Result<(), NoMemory>
    ensures { OnOk result (out.new ≡ out.old ++ of_result returns.entry.now) }
{
    match returns {
        ResultType::Void => Ok(()),
        ResultType::Value(of) => type_mentions(out, of),
    }
}

// What parameters name.
fn parameters_mentions<'a>(
    parameters: &'a [Parameter],
    out: &mut Mentions<'a>,
) -> Result<(), NoMemory>
    ensures { OnOk result (out.new ≡ out.old ++ of_parameters parameters.entry.now) }
{
    for parameter in parameters {
        type_mentions(out, &parameter.value)?;
    }
    Ok(())
}

// What an item with a tree names.
fn tree_mentions<'a>(item: &'a Item, out: &mut Mentions<'a>) -> Result<(), NoMemory>
    ensures { OnOk result (out.new ≡ out.old ++ of_item (item_tree item.entry.now)) }
{
    match item {
        Item::Struct { name, fields, .. } => {
            out.push(Mentioned::Defines(name))?;
            fields_mentions(fields.as_slice(), out)
        }
        Item::Declared { .. } => Ok(()),
        Item::Prototype {
            result,
            name,
            parameters,
            ..
        } => {
            result_mentions(result, out)?;
            out.push(Mentioned::Declares(name))?;
            parameters_mentions(parameters.as_slice(), out)
        }
        Item::Function {
            result,
            parameters,
            body,
            ..
        } => {
            result_mentions(result, out)?;
            parameters_mentions(parameters.as_slice(), out)?;
            statements_mentions(body.as_slice(), out)
        }
    }
}

// What an item names, if it is kept.
fn item_mentions<'a>(judged: JudgedItem<'a>, out: &mut Mentions<'a>) -> Result<(), NoMemory>
    ensures { OnOk result (out.new ≡ out.old ++ programs.mentions (judged_of judged.entry ∷ [])) }
{
    match judged.word {
        None => match judged.item {
            ParsedItem::Parsed(item) => tree_mentions(item, out),
            ParsedItem::Out { .. } => Ok(()),
        },
        Some(_) => Ok(()),
    }
}

/// What an item names, if it is kept, in the order of the places.
pub(crate) fn mentions_of<'a>(
    alloc: Global,
    judged: JudgedItem<'a>,
) -> Result<Mentions<'a>, NoMemory>
    ensures { IfOk result (λ m. m ≡ programs.mentions (judged_of judged.entry ∷ [])) }
{
    let mut out = Mentions::new(alloc);
    item_mentions(judged, &mut out)?;
    Ok(out)
}

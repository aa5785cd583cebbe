ghost use Rattle.std.specs.Prelude.{◌≡◌, true, map, option_map, length, nat_lt, Some, IfOk};
ghost use Rattle.px_base.specs.Bounds.{most_fields};
ghost use Rattle.px_bodies.specs.Environment.{fields_of, fields_of_one, result_of};
ghost use Rattle.px_bodies.specs.Lent.{type_of};
ghost use Rattle.px_typing.specs.Declarations.{declared_field, declared_parameter, are_typed_fields, is_result, is_typed_prototype};
ghost use Rattle.px_typing.specs.Shapes.{is_typed_after, with_name, are_typed_after, names_after};

use crate::sights::Names;
use px_bodies::CType;
use px_syntax::{FieldDeclaration, Name, Parameter, ResultType};
use px_terms::NoMemory;
use std::alloc::Global;

// Whether what is declared is an int or a pointer, and its name isn't among these. Takes the name in.
fn is_typed<'a>(
    names: &mut Names<'a>,
    name: Option<&'a Name>,
    of: CType<'a>,
) -> Result<bool, NoMemory>
    ensures answer { IfOk result (λ yes. yes ≡ is_typed_after names.old (record { name = option_map (λ n. n.now) name.entry; value = type_of of.entry })) }
    ensures names { IfOk result (λ yes. yes ≡ true → names.new ≡ with_name names.old (option_map (λ n. n.now) name.entry)) }
{
    if !of.is_value() {
        return Ok(false);
    }
    match name {
        Some(name) => names.see(name.as_slice()),
        None => Ok(true),
    }
}

// The same of each declarator of a declaration of fields.
fn are_typed_declarators<'a>(
    names: &mut Names<'a>,
    declaration: &'a FieldDeclaration,
) -> Result<bool, NoMemory>
    ensures answer { IfOk result (λ yes. yes ≡ are_typed_after names.old (map declared_field (fields_of_one declaration.entry.now))) }
    ensures names { IfOk result (λ yes. yes ≡ true → names.new ≡ names_after names.old (map declared_field (fields_of_one declaration.entry.now))) }
{
    for declarator in declaration.declarators.as_slice() {
        let of = CType::new(&declaration.base, declarator.stars);
        if !is_typed(names, Some(&declarator.name), of)? {
            return Ok(false);
        }
    }
    Ok(true)
}

// The same of each declaration of a struct.
fn are_typed_declarations<'a>(
    names: &mut Names<'a>,
    fields: &'a [FieldDeclaration],
) -> Result<bool, NoMemory>
    ensures { IfOk result (λ yes. yes ≡ are_typed_after names.old (map declared_field (fields_of fields.entry.now))) }
{
    for declaration in fields {
        if !are_typed_declarators(names, declaration)? {
            return Ok(false);
        }
    }
    Ok(true)
}

// Whether the fields of a struct keep the typing rules.
pub(crate) fn have_types<'a>(
    alloc: Global,
    fields: &'a [FieldDeclaration],
) -> Result<bool, NoMemory>
    ensures { IfOk result (λ yes. yes ≡ are_typed_fields (fields_of fields.entry.now)) }
{
    let mut names = Names::new(alloc);
    are_typed_declarations(&mut names, fields)
}

// Whether a struct has more than 64 fields.
pub(crate) fn are_many(fields: &[FieldDeclaration]) -> bool
    ensures { result ≡ nat_lt most_fields (length (fields_of fields.now)) }
{
    let mut room = 64usize;
    for declaration in fields {
        let count = declaration.declarators.len();
        if room < count {
            return true;
        }
        room -= count;
    }
    false
}

// Whether a result is an int, a pointer or void.
fn is_result_type(returns: &ResultType) -> bool
    ensures { result ≡ is_result (result_of returns.now) }
{
    match returns {
        ResultType::Void => true,
        ResultType::Value(of) => CType::of(of).is_value(),
    }
}

// The same of each parameter.
fn are_typed_parameters<'a>(
    names: &mut Names<'a>,
    parameters: &'a [Parameter],
) -> Result<bool, NoMemory>
    ensures { IfOk result (λ yes. yes ≡ are_typed_after names.old (map declared_parameter parameters.entry.now)) }
{
    for parameter in parameters {
        if !is_typed(names, parameter.name.as_ref(), CType::of(&parameter.value))? {
            return Ok(false);
        }
    }
    Ok(true)
}

// Whether a prototype keeps the typing rules.
pub(crate) fn is_prototype<'a>(
    alloc: Global,
    returns: &'a ResultType,
    parameters: &'a [Parameter],
) -> Result<bool, NoMemory>
    ensures { IfOk result (λ yes. yes ≡ is_typed_prototype returns.entry.now parameters.entry.now) }
{
    if !is_result_type(returns) {
        return Ok(false);
    }
    let mut names = Names::new(alloc);
    are_typed_parameters(&mut names, parameters)
}

ghost use Rattle.std.specs.Prelude.{◌≡◌, ◌++◌, IfOk, List, ℕ};
ghost use Rattle.px_syntax.specs.declared.type_name.TypeName.{TypeName};
ghost use Rattle.px_bodies.specs.Environment.{field_from, fields_of, fields_of_one};
ghost use Rattle.px_bodies.specs.Lent.{field_seen};
ghost use Rattle.px_bodies.specs.Searches.{Finds};
ghost use Rattle.px_bodies.specs.Outcomes.{Yields};

use crate::CType;
use crate::refusal::Refusal;
use px_syntax::{FieldDeclaration, Name};
use px_terms::NoMemory;

/// A field of a struct, by its place among the others, and its type.
#[derive(Clone, Copy)]
pub struct Field<'a> {
    pub(crate) number: u32,
    pub(crate) value: CType<'a>,
}

/// Where the search for a field has come: to it, or after these fields.
#[derive(Clone, Copy)]
pub enum Search<'a> {
    Found(Field<'a>),
    Behind(u32),
}

// The first field of this name among those of a struct.
pub fn find_field<'a>(
    declarations: &'a [FieldDeclaration],
    name: &Name,
) -> Result<Field<'a>, Refusal>
    ensures { Yields field_seen result (field_from 0 name.now (fields_of declarations.now)) }
{
    let mut number = 0;
    for i in 0..declarations.len() {
        match find_in(&declarations[i], name, number)? {
            Search::Found(field) => return Ok(field),
            Search::Behind(behind) => number = behind,
        }
    }
    Err(Refusal::Rule)
}

// The same among those of one declaration, counted from a number.
fn find_in<'a>(
    declaration: &'a FieldDeclaration,
    name: &Name,
    from: u32,
) -> Result<Search<'a>, NoMemory>
    ensures { IfOk result (λ s. (rest : List (List ℕ × TypeName)) → Finds s (field_from from name.now (fields_of_one declaration.now ++ rest)) name.now rest) }
{
    let declarators = declaration.declarators.as_slice();
    let mut number = from;
    for i in 0..declarators.len() {
        let declarator = &declarators[i];
        if declarator.name.as_slice() == name.as_slice() {
            let value = CType::new(&declaration.base, declarator.stars);
            return Ok(Search::Found(Field { number, value }));
        }
        match number.checked_add(1) {
            Some(next) => number = next,
            None => return Err(NoMemory),
        }
    }
    Ok(Search::Behind(number))
}

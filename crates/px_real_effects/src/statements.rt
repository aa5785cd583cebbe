ghost use Rattle.std.specs.Prelude.{◌≡◌, ◌∷◌, ◌++◌, [], map, OnOk};
ghost use Rattle.px_syntax.specs.TypedTree as T;
ghost use Rattle.px_syntax.specs.TypedViews.{typed_expression, typed_statement};
ghost use Rattle.px_real_types.specs.declared.shape.ProfileType.{ProfileType as Kind};
ghost use Rattle.px_real_effects.specs.Effects as Rules;
ghost use Rattle.px_real_effects.specs.Views.{elsewhere_seen};

use crate::targets::Elsewhere;
use px_base::{FieldId, Site};
use px_real_values::put_all;
use px_syntax::{CellLink, TypedExpression, TypedStatement};
use px_terms::{NoMemory, TypeId};
use std::alloc::Global;

/// One more statement.
pub fn put(into: &mut Vec<TypedStatement>, statement: TypedStatement) -> Result<(), NoMemory>
    ensures { OnOk result (map typed_statement into.new.items ≡ map typed_statement into.old.items ++ typed_statement statement ∷ []) }
{
    into.push(statement)?;
    Ok(())
}

/// An expression whose value isn't read.
pub fn put_evaluated(
    alloc: Global,
    value: TypedExpression,
    into: &mut Vec<TypedStatement>,
) -> Result<(), NoMemory>
    ensures { OnOk result (map typed_statement into.new.items ≡ map typed_statement into.old.items ++ T.evaluate (typed_expression value) ∷ []) }
{
    let value = Box::new(alloc, value)?;
    put(into, TypedStatement::Evaluate { value })
}

/// Expressions, in order, whose values aren't read.
pub fn put_all_evaluated(
    alloc: Global,
    parts: Vec<TypedExpression>,
    into: &mut Vec<TypedStatement>,
) -> Result<(), NoMemory>
    ensures { OnOk result (map typed_statement into.new.items ≡ map typed_statement into.old.items ++ Rules.evaluated (map typed_expression parts.items)) }
{
    for part in parts {
        put_evaluated(alloc, part, into)?;
    }
    Ok(())
}

// The pointer, these parts, and then the access, by which nothing is stored.
fn put_accessed(
    alloc: Global,
    pointer: TypedExpression,
    parts: Vec<TypedExpression>,
    block: TypeId,
    site: Site,
    into: &mut Vec<TypedStatement>,
) -> Result<(), NoMemory>
    ensures { OnOk result (map typed_statement into.new.items ≡ map typed_statement into.old.items ++ Rules.accessed (typed_expression pointer) (map typed_expression parts.items) block site ∷ []) }
{
    let pointer = Box::new(alloc, pointer)?;
    let cell = CellLink {
        field: FieldId(0),
        block,
        site,
    };
    put(
        into,
        TypedStatement::Access {
            pointer,
            parts,
            cell,
        },
    )
}

// What is evaluated before something would be written, where that is no place of the profile.
pub fn put_unwritten(
    alloc: Global,
    at: Elsewhere,
    parts: Vec<TypedExpression>,
    into: &mut Vec<TypedStatement>,
) -> Result<(), NoMemory>
    ensures { (write : Kind → T.Place → T.Statement) → OnOk result (map typed_statement into.new.items ≡ map typed_statement into.old.items ++ Rules.written write (map typed_expression parts.items) (elsewhere_seen at)) }
{
    match at {
        Elsewhere::Access {
            pointer,
            block,
            site,
        } => put_accessed(alloc, pointer, parts, block, site, into),
        Elsewhere::Away { parts: before } => {
            let mut all = before;
            put_all(&mut all, parts)?;
            put_all_evaluated(alloc, all, into)
        }
        Elsewhere::Nowhere { value } => put_evaluated(alloc, value, into),
    }
}

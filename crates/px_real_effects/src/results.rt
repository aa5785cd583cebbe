ghost use Rattle.std.specs.Prelude.{◌≡◌, ◌++◌, ◌∷◌, [], map, None, Some, OnOk};
ghost use Rattle.px_syntax.specs.TypedViews.{typed_statement};
ghost use Rattle.px_real_reading.specs.Trees.{expression_tree};
ghost use Rattle.px_real_effects.specs.Effects as Rules;

use crate::statements::{put, put_all_evaluated, put_evaluated};
use px_base::Site;
use px_real_reading::Expression;
use px_real_types::ProfileType;
use px_real_values::{Environment, evaluate, first_site, stop};
use px_syntax::TypedStatement;
use px_terms::NoMemory;
use std::alloc::Global;

/// The declaration of a local of this number and type, without a value.
pub fn put_begun<E: Environment>(
    environment: &E,
    number: u32,
    kind: ProfileType,
    into: &mut Vec<TypedStatement>,
) -> Result<(), NoMemory>
    ensures { OnOk result (map typed_statement into.new.items ≡ map typed_statement into.old.items ++ Rules.initialised (E.sees environment.now) number kind None ∷ []) }
{
    put(
        into,
        TypedStatement::Declare {
            local: number,
            value: None,
        },
    )
}

/// The declaration of a local of this number and type that begins with a value.
pub fn put_begun_with<E: Environment>(
    alloc: Global,
    environment: &E,
    number: u32,
    kind: ProfileType,
    value: &Expression,
    into: &mut Vec<TypedStatement>,
) -> Result<(), NoMemory>
    ensures { OnOk result (map typed_statement into.new.items ≡ map typed_statement into.old.items ++ Rules.initialised (E.sees environment.now) number kind (Some (Rules.argument_of (E.sees environment.now) (expression_tree (E.tokens environment.now) value.now))) ∷ []) }
{
    let first = first_site(value);
    let given = evaluate(alloc, environment, value)?;
    let value = Box::new(alloc, given.needed(alloc, environment, first, kind)?)?;
    put(
        into,
        TypedStatement::Declare {
            local: number,
            value: Some(value),
        },
    )
}

/// `return;` of a function with this result, or with none that is of the profile.
pub fn put_return<E: Environment>(
    alloc: Global,
    environment: &E,
    returns: Option<ProfileType>,
    site: Site,
    into: &mut Vec<TypedStatement>,
) -> Result<(), NoMemory>
    ensures { OnOk result (map typed_statement into.new.items ≡ map typed_statement into.old.items ++ Rules.returned (E.sees environment.now) returns site None) }
{
    match returns {
        None => put(into, TypedStatement::Return { value: None }),
        Some(_) => {
            let word = environment.word_number(b"return".as_slice());
            put_evaluated(alloc, stop(Vec::new(alloc), word, site), into)
        }
    }
}

/// `return` with a value.
pub fn put_return_of<E: Environment>(
    alloc: Global,
    environment: &E,
    returns: Option<ProfileType>,
    site: Site,
    value: &Expression,
    into: &mut Vec<TypedStatement>,
) -> Result<(), NoMemory>
    ensures { OnOk result (map typed_statement into.new.items ≡ map typed_statement into.old.items ++ Rules.returned (E.sees environment.now) returns site (Some (Rules.argument_of (E.sees environment.now) (expression_tree (E.tokens environment.now) value.now)))) }
{
    let first = first_site(value);
    let given = evaluate(alloc, environment, value)?;
    match returns {
        None => {
            let parts = given.parts(alloc, environment)?;
            put_all_evaluated(alloc, parts, into)?;
            put(into, TypedStatement::Return { value: None })
        }
        Some(kind) => {
            let value = Box::new(alloc, given.needed(alloc, environment, first, kind)?)?;
            put(into, TypedStatement::Return { value: Some(value) })
        }
    }
}

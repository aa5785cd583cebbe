ghost use Rattle.std.specs.Prelude.{◌≡◌, ◌<◌, ◌+◌, ◌++◌, ◌∷◌, map, length, drop, option_map, option_to_list, IfOk, OnOk};
ghost use Rattle.px_syntax.specs.StatementTree.{statement_tree};
ghost use Rattle.px_syntax.specs.ParsedTree.{parsed_tree};
ghost use Rattle.px_syntax.specs.ProgramTree.{procedure_tree};
ghost use Rattle.px_bodies.specs.Environment.{environment_of};
ghost use Rattle.px_typing.specs.Apart.{whole, wholes, made_of, made_in};

use px_bodies::{Environment, typed_function};
use px_syntax::{Item, ParsedItem, Procedure, Statement};
use px_terms::{Items, NoMemory};
use std::alloc::Global;
use std::mem;

// The procedure of an item with this body, or none where it isn't kept or is no function. The body is lent for a
// shorter time than the items.
fn kept_procedure<'a, 'b>(
    alloc: Global,
    environment: &Environment<'a>,
    kept: bool,
    head: &'a ParsedItem,
    body: &'b [Statement],
) -> Result<Option<Procedure>, NoMemory>
    ensures { IfOk result (λ p. option_map procedure_tree p ≡ made_of (environment_of environment.now) (whole (parsed_tree head.now) (map statement_tree body.now)) kept) }
{
    if !kept {
        return Ok(None);
    }
    match head {
        ParsedItem::Parsed(
            Item::Function {
                site,
                result,
                name,
                parameters,
                ..
            },
        ) => typed_function(
            alloc,
            environment,
            environment.proc_id(name),
            *site,
            result,
            parameters.as_slice(),
            body,
        ),
        _ => Ok(None),
    }
}

// The same, after others. The body is let go.
fn add_procedure<'a>(
    alloc: Global,
    environment: &Environment<'a>,
    kept: bool,
    head: &'a ParsedItem,
    body: Items<Statement>,
    all: &mut Items<Procedure>,
) -> Result<(), NoMemory>
    ensures { OnOk result (map procedure_tree all.new ≡ map procedure_tree all.old ++ option_to_list (made_of (environment_of environment.now) (whole (parsed_tree head.now) (map statement_tree body)) kept)) }
{
    match kept_procedure(alloc, environment, kept, head, body.as_slice())? {
        Some(procedure) => all.push(procedure),
        None => Ok(()),
    }
}

// Takes the body with this number out.
fn take_body(alloc: Global, bodies: &mut [Items<Statement>], number: usize) -> Items<Statement>
    requires { number < length bodies.old }
    ensures { drop number bodies.old ≡ result ∷ drop (number + 1) bodies.new }
{
    mem::replace(&mut bodies[number], Items::new(alloc))
}

/// The procedures of items, of each of which is said whether it is kept. Each body is let go when its procedure is made.
pub(crate) fn kept_procedures<'a>(
    alloc: Global,
    environment: &Environment<'a>,
    heads: &'a [ParsedItem],
    bodies: &mut [Items<Statement>],
    kept: &[bool],
) -> Result<Items<Procedure>, NoMemory>
    requires bodies { length bodies.old ≡ length heads.now }
    requires flags { length kept.now ≡ length heads.now }
    ensures { IfOk result (λ all. map procedure_tree all ≡ made_in (environment_of environment.now) (wholes (map parsed_tree heads.now) (map (map statement_tree) bodies.old)) kept.now) }
{
    let mut all = Items::new(alloc);
    for i in 0..heads.len() {
        let body = take_body(alloc, bodies, i);
        add_procedure(alloc, environment, kept[i], &heads[i], body, &mut all)?;
    }
    Ok(all)
}

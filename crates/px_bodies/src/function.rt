ghost use Rattle.std.specs.Prelude.{◌≡◌, IfOk, option_map, map};
ghost use Rattle.px_syntax.specs.StatementTree.{statement_tree};
ghost use Rattle.px_syntax.specs.ProgramTree.{procedure_tree};
ghost use Rattle.px_bodies.specs.Environment.{environment_of, result_of};
ghost use Rattle.px_bodies.specs.Environment as types;
ghost use Rattle.px_bodies.specs.Lent.{type_of};
ghost use Rattle.px_bodies.specs.Locals.{typed_parameters};
ghost use Rattle.px_bodies.specs.Functions as rules;
ghost use Rattle.px_bodies.specs.Outcomes.{Yields};

use crate::locals::Locals;
use crate::refusal::Refusal;
use crate::statements::{Position, statements};
use crate::{CType, Environment};
use px_base::{ProcId, Site};
use px_syntax::{Parameter, Procedure, ResultType, Statement, TypedBody, TypedStatement};
use px_terms::{Items, NoMemory, ValueType};
use std::alloc::Global;

// The type of what a function gives: an int, a pointer or void.
fn result_type<'a>(returns: &'a ResultType) -> Result<Option<CType<'a>>, Refusal>
    ensures { Yields (option_map type_of) result (rules.allowed_result (result_of returns.now)) }
{
    match returns {
        ResultType::Void => Ok(None),
        ResultType::Value(value) => {
            let value = CType::of(value);
            if value.is_value() {
                Ok(Some(value))
            } else {
                Err(Refusal::Rule)
            }
        }
    }
}

// The parameters, which are the first locals.
fn declare_parameters<'a>(
    environment: &Environment<'a>,
    parameters: &'a [Parameter],
    locals: &mut Locals<'a>,
) -> Result<(), Refusal>
    ensures { Yields (λ _. locals.new) result (typed_parameters (environment_of environment.now) locals.old parameters.now) }
{
    for i in 0..parameters.len() {
        let parameter = &parameters[i];
        let Some(name) = &parameter.name else {
            return Err(Refusal::Rule);
        };
        locals.declare(environment, 0, name, CType::of(&parameter.value))?;
    }
    Ok(())
}

// The type of the values that it gives.
fn value_type<'a>(environment: &Environment<'a>, returns: Option<CType<'a>>) -> Option<ValueType>
    ensures { result ≡ option_map (types.value_type (environment_of environment.now)) (option_map type_of returns.entry) }
{
    match returns {
        Some(value) => Some(environment.value_type(value)),
        None => None,
    }
}

// The function, or why there is none.
fn procedure<'a>(
    alloc: Global,
    environment: &Environment<'a>,
    proc: ProcId,
    site: Site,
    returns: &'a ResultType,
    parameters: &'a [Parameter],
    body: &'a [Statement],
) -> Result<Procedure, Refusal>
    ensures { Yields procedure_tree result (rules.typed_function (environment_of environment.now) proc site returns.now parameters.now (map statement_tree body.now)) }
{
    let returns = result_type(returns)?;
    let mut locals = Locals::new(alloc);
    declare_parameters(environment, parameters, &mut locals)?;
    let parameters = locals.take_types(alloc);
    let position = Position {
        returns,
        in_loop: false,
        outer: 0,
    };
    let statements = statements(alloc, environment, position, body, &mut locals)?;
    Ok(Procedure {
        proc,
        site,
        parameters: Items::from_vec(parameters),
        result: value_type(environment, returns),
        body: TypedBody {
            locals: Items::from_vec(locals.take_types(alloc)),
            statement: TypedStatement::Block { statements },
        },
    })
}

/// The function as the typing rules type it, or none where one of the rules fails.
pub fn typed_function<'a>(
    alloc: Global,
    environment: &Environment<'a>,
    proc: ProcId,
    site: Site,
    returns: &'a ResultType,
    parameters: &'a [Parameter],
    body: &'a [Statement],
) -> Result<Option<Procedure>, NoMemory>
    ensures { IfOk result (λ p. option_map procedure_tree p ≡ rules.typed_function (environment_of environment.now) proc site returns.now parameters.now (map statement_tree body.now)) }
{
    match procedure(alloc, environment, proc, site, returns, parameters, body) {
        Ok(procedure) => Ok(Some(procedure)),
        Err(Refusal::Rule) => Ok(None),
        Err(Refusal::NoMemory) => Err(NoMemory),
    }
}

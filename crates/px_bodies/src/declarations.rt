ghost use Rattle.std.specs.Prelude.{◌≡◌, ◌++◌, ◌∷◌, [], map, option_map, OnOk};
ghost use Rattle.px_syntax.specs.ExpressionTree.{expression_tree};
ghost use Rattle.px_syntax.specs.StatementTree.{init_tree};
ghost use Rattle.px_syntax.specs.TypedViews.{typed_statement, typed_expression};
ghost use Rattle.px_bodies.specs.Environment.{environment_of};
ghost use Rattle.px_bodies.specs.Lent.{type_of};
ghost use Rattle.px_bodies.specs.Statements as rules;
ghost use Rattle.px_bodies.specs.Outcomes.{Yields};

use crate::expressions::value;
use crate::locals::Locals;
use crate::refusal::Refusal;
use crate::{CType, Environment};
use px_syntax::{Base, Declaration, Expression, InitDeclarator, TypedExpression, TypedStatement};
use px_terms::NoMemory;
use std::alloc::Global;

// One more statement.
pub fn put(all: &mut Vec<TypedStatement>, statement: TypedStatement) -> Result<(), NoMemory>
    ensures { OnOk result (map typed_statement all.new.items ≡ map typed_statement all.old.items ++ typed_statement statement ∷ []) }
{
    all.push(statement)?;
    Ok(())
}

// The value that a local of a type begins with.
fn initialiser<'a>(
    alloc: Global,
    environment: &Environment<'a>,
    locals: &Locals<'a>,
    wanted: CType<'a>,
    expression: &'a Option<Expression>,
) -> Result<Option<Box<TypedExpression>>, Refusal>
    ensures { Yields (option_map (λ b. typed_expression b.value)) result (rules.typed_initialiser (environment_of environment.now) locals.now.visible (type_of wanted.entry) (option_map expression_tree expression.now)) }
{
    match expression {
        Some(expression) => Ok(Some(value(alloc, environment, locals, expression, wanted)?)),
        None => Ok(None),
    }
}

// A declared name and the value that it begins with.
fn declarator<'a>(
    alloc: Global,
    environment: &Environment<'a>,
    locals: &mut Locals<'a>,
    outer: usize,
    base: &'a Base,
    declared: &'a InitDeclarator,
) -> Result<TypedStatement, Refusal>
    ensures { Yields (λ s. record { tree = typed_statement s; after = locals.new }) result (rules.typed_declarator (environment_of environment.now) outer locals.old base.now (init_tree declared.now)) }
{
    let own = CType::new(base, declared.declarator.stars);
    let local = locals.next();
    locals.declare(environment, outer, &declared.declarator.name, own)?;
    let value = initialiser(alloc, environment, locals, own, &declared.value)?;
    Ok(TypedStatement::Declare { local, value })
}

// The declarators of one declaration.
pub fn declaration<'a>(
    alloc: Global,
    environment: &Environment<'a>,
    locals: &mut Locals<'a>,
    outer: usize,
    declared: &'a Declaration,
) -> Result<Vec<TypedStatement>, Refusal>
    ensures { Yields (λ ss. record { trees = map typed_statement ss.items; after = locals.new }) result (rules.typed_declarators (environment_of environment.now) outer locals.old declared.now.base (map init_tree declared.now.declarators)) }
{
    let declarators = declared.declarators.as_slice();
    let mut all = Vec::with_capacity(alloc, declarators.len())?;
    for i in 0..declarators.len() {
        let statement = declarator(
            alloc,
            environment,
            locals,
            outer,
            &declared.base,
            &declarators[i],
        )?;
        put(&mut all, statement)?;
    }
    Ok(all)
}

ghost use Rattle.std.specs.Prelude.{◌≡◌, ◌++◌, List, map, option_map};
ghost use Rattle.px_syntax.specs.TypedTree.{expressions_of, arguments_of, statements_of};
ghost use Rattle.px_syntax.specs.TypedTree as tree;
ghost use Rattle.px_syntax.specs.TypedViews.{typed_expression, typed_argument, typed_condition, typed_place, typed_statement, arithmetic_link, relation_link, calculated, compared, all_of, any_of};
ghost use Rattle.px_syntax.specs.TypedViews as views;
ghost use Rattle.px_meaning.specs.Values as value;
ghost use Rattle.px_replay.specs.Interpreted.{calls_of, types_in, ended, ends_turn, given, given_these};
ghost use Rattle.px_replay.specs.Locals.{locals_map};
ghost use Rattle.px_replay.specs.Script.{plain_script, UnlessMemory};
ghost use Rattle.px_replay.specs.TreeReplay.{Replays, ReplaysAll, PassesAll, Checks, checks_if, declares, assigns, updates, accesses, gives_back, calls_procedure, loops, ReplaysStatement, ReplaysStatements};

use crate::callees::Callees;
use crate::flow::Flow;
use crate::locals::Locals;
use crate::operators::{calculated, negated, truth, used};
use crate::pointers::{compare, free, load, reach, store};
use crate::script::Script;
use crate::stop::Stop;
use px_base::{MarkKind, ProcId, Site};
use px_syntax::{
    Argument, Arithmetic, ArithmeticLink, CellLink, Condition, Place, Relation, RelationLink,
    TypedExpression, TypedStatement,
};
use px_terms::Value;
use std::alloc::Global;

// The value of an expression.
#[cycle(replay)]
#[tactic(auto, using(px_syntax::proofs::TypedEquations::typed_trees))]
fn expression(
    alloc: Global,
    callees: &Callees,
    e: &TypedExpression,
    locals: &Locals,
    script: &mut Script,
) -> Result<Value, Stop>
    ensures { UnlessMemory result (Replays (types_in callees.now) (calls_of callees.now) (typed_expression e.now) (locals_map locals.now) (plain_script script.old) result (plain_script script.new)) }
{
    match e {
        TypedExpression::Constant { value } => Ok(Value::Word(*value)),
        TypedExpression::Null => Ok(Value::Null),
        TypedExpression::Local { local, site } => used(locals.get(*local), *site),
        TypedExpression::Negate { operand } => {
            negated(expression(alloc, callees, operand, locals, script)?)
        }
        TypedExpression::Arithmetic {
            first,
            before,
            operator,
            right,
        } => {
            let x = calculations(alloc, callees, first, before, locals, script)?;
            let y = expression(alloc, callees, right, locals, script)?;
            calculated(*operator, x, y)
        }
        TypedExpression::Truth { condition: c } => {
            Ok(truth(condition(alloc, callees, c, locals, script)?))
        }
        TypedExpression::Cell {
            pointer,
            before,
            field,
            block,
            site,
        } => {
            let (field, block, site) = (*field, *block, *site);
            let at = cells(alloc, callees, pointer, before, locals, script)?;
            load(script, at, CellLink { field, block, site })
        }
        TypedExpression::Allocate { block, site } => {
            script.allocate(alloc, callees.program.types.as_slice(), *block, *site)
        }
        TypedExpression::GetChar { site } => script.input(*site),
        TypedExpression::Call {
            proc,
            arguments: es,
            result: _,
            site,
        } => {
            let values = arguments(alloc, callees, es, locals, script)?;
            let value = call(alloc, callees, *proc, *site, values, script)?;
            used(value, *site)
        }
        TypedExpression::Stop { parts, .. } => {
            effects(alloc, callees, parts, locals, script)?;
            Err(Stop::Departs)
        }
    }
}

// Expressions in order, whose values aren't read.
#[cycle(replay)]
fn effects(
    alloc: Global,
    callees: &Callees,
    es: &[TypedExpression],
    locals: &Locals,
    script: &mut Script,
) -> Result<(), Stop>
    ensures { UnlessMemory result (PassesAll (types_in callees.now) (calls_of callees.now) (expressions_of (map typed_expression es.now)) (locals_map locals.now) (plain_script script.old) result (plain_script script.new)) }
{
    for e in es {
        effect(alloc, callees, e, locals, script)?;
    }
    Ok(())
}

// An expression whose value isn't read.
#[cycle(replay)]
#[tactic(auto, using(px_syntax::proofs::TypedEquations::typed_trees))]
fn effect(
    alloc: Global,
    callees: &Callees,
    e: &TypedExpression,
    locals: &Locals,
    script: &mut Script,
) -> Result<(), Stop>
    ensures { UnlessMemory result (PassesAll (types_in callees.now) (calls_of callees.now) (tree.an_expression (typed_expression e.now) tree.no_expressions) (locals_map locals.now) (plain_script script.old) result (plain_script script.new)) }
{
    match e {
        TypedExpression::Local { .. } => Ok(()),
        TypedExpression::Cell {
            pointer,
            before,
            field: _,
            block,
            site,
        } => {
            let (block, site) = (*block, *site);
            let at = cells(alloc, callees, pointer, before, locals, script)?;
            reach(script, at, block, site)
        }
        TypedExpression::Call {
            proc,
            arguments: es,
            result: _,
            site,
        } => {
            let values = arguments(alloc, callees, es, locals, script)?;
            call(alloc, callees, *proc, *site, values, script)?;
            Ok(())
        }
        _ => {
            expression(alloc, callees, e, locals, script)?;
            Ok(())
        }
    }
}

// What is to the left of an operator: a first operand, and the links of a chain after it.
#[cycle(replay)]
fn calculations(
    alloc: Global,
    callees: &Callees,
    first: &TypedExpression,
    links: &[ArithmeticLink],
    locals: &Locals,
    script: &mut Script,
) -> Result<Value, Stop>
    ensures { UnlessMemory result (Replays (types_in callees.now) (calls_of callees.now) (calculated (typed_expression first.now) (map arithmetic_link links.now)) (locals_map locals.now) (plain_script script.old) result (plain_script script.new)) }
{
    let mut x = expression(alloc, callees, first, locals, script)?;
    for link in links {
        let y = expression(alloc, callees, &link.operand, locals, script)?;
        x = calculated(link.operator, x, y)?;
    }
    Ok(x)
}

// What is to the left of a `*` or `->`: a pointer, and the cells of a chain after it.
#[cycle(replay)]
fn cells(
    alloc: Global,
    callees: &Callees,
    pointer: &TypedExpression,
    links: &[CellLink],
    locals: &Locals,
    script: &mut Script,
) -> Result<Value, Stop>
    ensures { UnlessMemory result (Replays (types_in callees.now) (calls_of callees.now) (views.cells (typed_expression pointer.now) links.now) (locals_map locals.now) (plain_script script.old) result (plain_script script.new)) }
{
    let mut at = expression(alloc, callees, pointer, locals, script)?;
    for link in links {
        at = load(script, at, *link)?;
    }
    Ok(at)
}

// The values of the arguments that are passed, in order.
#[cycle(replay)]
fn arguments(
    alloc: Global,
    callees: &Callees,
    es: &[Argument],
    locals: &Locals,
    script: &mut Script,
) -> Result<Vec<Value>, Stop>
    ensures { UnlessMemory result (ReplaysAll (types_in callees.now) (calls_of callees.now) (arguments_of (map typed_argument es.now)) (locals_map locals.now) (plain_script script.old) (given result) (plain_script script.new)) }
{
    let mut values = Vec::with_capacity(alloc, es.len())?;
    for e in es {
        argument(alloc, callees, e, locals, &mut values, script)?;
    }
    Ok(values)
}

// An argument. Its value, where it is passed, stands behind those that are there.
#[cycle(replay)]
#[tactic(auto, using(px_syntax::proofs::TypedEquations::typed_trees))]
fn argument(
    alloc: Global,
    callees: &Callees,
    e: &Argument,
    locals: &Locals,
    values: &mut Vec<Value>,
    script: &mut Script,
) -> Result<(), Stop>
    ensures { UnlessMemory result ((more : List value.Value) × (values.new.items ≡ values.old.items ++ more) × ReplaysAll (types_in callees.now) (calls_of callees.now) (tree.an_argument (typed_argument e.now) tree.no_arguments) (locals_map locals.now) (plain_script script.old) (given_these more result) (plain_script script.new)) }
{
    match e {
        Argument::Passed { value } => {
            let given = expression(alloc, callees, value, locals, script)?;
            values.push(given)?;
            Ok(())
        }
        Argument::Erased { parts } => effects(alloc, callees, parts, locals, script),
    }
}

// Whether a condition is true.
#[cycle(replay)]
#[tactic(auto, using(px_syntax::proofs::TypedEquations::typed_trees))]
fn condition(
    alloc: Global,
    callees: &Callees,
    c: &Condition,
    locals: &Locals,
    script: &mut Script,
) -> Result<bool, Stop>
    ensures { UnlessMemory result (Checks (types_in callees.now) (calls_of callees.now) (typed_condition c.now) (locals_map locals.now) (plain_script script.old) result (plain_script script.new)) }
{
    match c {
        Condition::Compare {
            first,
            before,
            relation,
            right,
            site,
        } => {
            let x = comparisons(alloc, callees, first, before, locals, script)?;
            let y = expression(alloc, callees, right, locals, script)?;
            compare(script, *relation, x, y, *site)
        }
        Condition::Word { operand, site } => {
            let x = expression(alloc, callees, operand, locals, script)?;
            compare(script, Relation::Unequal, x, Value::Word(0), *site)
        }
        Condition::Pointer { operand, site } => {
            let x = expression(alloc, callees, operand, locals, script)?;
            compare(script, Relation::OtherPlace, x, Value::Null, *site)
        }
        Condition::And {
            first,
            before,
            right,
        } => {
            if conjunction(alloc, callees, first, before, locals, script)? {
                condition(alloc, callees, right, locals, script)
            } else {
                Ok(false)
            }
        }
        Condition::Or {
            first,
            before,
            right,
        } => {
            if disjunction(alloc, callees, first, before, locals, script)? {
                Ok(true)
            } else {
                condition(alloc, callees, right, locals, script)
            }
        }
        Condition::Not { condition: c } => Ok(!condition(alloc, callees, c, locals, script)?),
    }
}

// What is to the left of a comparison: a first operand, and the links of a chain after it. The next compares
// 1 or 0, by the outcome of the one before it.
#[cycle(replay)]
fn comparisons(
    alloc: Global,
    callees: &Callees,
    first: &TypedExpression,
    links: &[RelationLink],
    locals: &Locals,
    script: &mut Script,
) -> Result<Value, Stop>
    ensures { UnlessMemory result (Replays (types_in callees.now) (calls_of callees.now) (compared (typed_expression first.now) (map relation_link links.now)) (locals_map locals.now) (plain_script script.old) result (plain_script script.new)) }
{
    let mut x = expression(alloc, callees, first, locals, script)?;
    for link in links {
        let y = expression(alloc, callees, &link.operand, locals, script)?;
        x = truth(compare(script, link.relation, x, y, link.site)?);
    }
    Ok(x)
}

// What is to the left of the last `&&`.
#[cycle(replay)]
fn conjunction(
    alloc: Global,
    callees: &Callees,
    first: &Condition,
    links: &[Condition],
    locals: &Locals,
    script: &mut Script,
) -> Result<bool, Stop>
    ensures { UnlessMemory result (Checks (types_in callees.now) (calls_of callees.now) (all_of (typed_condition first.now) (map typed_condition links.now)) (locals_map locals.now) (plain_script script.old) result (plain_script script.new)) }
{
    let mut holds = condition(alloc, callees, first, locals, script)?;
    for c in links {
        if !holds {
            return Ok(false);
        }
        holds = condition(alloc, callees, c, locals, script)?;
    }
    Ok(holds)
}

// What is to the left of the last `||`.
#[cycle(replay)]
fn disjunction(
    alloc: Global,
    callees: &Callees,
    first: &Condition,
    links: &[Condition],
    locals: &Locals,
    script: &mut Script,
) -> Result<bool, Stop>
    ensures { UnlessMemory result (Checks (types_in callees.now) (calls_of callees.now) (any_of (typed_condition first.now) (map typed_condition links.now)) (locals_map locals.now) (plain_script script.old) result (plain_script script.new)) }
{
    let mut holds = condition(alloc, callees, first, locals, script)?;
    for c in links {
        if holds {
            return Ok(true);
        }
        holds = condition(alloc, callees, c, locals, script)?;
    }
    Ok(holds)
}

// A call, from its entry to its return.
#[cycle(replay)]
fn call(
    alloc: Global,
    callees: &Callees,
    proc: ProcId,
    site: Site,
    arguments: Vec<Value>,
    script: &mut Script,
) -> Result<Value, Stop>
    ensures { UnlessMemory result (calls_procedure (types_in callees.now) (calls_of callees.now) proc site arguments.items (plain_script script.old) result (plain_script script.new)) }
{
    script.mark(MarkKind::Enter(proc), site)?;
    let value = body(alloc, callees, proc, arguments, script)?;
    script.mark(MarkKind::Leave, site)?;
    Ok(value)
}

/// What a call does after its entry.
///
/// `NoMemory` also where calls nest deeper than was said: each takes a mark, so more than there are marks never do.
#[cycle(replay)]
pub fn body(
    alloc: Global,
    callees: &Callees,
    proc: ProcId,
    arguments: Vec<Value>,
    script: &mut Script,
) -> Result<Value, Stop>
    ensures { UnlessMemory result (calls_of callees.now proc.0 arguments.items (plain_script script.old) result (plain_script script.new)) }
{
    if callees.depth == 0 {
        return Err(Stop::NoMemory);
    }
    let procedure = match callees.program.procedures.get(proc.0 as usize) {
        Some(procedure) => procedure,
        None => return Err(Stop::Departs),
    };
    let within = Callees {
        program: callees.program,
        depth: callees.depth - 1,
    };
    let mut locals = Locals::new(alloc, arguments);
    match statement(
        alloc,
        &within,
        &procedure.body.statement,
        &mut locals,
        script,
    )? {
        Flow::Falls => Ok(Value::Unwritten),
        Flow::Returns(value) => Ok(value),
        Flow::Breaks => Err(Stop::Departs),
        Flow::Continues => Err(Stop::Departs),
    }
}

// A statement, and how it ends.
#[cycle(replay)]
#[tactic(auto, using(px_syntax::proofs::TypedEquations::typed_trees))]
fn statement(
    alloc: Global,
    callees: &Callees,
    s: &TypedStatement,
    locals: &mut Locals,
    script: &mut Script,
) -> Result<Flow, Stop>
    ensures { UnlessMemory result (ReplaysStatement (types_in callees.now) (calls_of callees.now) callees.now.depth (typed_statement s.now) (locals_map locals.old) (plain_script script.old) (ended result (locals_map locals.new)) (plain_script script.new)) }
{
    match s {
        TypedStatement::Block { statements: all } => {
            statements(alloc, callees, all, locals, script)
        }
        TypedStatement::Declare { local, value } => {
            declaration(alloc, callees, *local, value, locals, script)
        }
        TypedStatement::Assign { place, value } => {
            assignment(alloc, callees, place, value, locals, script)
        }
        TypedStatement::Update {
            operator,
            place,
            value,
        } => update(alloc, callees, *operator, place, value, locals, script),
        TypedStatement::Call {
            proc,
            arguments: es,
            site,
        } => {
            let values = arguments(alloc, callees, es, locals, script)?;
            call(alloc, callees, *proc, *site, values, script)?;
            Ok(Flow::Falls)
        }
        TypedStatement::Free {
            pointer,
            block,
            site,
        } => {
            let at = expression(alloc, callees, pointer, locals, script)?;
            free(script, at, *block, *site)?;
            Ok(Flow::Falls)
        }
        TypedStatement::GetChar { site } => {
            script.input(*site)?;
            Ok(Flow::Falls)
        }
        TypedStatement::If {
            condition: c,
            then,
            other,
        } => {
            if condition(alloc, callees, c, locals, script)? {
                statement(alloc, callees, then, locals, script)
            } else {
                statement(alloc, callees, other, locals, script)
            }
        }
        TypedStatement::Loop {
            site,
            condition: c,
            body: inner,
            step,
        } => turns(alloc, callees, *site, c, inner, step, locals, script),
        TypedStatement::Break => Ok(Flow::Breaks),
        TypedStatement::Continue => Ok(Flow::Continues),
        TypedStatement::Return { value } => give_back(alloc, callees, value, locals, script),
        TypedStatement::Evaluate { value } => {
            effect(alloc, callees, value, locals, script)?;
            Ok(Flow::Falls)
        }
        TypedStatement::Access {
            pointer,
            parts,
            cell,
        } => access(alloc, callees, pointer, parts, *cell, locals, script),
    }
}

// Statements one after another, up to one that doesn't fall through.
#[cycle(replay)]
fn statements(
    alloc: Global,
    callees: &Callees,
    all: &[TypedStatement],
    locals: &mut Locals,
    script: &mut Script,
) -> Result<Flow, Stop>
    ensures { UnlessMemory result (ReplaysStatements (types_in callees.now) (calls_of callees.now) callees.now.depth (statements_of (map typed_statement all.now)) (locals_map locals.old) (plain_script script.old) (ended result (locals_map locals.new)) (plain_script script.new)) }
{
    for s in all {
        match statement(alloc, callees, s, locals, script)? {
            Flow::Falls => {}
            other => return Ok(other),
        }
    }
    Ok(Flow::Falls)
}

// The declaration of a local.
#[cycle(replay)]
fn declaration(
    alloc: Global,
    callees: &Callees,
    local: u32,
    value: &Option<Box<TypedExpression>>,
    locals: &mut Locals,
    script: &mut Script,
) -> Result<Flow, Stop>
    ensures { UnlessMemory result (declares (types_in callees.now) (calls_of callees.now) local (option_map (λ b. typed_expression b.value) value.now) (locals_map locals.old) (plain_script script.old) (ended result (locals_map locals.new)) (plain_script script.new)) }
{
    locals.set(local, Value::Unwritten)?;
    if let Some(e) = value {
        let value = expression(alloc, callees, e, locals, script)?;
        locals.set(local, value)?;
    }
    Ok(Flow::Falls)
}

// An assignment: the pointer of its place comes first, and the store last.
#[cycle(replay)]
fn assignment(
    alloc: Global,
    callees: &Callees,
    place: &Place,
    e: &TypedExpression,
    locals: &mut Locals,
    script: &mut Script,
) -> Result<Flow, Stop>
    ensures { UnlessMemory result (assigns (types_in callees.now) (calls_of callees.now) (typed_place place.now) (typed_expression e.now) (locals_map locals.old) (plain_script script.old) (ended result (locals_map locals.new)) (plain_script script.new)) }
{
    match place {
        Place::Local { local, site: _ } => {
            let value = expression(alloc, callees, e, locals, script)?;
            locals.set(*local, value)?;
        }
        Place::Cell {
            site,
            field,
            block,
            pointer,
        } => {
            let (field, block, site) = (*field, *block, *site);
            let at = expression(alloc, callees, pointer, locals, script)?;
            let value = expression(alloc, callees, e, locals, script)?;
            store(alloc, script, at, CellLink { field, block, site }, value)?;
        }
    }
    Ok(Flow::Falls)
}

// An update: pointer, read, right side, store.
#[cycle(replay)]
fn update(
    alloc: Global,
    callees: &Callees,
    operator: Arithmetic,
    place: &Place,
    e: &TypedExpression,
    locals: &mut Locals,
    script: &mut Script,
) -> Result<Flow, Stop>
    ensures { UnlessMemory result (updates (types_in callees.now) (calls_of callees.now) operator (typed_place place.now) (typed_expression e.now) (locals_map locals.old) (plain_script script.old) (ended result (locals_map locals.new)) (plain_script script.new)) }
{
    match place {
        Place::Local { local, site } => {
            let x = used(locals.get(*local), *site)?;
            let y = expression(alloc, callees, e, locals, script)?;
            locals.set(*local, calculated(operator, x, y)?)?;
        }
        Place::Cell {
            site,
            field,
            block,
            pointer,
        } => {
            let (field, block, site) = (*field, *block, *site);
            let cell = CellLink { field, block, site };
            let at = expression(alloc, callees, pointer, locals, script)?;
            let x = load(script, at, cell)?;
            let y = expression(alloc, callees, e, locals, script)?;
            store(alloc, script, at, cell, calculated(operator, x, y)?)?;
        }
    }
    Ok(Flow::Falls)
}

// An assignment to a member that isn't known: pointer, the parts of the value, access.
#[cycle(replay)]
fn access(
    alloc: Global,
    callees: &Callees,
    pointer: &TypedExpression,
    parts: &[TypedExpression],
    cell: CellLink,
    locals: &Locals,
    script: &mut Script,
) -> Result<Flow, Stop>
    ensures { UnlessMemory result (accesses (types_in callees.now) (calls_of callees.now) (typed_expression pointer.now) (expressions_of (map typed_expression parts.now)) cell.block cell.site (locals_map locals.now) (plain_script script.old) (ended result (locals_map locals.now)) (plain_script script.new)) }
{
    let at = expression(alloc, callees, pointer, locals, script)?;
    effects(alloc, callees, parts, locals, script)?;
    reach(script, at, cell.block, cell.site)?;
    Ok(Flow::Falls)
}

// A `return`, with its value if it has one.
#[cycle(replay)]
fn give_back(
    alloc: Global,
    callees: &Callees,
    value: &Option<Box<TypedExpression>>,
    locals: &Locals,
    script: &mut Script,
) -> Result<Flow, Stop>
    ensures { UnlessMemory result (gives_back (types_in callees.now) (calls_of callees.now) (option_map (λ b. typed_expression b.value) value.now) (locals_map locals.now) (plain_script script.old) (ended result (locals_map locals.now)) (plain_script script.new)) }
{
    match value {
        None => Ok(Flow::Returns(Value::Unwritten)),
        Some(e) => Ok(Flow::Returns(expression(alloc, callees, e, locals, script)?)),
    }
}

// A loop, from its next test on.
#[cycle(replay)]
fn turns(
    alloc: Global,
    callees: &Callees,
    site: Site,
    c: &Option<Box<Condition>>,
    inner: &TypedStatement,
    step: &TypedStatement,
    locals: &mut Locals,
    script: &mut Script,
) -> Result<Flow, Stop>
    ensures { UnlessMemory result (loops (types_in callees.now) (calls_of callees.now) callees.now.depth site (option_map (λ b. typed_condition b.value) c.now) (ReplaysStatement (types_in callees.now) (calls_of callees.now) callees.now.depth (typed_statement inner.now)) (ReplaysStatement (types_in callees.now) (calls_of callees.now) callees.now.depth (typed_statement step.now)) (locals_map locals.old) (plain_script script.old) (ended result (locals_map locals.new)) (plain_script script.new)) }
{
    for _ in 0..callees.depth {
        if !goes_on(alloc, callees, c, locals, script)? {
            script.mark(MarkKind::Done, site)?;
            return Ok(Flow::Falls);
        }
        script.mark(MarkKind::Iter, site)?;
        if let Some(end) = end_of_turn(statement(alloc, callees, inner, locals, script)?) {
            return Ok(end);
        }
        match statement(alloc, callees, step, locals, script)? {
            Flow::Falls => {}
            other => return Ok(other),
        }
    }
    Err(Stop::NoMemory)
}

// How a loop ends after its body, if it does: the step follows where that falls through or continues.
fn end_of_turn(flow: Flow) -> Option<Flow>
    ensures { result ≡ ends_turn flow }
{
    match flow {
        Flow::Falls => None,
        Flow::Continues => None,
        Flow::Breaks => Some(Flow::Falls),
        Flow::Returns(value) => Some(Flow::Returns(value)),
    }
}

// The test of a loop: a missing one is true.
#[cycle(replay)]
fn goes_on(
    alloc: Global,
    callees: &Callees,
    c: &Option<Box<Condition>>,
    locals: &Locals,
    script: &mut Script,
) -> Result<bool, Stop>
    ensures { UnlessMemory result (checks_if (types_in callees.now) (calls_of callees.now) (option_map (λ b. typed_condition b.value) c.now) (locals_map locals.now) (plain_script script.old) result (plain_script script.new)) }
{
    match c {
        None => Ok(true),
        Some(c) => condition(alloc, callees, c, locals, script),
    }
}

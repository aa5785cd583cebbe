ghost use Rattle.std.specs.Prelude.{◌≡◌, ◌++◌, List, [], map, codes, None, IfOk};
ghost use Rattle.px_expressions.specs.Reading.{or_else};
ghost use Rattle.px_expressions.specs.Terminals.{is_in};
ghost use Rattle.px_real_expressions.specs.Lexemes.{Lexeme};
ghost use Rattle.px_real_symbols.specs.Symbols.{held_in};
ghost use Rattle.px_real_values.specs.Environment.{spelled};
ghost use Rattle.px_real_values.specs.Operators.{valued_binary, stopped_at, step_text, arrowed, cast_as};
ghost use Rattle.px_real_expressions.specs.ExpressionTree.{ExpressionTree, expressions_of};
ghost use Rattle.px_real_reading.specs.Trees.{expression_tree, suffix_tree, link_tree, chained, all_suffixed, suffixed};
ghost use Rattle.px_syntax.specs.TypedViews.{typed_expression};
ghost use Rattle.px_real_values.specs.Values as Rules;
ghost use Rattle.px_real_values.specs.Operands as Operands;
ghost use Rattle.px_real_values.specs.Calls as Calls;
ghost use Rattle.px_real_values.specs.Views.{operand_seen, given_seen};

use crate::calls::{Given, call_of, put_given, stopped_call};
use crate::casts::cast_as;
use crate::environment::{Callee, Environment, Meaning};
use crate::members::{arrowed, dotted, indirected, object_of};
use crate::operand::{Operand, Turn, counted, put_all};
use crate::operators::{binary, outside_of, prefixed, stopped_at};
use crate::types::{block_in, element, number_of, unknown};
use crate::words::{assignment_text, measure_text, step_text};
use px_base::Site;
use px_real_expressions::{Measure, Operator, Step};
use px_real_reading::{Expression, Link, Suffix};
use px_real_symbols::Span;
use px_real_types::{Known, ProfileType};
use px_syntax::{Name, TypedExpression};
use px_terms::NoMemory;
use std::alloc::Global;

// The first token of an expression.
#[cycle(first_site)]
#[tactic(auto, using(px_real_reading::proofs::TreeEquations::trees, crate::proofs::SiteLemmas::chains))]
pub fn first_site(expression: &Expression) -> Site
    ensures { (all : List Lexeme) → result ≡ Rules.first_site (expression_tree all expression.now) }
{
    match expression {
        Expression::Name { site, .. }
        | Expression::Constant { site, .. }
        | Expression::String { site }
        | Expression::Parenthesised { site, .. }
        | Expression::Statement { site, .. }
        | Expression::Literal { site, .. }
        | Expression::Form { site, .. }
        | Expression::Prefixed { site, .. }
        | Expression::Label { site, .. }
        | Expression::Measure { site, .. }
        | Expression::MeasureType { site, .. }
        | Expression::Cast { site, .. } => *site,
        Expression::Postfix { first, .. } | Expression::Binary { first, .. } => first_site(first),
        Expression::Choice { condition, .. } | Expression::ChoiceOr { condition, .. } => {
            first_site(condition)
        }
        Expression::Assign { left, .. } => first_site(left),
    }
}

/// Whether it is the constant 0, in parentheses or not.
#[cycle(is_zero)]
#[tactic(auto, using(px_real_reading::proofs::TreeEquations::trees, crate::proofs::SiteLemmas::chains))]
pub fn is_zero(expression: &Expression) -> bool
    ensures { (all : List Lexeme) → result ≡ Rules.is_zero (expression_tree all expression.now) }
{
    match expression {
        Expression::Constant { value, .. } => *value == Some(0),
        Expression::Parenthesised { inner, .. } => is_zero(inner),
        _ => false,
    }
}

// The block of a type whose size is taken.
fn block_of_type<E: Environment>(environment: &E, known: Known) -> Option<ProfileType>
    ensures { result ≡ Rules.block_of_type (E.sees environment.now) known }
{
    let block = block_in(known)?;
    match number_of(block) {
        Some(number) => {
            if environment.is_defined(number) {
                Some(block)
            } else {
                None
            }
        }
        None => Some(block),
    }
}

// The same of what may be no size.
fn block_if<E: Environment>(environment: &E, known: Option<Known>) -> Option<ProfileType>
    ensures { result ≡ or_else known (Rules.block_of_type (E.sees environment.now)) None }
{
    match known {
        Some(known) => block_of_type(environment, known),
        None => None,
    }
}

// A number that is written, or counted.
fn numbered<'a, E: Environment>(
    alloc: Global,
    environment: &E,
    text: &[u8],
    site: Site,
    value: Option<u32>,
) -> Operand<'a>
    ensures { operand_seen result ≡ Rules.numbered (E.sees environment.now) text.now site value }
{
    match value {
        Some(value) => counted(alloc, value, environment.word_number(text), site),
        None => outside_of(environment, text, site, Vec::new(alloc)),
    }
}

// A name that isn't declared.
fn undeclared<'a, E: Environment>(environment: &E, name: &[u8], site: Site) -> Operand<'a>
    ensures { operand_seen result ≡ Rules.undeclared_name (E.sees environment.now) name.now site }
{
    let word = environment.word_number(name);
    if name == b"NULL".as_slice() {
        return Operand::Null { word, site };
    }
    Operand::Named {
        callee: Callee::NoFunction,
        known: unknown(),
        word,
        site,
    }
}

// A name.
fn meant<'a, E: Environment>(
    alloc: Global,
    environment: &'a E,
    name: &Name,
    site: Site,
) -> Operand<'a>
    ensures { operand_seen result ≡ Rules.meant (E.sees environment.entry.now) name.now site ((E.sees environment.entry.now).meaning name.now) }
{
    match environment.meaning(name.as_slice()) {
        Meaning::Local { number, kind } => Operand::OfType {
            kind,
            site,
            value: TypedExpression::Local {
                local: number,
                site,
            },
        },
        Meaning::Enumerator { value } => {
            numbered(alloc, environment, b"enum".as_slice(), site, value)
        }
        Meaning::Other {
            callee,
            known,
            word,
        } => Operand::Named {
            callee,
            known,
            word,
            site,
        },
        Meaning::Undeclared => undeclared(environment, name.as_slice(), site),
    }
}

// Whether a built-in form evaluates nothing and has a value.
fn is_valued_form(word: &[u8]) -> bool
    ensures { result ≡ is_in Rules.valued_forms word.now }
{
    word == b"__builtin_offsetof".as_slice() || word == b"__builtin_types_compatible_p".as_slice()
}

// A built-in form.
fn formed<'a, E: Environment>(
    alloc: Global,
    environment: &E,
    word: &[u8],
    site: Site,
) -> Operand<'a>
    ensures { operand_seen result ≡ Rules.formed (E.sees environment.now) word.now site }
{
    if is_valued_form(word) {
        outside_of(environment, word, site, Vec::new(alloc))
    } else {
        stopped_at(environment, word, site, Vec::new(alloc))
    }
}

// `a[i]`, where `a` is no `Stop`, and these are the parts of the index.
fn indexed<'a, E: Environment>(
    alloc: Global,
    environment: &E,
    is_first: bool,
    site: Site,
    index: Vec<TypedExpression>,
    array: Operand<'a>,
) -> Result<Operand<'a>, NoMemory>
    ensures { IfOk result (λ a. operand_seen a ≡ Rules.indexed (E.sees environment.now) is_first site (map typed_expression index.items) (operand_seen array.entry)) }
{
    let text = b"[".as_slice();
    if is_first {
        return indirected(alloc, environment, text, site, array);
    }
    let known = element(array.known());
    let mut parts = array.parts(alloc, environment)?;
    put_all(&mut parts, index)?;
    Ok(object_of(environment, known, text, site, parts))
}

// What stands in parentheses, or in braces behind a type's name, and isn't understood.
fn held<'a, E: Environment>(alloc: Global, environment: &E, site: Site) -> Operand<'a>
    ensures { operand_seen result ≡ stopped_at (E.sees environment.now) (codes "(") site [] }
{
    stopped_at(environment, b"(".as_slice(), site, Vec::new(alloc))
}

// A choice, whose condition is no `Stop`.
fn chosen<'a, E: Environment>(
    alloc: Global,
    environment: &E,
    site: Site,
    condition: Operand<'a>,
) -> Result<Operand<'a>, NoMemory>
    ensures { IfOk result (λ a. operand_seen a ≡ Operands.unless_stopped (operand_seen condition.entry) (λ x. stopped_at (E.sees environment.now) (codes "?") site (Operands.parts (E.sees environment.now) x))) }
{
    match condition.turn(alloc)? {
        Turn::Stops(stopped) => Ok(stopped),
        Turn::GoesOn(condition) => {
            let parts = condition.parts(alloc, environment)?;
            Ok(stopped_at(environment, b"?".as_slice(), site, parts))
        }
    }
}

/// What an expression is to the profile.
#[cycle(operand)]
#[tactic(auto, using(px_real_reading::proofs::TreeEquations::trees))]
pub fn evaluate<'a, E: Environment>(
    alloc: Global,
    environment: &'a E,
    expression: &Expression,
) -> Result<Operand<'a>, NoMemory>
    ensures { IfOk result (λ a. operand_seen a ≡ Rules.valued (E.sees environment.entry.now) (expression_tree (E.tokens environment.entry.now) expression.now)) }
{
    match expression {
        Expression::Name { name, site } => Ok(meant(alloc, environment, name, *site)),
        Expression::Constant { value, site } => Ok(numbered(
            alloc,
            environment,
            b"constant".as_slice(),
            *site,
            *value,
        )),
        Expression::String { site } => Ok(outside_of(
            environment,
            b"string".as_slice(),
            *site,
            Vec::new(alloc),
        )),
        Expression::Parenthesised { inner, .. } => evaluate(alloc, environment, inner),
        Expression::Statement { site, .. } | Expression::Literal { site, .. } => {
            Ok(held(alloc, environment, *site))
        }
        Expression::Form { word, site, .. } => {
            Ok(formed(alloc, environment, word.as_slice(), *site))
        }
        Expression::Postfix {
            first,
            before,
            last,
        } => {
            let start = evaluate(alloc, environment, first)?;
            let left = suffixes(alloc, environment, before, start)?;
            suffix(alloc, environment, last, left)
        }
        Expression::Prefixed {
            operator,
            site,
            operand: inner,
        } => {
            let inner = evaluate(alloc, environment, inner)?;
            prefixed(alloc, environment, *operator, *site, inner)
        }
        Expression::Label { site, .. } => Ok(outside_of(
            environment,
            b"&&".as_slice(),
            *site,
            Vec::new(alloc),
        )),
        Expression::Measure { measure, site, .. } | Expression::MeasureType { measure, site, .. } =>
            Ok(outside_of(environment, measure_text(*measure), *site, Vec::new(alloc))),
        Expression::Cast {
            site,
            type_name,
            operand: inner,
        } => {
            let inner = evaluate(alloc, environment, inner)?;
            cast(alloc, environment, *type_name, *site, inner)
        }
        Expression::Binary {
            first,
            before,
            operator,
            site,
            right,
        } => {
            let start = evaluate(alloc, environment, first)?;
            let left = links(alloc, environment, before, start)?;
            linked(alloc, environment, *operator, *site, right, left)
        }
        Expression::Choice {
            site,
            condition,
            ..
        }
        | Expression::ChoiceOr {
            site,
            condition,
            ..
        } => {
            let condition = evaluate(alloc, environment, condition)?;
            chosen(alloc, environment, *site, condition)
        }
        Expression::Assign {
            operator,
            site,
            left,
            ..
        } => {
            let left = evaluate(alloc, environment, left)?;
            let parts = left.pointer_parts(alloc, environment)?;
            Ok(stopped_at(environment, assignment_text(*operator), *site, parts))
        }
    }
}

// A cast to the type that these tokens spell.
fn cast<'a, E: Environment>(
    alloc: Global,
    environment: &E,
    type_name: Span,
    site: Site,
    inner: Operand<'a>,
) -> Result<Operand<'a>, NoMemory>
    ensures { IfOk result (λ a. operand_seen a ≡ Operands.unless_stopped (operand_seen inner.entry) (cast_as (E.sees environment.now) (spelled (E.sees environment.now) (held_in (E.tokens environment.now) type_name)) site)) }
{
    match inner.turn(alloc)? {
        Turn::Stops(stopped) => Ok(stopped),
        Turn::GoesOn(inner) => {
            let spelled = environment.spelled(alloc, type_name)?;
            cast_as(alloc, environment, spelled, site, inner)
        }
    }
}

// An operand with these suffixes after it.
#[cycle(operand)]
pub fn suffixes<'a, E: Environment>(
    alloc: Global,
    environment: &'a E,
    suffixes: &[Suffix],
    first: Operand<'a>,
) -> Result<Operand<'a>, NoMemory>
    ensures { (e : ExpressionTree) → operand_seen first.entry ≡ Rules.valued (E.sees environment.entry.now) e →
        IfOk result (λ a. operand_seen a ≡ Rules.valued (E.sees environment.entry.now) (all_suffixed e (map (suffix_tree (E.tokens environment.entry.now)) suffixes.now))) }
{
    let mut left = first;
    for i in 0..suffixes.len() {
        left = suffix(alloc, environment, &suffixes[i], left)?;
    }
    Ok(left)
}

// An operand with a suffix after it.
#[cycle(operand)]
#[tactic(auto, using(px_real_reading::proofs::TreeEquations::trees))]
pub fn suffix<'a, E: Environment>(
    alloc: Global,
    environment: &'a E,
    suffix: &Suffix,
    left: Operand<'a>,
) -> Result<Operand<'a>, NoMemory>
    ensures { (e : ExpressionTree) → operand_seen left.entry ≡ Rules.valued (E.sees environment.entry.now) e →
        IfOk result (λ a. operand_seen a ≡ Rules.valued (E.sees environment.entry.now) (suffixed e (suffix_tree (E.tokens environment.entry.now) suffix.now))) }
{
    match suffix {
        Suffix::Member { site, name } => dotted(alloc, environment, *site, name, left),
        Suffix::Step { step, site } => stepped(alloc, environment, *step, *site, left),
        Suffix::Index { site, index } => element_at(alloc, environment, *site, index, left),
        Suffix::Call { site, arguments } => call(alloc, environment, *site, arguments, left),
        Suffix::PointerMember { site, name } => {
            pointed_member(alloc, environment, *site, name, left)
        }
    }
}

// `p++` and `p--`.
fn stepped<'a, E: Environment>(
    alloc: Global,
    environment: &E,
    step: Step,
    site: Site,
    operand: Operand<'a>,
) -> Result<Operand<'a>, NoMemory>
    ensures { IfOk result (λ a. operand_seen a ≡ stopped_at (E.sees environment.now) (step_text step) site (Operands.pointer_parts (E.sees environment.now) (operand_seen operand.entry))) }
{
    let parts = operand.pointer_parts(alloc, environment)?;
    Ok(stopped_at(environment, step_text(step), site, parts))
}

// `p->m`, where `p` may be a `Stop`.
fn pointed_member<'a, E: Environment>(
    alloc: Global,
    environment: &E,
    site: Site,
    name: &Name,
    pointer: Operand<'a>,
) -> Result<Operand<'a>, NoMemory>
    ensures { IfOk result (λ a. operand_seen a ≡ Operands.unless_stopped (operand_seen pointer.entry) (arrowed (E.sees environment.now) site name.now)) }
{
    match pointer.turn(alloc)? {
        Turn::Stops(stopped) => Ok(stopped),
        Turn::GoesOn(pointer) => arrowed(alloc, environment, site, name, pointer),
    }
}

// `a[i]`, where `a` may be a `Stop`.
#[cycle(operand)]
fn element_at<'a, E: Environment>(
    alloc: Global,
    environment: &'a E,
    site: Site,
    index: &Expression,
    array: Operand<'a>,
) -> Result<Operand<'a>, NoMemory>
    ensures { IfOk result (λ a. operand_seen a ≡ Operands.unless_stopped (operand_seen array.entry) (Rules.indexed (E.sees environment.entry.now) (Rules.is_zero (expression_tree (E.tokens environment.entry.now) index.now)) site (Operands.parts (E.sees environment.entry.now) (Rules.valued (E.sees environment.entry.now) (expression_tree (E.tokens environment.entry.now) index.now))))) }
{
    match array.turn(alloc)? {
        Turn::Stops(stopped) => Ok(stopped),
        Turn::GoesOn(array) => {
            let value = evaluate(alloc, environment, index)?;
            let parts = value.parts(alloc, environment)?;
            indexed(alloc, environment, is_zero(index), site, parts, array)
        }
    }
}

// The arguments of a call, each with its first token.
#[cycle(operand)]
pub fn given<'a, E: Environment>(
    alloc: Global,
    environment: &'a E,
    arguments: &[Expression],
) -> Result<Vec<Given<'a>>, NoMemory>
    ensures { IfOk result (λ v. map given_seen v.items ≡ Rules.given (E.sees environment.entry.now) (expressions_of (map (expression_tree (E.tokens environment.entry.now)) arguments.now))) }
{
    let mut all = Vec::with_capacity(alloc, arguments.len())?;
    for i in 0..arguments.len() {
        let argument = &arguments[i];
        let operand = evaluate(alloc, environment, argument)?;
        let first = first_site(argument);
        put_given(&mut all, first, operand)?;
    }
    Ok(all)
}

// A call, at its parenthesis, of what may be a `Stop`.
#[cycle(operand)]
fn call<'a, E: Environment>(
    alloc: Global,
    environment: &'a E,
    site: Site,
    arguments: &[Expression],
    function: Operand<'a>,
) -> Result<Operand<'a>, NoMemory>
    ensures { IfOk result (λ a. operand_seen a ≡ Operands.unless_stopped (operand_seen function.entry) (Calls.call_of (E.sees environment.entry.now) site (Rules.block_of (E.sees environment.entry.now) (expressions_of (map (expression_tree (E.tokens environment.entry.now)) arguments.now))) (Rules.given (E.sees environment.entry.now) (expressions_of (map (expression_tree (E.tokens environment.entry.now)) arguments.now))))) }
{
    match function.turn(alloc)? {
        Turn::Stops(stopped) => Ok(stopped),
        Turn::GoesOn(function) => {
            let block = block_of(alloc, environment, arguments)?;
            let values = given(alloc, environment, arguments)?;
            call_of(alloc, environment, site, block, values, function)
        }
    }
}

// What is known of the type whose size an expression is.
#[cycle(operand)]
#[tactic(auto, using(px_real_reading::proofs::TreeEquations::trees, crate::proofs::SiteLemmas::chains))]
fn measured<'a, E: Environment>(
    alloc: Global,
    environment: &'a E,
    expression: &Expression,
) -> Result<Option<Known>, NoMemory>
    ensures { IfOk result (λ k. k ≡ Rules.measured (E.sees environment.entry.now) (expression_tree (E.tokens environment.entry.now) expression.now)) }
{
    match expression {
        Expression::Parenthesised { inner, .. } => measured(alloc, environment, inner),
        Expression::Measure {
            measure,
            operand: inner,
            ..
        } => match measure {
            Measure::Size => {
                let inner = evaluate(alloc, environment, inner)?;
                Ok(Some(inner.known()))
            }
            Measure::Alignment => Ok(None),
        },
        Expression::MeasureType {
            measure,
            type_name,
            ..
        } => match measure {
            Measure::Size => {
                let spelled = environment.spelled(alloc, *type_name)?;
                Ok(Some(Known::Seen(spelled.shape)))
            }
            Measure::Alignment => Ok(None),
        },
        _ => Ok(None),
    }
}

// The block whose size the only argument is.
#[cycle(operand)]
fn block_of<'a, E: Environment>(
    alloc: Global,
    environment: &'a E,
    arguments: &[Expression],
) -> Result<Option<ProfileType>, NoMemory>
    ensures { IfOk result (λ b. b ≡ Rules.block_of (E.sees environment.entry.now) (expressions_of (map (expression_tree (E.tokens environment.entry.now)) arguments.now))) }
{
    let count = arguments.len();
    if count == 1 {
        let known = measured(alloc, environment, &arguments[0])?;
        Ok(block_if(environment, known))
    } else {
        Ok(None)
    }
}

// An operand with these operators and operands after it.
#[cycle(operand)]
fn links<'a, E: Environment>(
    alloc: Global,
    environment: &'a E,
    links: &[Link],
    first: Operand<'a>,
) -> Result<Operand<'a>, NoMemory>
    ensures { (e : ExpressionTree) → operand_seen first.entry ≡ Rules.valued (E.sees environment.entry.now) e →
        IfOk result (λ a. operand_seen a ≡ Rules.valued (E.sees environment.entry.now) (chained e (map (link_tree (E.tokens environment.entry.now)) links.now))) }
{
    let mut left = first;
    for i in 0..links.len() {
        let link = &links[i];
        left = linked(
            alloc,
            environment,
            link.operator,
            link.site,
            &link.operand,
            left,
        )?;
    }
    Ok(left)
}

// An operator between operands.
#[cycle(operand)]
fn linked<'a, E: Environment>(
    alloc: Global,
    environment: &'a E,
    operator: Operator,
    site: Site,
    right: &Expression,
    left: Operand<'a>,
) -> Result<Operand<'a>, NoMemory>
    ensures { IfOk result (λ a. operand_seen a ≡ Operands.unless_stopped (operand_seen left.entry) (λ x. valued_binary (E.sees environment.entry.now) operator site x (Rules.valued (E.sees environment.entry.now) (expression_tree (E.tokens environment.entry.now) right.now)))) }
{
    match left.turn(alloc)? {
        Turn::Stops(stopped) => Ok(stopped),
        Turn::GoesOn(left) => {
            let right = evaluate(alloc, environment, right)?;
            binary(alloc, environment, operator, site, left, right)
        }
    }
}

/// A call that isn't understood, behind these parts and its arguments.
pub fn no_call<'a, E: Environment>(
    alloc: Global,
    environment: &'a E,
    text: &[u8],
    at: Site,
    arguments: &[Expression],
    before: Vec<TypedExpression>,
) -> Result<Operand<'a>, NoMemory>
    ensures { IfOk result (λ a. operand_seen a ≡ stopped_at (E.sees environment.entry.now) text.now at (map typed_expression before.items ++ Calls.all_parts (E.sees environment.entry.now) (Rules.given (E.sees environment.entry.now) (expressions_of (map (expression_tree (E.tokens environment.entry.now)) arguments.now))))) }
{
    let values = given(alloc, environment, arguments)?;
    stopped_call(alloc, environment, text, at, before, values)
}

ghost use Rattle.std.specs.Prelude.{◌≡◌, ◌∷◌, ◌++◌, List, [], map, length, codes, get_or, None, IfOk, OnOk};
ghost use Rattle.px_syntax.specs.TypedTree as T;
ghost use Rattle.px_syntax.specs.TypedViews.{typed_expression, typed_argument};
ghost use Rattle.px_real_values.specs.Operators.{stopped_at};
ghost use Rattle.px_real_values.specs.Calls as Rules;
ghost use Rattle.px_real_values.specs.Views.{operand_seen, signature_seen, callee_seen, given_seen};

use crate::environment::{Callee, Environment, Library, Signature};
use crate::operand::{Operand, alone, put_all};
use crate::operators::{outside_of, stopped_at};
use crate::types::{int, value_type};
use px_base::Site;
use px_real_types::ProfileType;
use px_syntax::{Argument, TypedExpression};
use px_terms::{NoMemory, ValueType};
use std::alloc::Global;

/// An argument as it is evaluated, with its first token.
#[derive(Drop)]
pub struct Given<'a> {
    pub first: Site,
    pub operand: Operand<'a>,
}

// One more argument.
pub fn put_given<'a>(
    all: &mut Vec<Given<'a>>,
    first: Site,
    operand: Operand<'a>,
) -> Result<(), NoMemory>
    ensures { OnOk result (map given_seen all.new.items ≡ map given_seen all.old.items ++ record { first = first; operand = operand_seen operand.entry } ∷ []) }
{
    all.push(Given { first, operand })?;
    Ok(())
}

// Whether there are as many arguments as parameters, or more where it takes more.
pub fn fits(signature: Signature, count: usize) -> bool
    ensures { (xs : List Rules.Given) → length xs ≡ count → result ≡ Rules.fits signature.entry.parameters.now signature.entry.takes_more xs }
{
    let wanted = signature.parameters.len();
    if count < wanted {
        return false;
    }
    signature.takes_more || count == wanted
}

// ---- arguments in order

// The type of a parameter of the profile; others, and what there is beyond them, are erased.
fn parameter(signature: Signature, at: usize) -> Option<ProfileType>
    ensures { result ≡ get_or signature.entry.parameters.now at None }
{
    match signature.parameters.get(at) {
        Some(parameter) => *parameter,
        None => None,
    }
}

// The argument of a parameter of this type, or of one that isn't of the profile.
#[tactic(auto, using(px_syntax::proofs::TypedEquations::typed_trees))]
fn argument<'a, E: Environment>(
    alloc: Global,
    environment: &E,
    wanted: Option<ProfileType>,
    given: Given<'a>,
) -> Result<Argument, NoMemory>
    ensures { IfOk result (λ a. typed_argument a ≡ Rules.argument (E.sees environment.now) wanted (given_seen given.entry)) }
{
    match wanted {
        Some(kind) => {
            let value = given.operand.needed(alloc, environment, given.first, kind)?;
            Ok(Argument::Passed { value })
        }
        None => {
            let parts = given.operand.parts(alloc, environment)?;
            Ok(Argument::Erased { parts })
        }
    }
}

// One more argument.
fn put_argument(all: &mut Vec<Argument>, argument: Argument) -> Result<(), NoMemory>
    ensures { OnOk result (map typed_argument all.new.items ≡ map typed_argument all.old.items ++ typed_argument argument ∷ []) }
{
    all.push(argument)?;
    Ok(())
}

// The arguments of a call of a function.
fn arguments<'a, E: Environment>(
    alloc: Global,
    environment: &E,
    signature: Signature,
    given: Vec<Given<'a>>,
) -> Result<Vec<Argument>, NoMemory>
    ensures { IfOk result (λ v. map typed_argument v.items ≡ Rules.arguments (E.sees environment.now) signature.entry.parameters.now (map given_seen given.entry.items)) }
{
    let count = given.len();
    let mut all = Vec::with_capacity(alloc, count)?;
    for one in given {
        let at = all.len();
        let wanted = parameter(signature, at);
        let passed = argument(alloc, environment, wanted, one)?;
        put_argument(&mut all, passed)?;
    }
    Ok(all)
}

// ---- calls

// What a call gives: a value, or outside where the result isn't of the profile.
#[tactic(auto, using(px_syntax::proofs::TypedEquations::typed_trees))]
fn gives<'a, E: Environment>(
    alloc: Global,
    environment: &E,
    signature: Signature,
    at: Site,
    arguments: Vec<Argument>,
) -> Result<Operand<'a>, NoMemory>
    ensures { IfOk result (λ a. operand_seen a ≡ Rules.gives (E.sees environment.now) (signature_seen signature.entry) at (T.arguments_of (map typed_argument arguments.items)) signature.entry.result) }
{
    let proc = signature.proc;
    match signature.result {
        Some(kind) => Ok(Operand::OfType {
            kind,
            site: at,
            value: TypedExpression::Call {
                proc,
                arguments,
                result: value_type(environment, kind),
                site: at,
            },
        }),
        None => {
            let call = TypedExpression::Call {
                proc,
                arguments,
                result: ValueType::Int,
                site: at,
            };
            let parts = alone(alloc, call)?;
            Ok(outside_of(environment, b"call".as_slice(), at, parts))
        }
    }
}

// A call that isn't understood, behind these parts and its arguments.
pub fn stopped_call<'a, E: Environment>(
    alloc: Global,
    environment: &E,
    text: &[u8],
    at: Site,
    before: Vec<TypedExpression>,
    given: Vec<Given<'a>>,
) -> Result<Operand<'a>, NoMemory>
    ensures { IfOk result (λ a. operand_seen a ≡ stopped_at (E.sees environment.now) text.now at (map typed_expression before.items ++ Rules.all_parts (E.sees environment.now) (map given_seen given.entry.items))) }
{
    let mut all = before;
    for one in given {
        let parts = one.operand.parts(alloc, environment)?;
        put_all(&mut all, parts)?;
    }
    Ok(stopped_at(environment, text, at, all))
}

// A call that isn't understood, behind its arguments.
fn not_called<'a, E: Environment>(
    alloc: Global,
    environment: &E,
    text: &[u8],
    at: Site,
    given: Vec<Given<'a>>,
) -> Result<Operand<'a>, NoMemory>
    ensures { IfOk result (λ a. operand_seen a ≡ stopped_at (E.sees environment.now) text.now at (Rules.all_parts (E.sees environment.now) (map given_seen given.entry.items))) }
{
    stopped_call(alloc, environment, text, at, Vec::new(alloc), given)
}

// A call of a function.
fn function_call<'a, E: Environment>(
    alloc: Global,
    environment: &E,
    signature: Signature,
    at: Site,
    given: Vec<Given<'a>>,
) -> Result<Operand<'a>, NoMemory>
    ensures { IfOk result (λ a. operand_seen a ≡ Rules.function_call (E.sees environment.now) (signature_seen signature.entry) at (map given_seen given.entry.items)) }
{
    let count = given.len();
    if fits(signature, count) {
        let all = arguments(alloc, environment, signature, given)?;
        gives(alloc, environment, signature, at, all)
    } else {
        not_called(alloc, environment, b"call".as_slice(), at, given)
    }
}

// `malloc` of the block whose size its argument is, if it is one's.
fn malloc_call<'a, E: Environment>(
    alloc: Global,
    environment: &E,
    at: Site,
    block: Option<ProfileType>,
    given: Vec<Given<'a>>,
) -> Result<Operand<'a>, NoMemory>
    ensures { IfOk result (λ a. operand_seen a ≡ Rules.malloc_call (E.sees environment.now) at block (map given_seen given.entry.items)) }
{
    match block {
        Some(block) => Ok(Operand::Block { block, site: at }),
        None => not_called(alloc, environment, b"malloc".as_slice(), at, given),
    }
}

// `getchar`, which takes no argument.
fn input_call<'a, E: Environment>(
    alloc: Global,
    environment: &E,
    at: Site,
    given: Vec<Given<'a>>,
) -> Result<Operand<'a>, NoMemory>
    ensures { IfOk result (λ a. operand_seen a ≡ Rules.input_call (E.sees environment.now) at (map given_seen given.entry.items)) }
{
    if given.is_empty() {
        Ok(Operand::OfType {
            kind: int(),
            site: at,
            value: TypedExpression::GetChar { site: at },
        })
    } else {
        not_called(alloc, environment, b"call".as_slice(), at, given)
    }
}

// `__builtin_expect`, which is the first of its two arguments.
fn expect_call<'a, E: Environment>(
    alloc: Global,
    environment: &E,
    at: Site,
    given: Vec<Given<'a>>,
) -> Result<Operand<'a>, NoMemory>
    ensures { IfOk result (λ a. operand_seen a ≡ Rules.expect_call (E.sees environment.now) at (map given_seen given.entry.items)) }
{
    let count = given.len();
    if count == 2 {
        let mut given = given;
        let first = given.remove(0);
        Ok(first.operand)
    } else {
        not_called(alloc, environment, b"call".as_slice(), at, given)
    }
}

// A call of a function of the library.
fn library_call<'a, E: Environment>(
    alloc: Global,
    environment: &E,
    library: Library,
    at: Site,
    block: Option<ProfileType>,
    given: Vec<Given<'a>>,
) -> Result<Operand<'a>, NoMemory>
    ensures { IfOk result (λ a. operand_seen a ≡ Rules.library_call (E.sees environment.now) library at block (map given_seen given.entry.items)) }
{
    match library {
        Library::Malloc => malloc_call(alloc, environment, at, block, given),
        Library::Calloc => not_called(alloc, environment, b"calloc".as_slice(), at, given),
        Library::Realloc => not_called(alloc, environment, b"realloc".as_slice(), at, given),
        Library::Free => not_called(alloc, environment, b"free".as_slice(), at, given),
        Library::GetChar => input_call(alloc, environment, at, given),
        Library::Expect => expect_call(alloc, environment, at, given),
        Library::ConstantP => {
            let text = b"__builtin_constant_p".as_slice();
            Ok(outside_of(environment, text, at, Vec::new(alloc)))
        }
        Library::ObjectSize => {
            let text = b"__builtin_object_size".as_slice();
            Ok(outside_of(environment, text, at, Vec::new(alloc)))
        }
    }
}

// A call of a name, at its token.
fn name_call<'a, E: Environment>(
    alloc: Global,
    environment: &E,
    callee: Callee<'a>,
    at: Site,
    block: Option<ProfileType>,
    given: Vec<Given<'a>>,
) -> Result<Operand<'a>, NoMemory>
    ensures { IfOk result (λ a. operand_seen a ≡ Rules.name_call (E.sees environment.now) (callee_seen callee.entry) at block (map given_seen given.entry.items)) }
{
    match callee {
        Callee::Function(signature) => function_call(alloc, environment, signature, at, given),
        Callee::Library(library) => library_call(alloc, environment, library, at, block, given),
        Callee::NoFunction => not_called(alloc, environment, b"call".as_slice(), at, given),
    }
}

// A call of what is no `Stop`, at its parenthesis, where the only argument is the size of this block, or there is none of that kind.
pub fn call_of<'a, E: Environment>(
    alloc: Global,
    environment: &E,
    site: Site,
    block: Option<ProfileType>,
    given: Vec<Given<'a>>,
    function: Operand<'a>,
) -> Result<Operand<'a>, NoMemory>
    ensures { IfOk result (λ a. operand_seen a ≡ Rules.call_of (E.sees environment.now) site block (map given_seen given.entry.items) (operand_seen function.entry)) }
{
    match function {
        Operand::Named {
            callee,
            site: at,
            ..
        } => name_call(alloc, environment, callee, at, block, given),
        other => {
            let parts = other.parts(alloc, environment)?;
            stopped_call(alloc, environment, b"call".as_slice(), site, parts, given)
        }
    }
}

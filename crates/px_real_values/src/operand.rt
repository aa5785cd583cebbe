ghost use Rattle.std.specs.Prelude.{◌≡◌, ◌∷◌, ◌++◌, [], map, is_some, IfOk, OnOk, if◌then◌else◌};
ghost use Rattle.px_syntax.specs.TypedTree as T;
ghost use Rattle.px_syntax.specs.TypedViews.{typed_expression, typed_condition, cells};
ghost use Rattle.px_real_values.specs.Operands as Rules;
ghost use Rattle.px_real_values.specs.Turns.{goes_on};
ghost use Rattle.px_real_values.specs.Views.{operand_seen};

use crate::environment::{Callee, Environment};
use crate::types::{
    int, is_array, is_int, is_pointer, known, pointee, points_to, same_type, structure, type_id,
    unknown,
};
use px_base::{FieldId, Site};
use px_real_types::{Known, ProfileType};
use px_syntax::{CellLink, Condition, TypedExpression};
use px_terms::{NoMemory, TypeId};
use std::alloc::Global;

/// What an expression is to the profile. What is no value has a word and a site, for the `Stop` that it is where a value is needed.
#[derive(Drop)]
pub enum Operand<'a> {
    /// An int or a pointer of this type. The site is that of the condition that it makes.
    OfType {
        kind: ProfileType,
        site: Site,
        value: TypedExpression,
    },
    /// The constant 0: an int, and null of each pointer type.
    Zero {
        site: Site,
    },
    /// Null where a pointer is wanted, and elsewhere outside.
    Null {
        word: u32,
        site: Site,
    },
    /// A comparison, `&&`, `||` or `!`: an int by its outcome.
    Test {
        condition: Condition,
    },
    /// `malloc` of a block of this type: a value where a pointer to it is wanted.
    Block {
        block: ProfileType,
        site: Site,
    },
    /// Outside: a name that is no local of the profile, with what a call of it goes to.
    Named {
        callee: Callee<'a>,
        known: Known,
        word: u32,
        site: Site,
    },
    /// Outside: what isn't a cell of the struct that a pointer points to. It is reached by an access at the first site.
    Member {
        known: Known,
        pointer: TypedExpression,
        block: TypeId,
        access: Site,
        word: u32,
        site: Site,
    },
    /// Outside: anything else, with its parts.
    Outside {
        known: Known,
        parts: Vec<TypedExpression>,
        word: u32,
        site: Site,
    },
    /// The struct with this number that a pointer points to: a `Stop`, but as what a member is of.
    Struct {
        number: u32,
        pointer: TypedExpression,
        word: u32,
        site: Site,
    },
    /// An object with what its pointer needs: a `Stop`, but where its address is taken.
    Object {
        known: Known,
        parts: Vec<TypedExpression>,
        word: u32,
        site: Site,
    },
    /// A `Stop` with its parts.
    Stopped {
        parts: Vec<TypedExpression>,
        word: u32,
        site: Site,
    },
}

// What follows an operand: something that takes its value, or nothing, since it is a `Stop`.
#[derive(Drop)]
pub enum Turn<'a> {
    GoesOn(Operand<'a>),
    Stops(Operand<'a>),
}

// A list of one expression.
pub fn alone(alloc: Global, expression: TypedExpression) -> Result<Vec<TypedExpression>, NoMemory>
    ensures { IfOk result (λ v. map typed_expression v.items ≡ typed_expression expression ∷ []) }
{
    let mut all = Vec::new(alloc);
    all.push(expression)?;
    Ok(all)
}

// One more expression.
pub fn put(all: &mut Vec<TypedExpression>, expression: TypedExpression) -> Result<(), NoMemory>
    ensures { OnOk result (map typed_expression all.new.items ≡ map typed_expression all.old.items ++ typed_expression expression ∷ []) }
{
    all.push(expression)?;
    Ok(())
}

// More expressions.
pub fn put_all(all: &mut Vec<TypedExpression>, more: Vec<TypedExpression>) -> Result<(), NoMemory>
    ensures { OnOk result (map typed_expression all.new.items ≡ map typed_expression all.old.items ++ map typed_expression more.items) }
{
    let mut more = more;
    all.append(&mut more)?;
    Ok(())
}

// A `Stop`.
#[tactic(auto, using(px_syntax::proofs::TypedEquations::typed_trees))]
pub fn stop(parts: Vec<TypedExpression>, word: u32, site: Site) -> TypedExpression
    ensures { typed_expression result ≡ Rules.stop (map typed_expression parts.items) word site }
{
    TypedExpression::Stop { word, site, parts }
}

// The outcome of a condition as an int.
pub fn truth(alloc: Global, condition: Condition) -> Result<TypedExpression, NoMemory>
    ensures { IfOk result (λ e. typed_expression e ≡ T.truth (typed_condition condition)) }
{
    Ok(TypedExpression::Truth {
        condition: Box::new(alloc, condition)?,
    })
}

// The `Stop` where a value of another type is needed.
fn mistyped<E: Environment>(
    alloc: Global,
    environment: &E,
    first: Site,
    value: TypedExpression,
) -> Result<TypedExpression, NoMemory>
    ensures { IfOk result (λ e. typed_expression e ≡ Rules.stop (typed_expression value ∷ []) (Rules.type_word (E.sees environment.now)) first) }
{
    let parts = alone(alloc, value)?;
    Ok(stop(parts, environment.word_number(b"type".as_slice()), first))
}

// A value as a condition: that of a pointer, or of an int.
fn tested(
    alloc: Global,
    is_pointer: bool,
    value: TypedExpression,
    site: Site,
) -> Result<Condition, NoMemory>
    ensures { IfOk result (λ c. typed_condition c ≡ (if is_pointer then T.pointer (typed_expression value) site else T.word (typed_expression value) site)) }
{
    let operand = Box::new(alloc, value)?;
    if is_pointer {
        Ok(Condition::Pointer { operand, site })
    } else {
        Ok(Condition::Word { operand, site })
    }
}

// A number as a constant, where an int has it.
pub fn counted<'a>(alloc: Global, value: u32, word: u32, site: Site) -> Operand<'a>
    ensures { operand_seen result ≡ Rules.counted value word site }
{
    if value == 0 {
        return Operand::Zero { site };
    }
    match i32::try_from(value) {
        Ok(value) => Operand::OfType {
            kind: int(),
            site,
            value: TypedExpression::Constant { value },
        },
        Err(_) => Operand::Outside {
            known: unknown(),
            parts: Vec::new(alloc),
            word,
            site,
        },
    }
}

// What evaluates to a member that is outside: the pointer, and an access that nobody reads, but to an array.
pub fn reached(
    alloc: Global,
    known: Known,
    pointer: TypedExpression,
    block: TypeId,
    access: Site,
) -> Result<TypedExpression, NoMemory>
    ensures { IfOk result (λ e. typed_expression e ≡ Rules.reached known (typed_expression pointer) block access) }
{
    if is_array(known) {
        return Ok(pointer);
    }
    let link = CellLink {
        field: FieldId(0),
        block,
        site: access,
    };
    TypedExpression::cell(alloc, pointer, link)
}

// The last of the cells after a pointer, or the pointer where there is none.
pub fn last_cell(pointer: Box<TypedExpression>, mut before: Vec<CellLink>) -> TypedExpression
    ensures { typed_expression result ≡ cells (typed_expression pointer.value) before.items }
{
    match before.pop() {
        Some(last) => TypedExpression::Cell {
            pointer,
            before,
            field: last.field,
            block: last.block,
            site: last.site,
        },
        None => Box::into_inner(pointer),
    }
}

// The pointer to what an expression has the value of.
fn pointer_in(alloc: Global, value: TypedExpression) -> Result<Vec<TypedExpression>, NoMemory>
    ensures { IfOk result (λ v. map typed_expression v.items ≡ Rules.pointer_in (typed_expression value)) }
{
    match value {
        TypedExpression::Local { .. } => Ok(Vec::new(alloc)),
        TypedExpression::Cell {
            pointer,
            before,
            ..
        } => alone(alloc, last_cell(pointer, before)),
        other => alone(alloc, other),
    }
}

impl<'a> Operand<'a> {
    // What is known of its type.
    pub fn known(&self) -> Known
        ensures { result ≡ Rules.known_of (operand_seen self.now) }
    {
        match self {
            Operand::OfType { kind, .. } => known(*kind),
            Operand::Zero { .. } | Operand::Test { .. } => known(int()),
            Operand::Null { .. } | Operand::Block { .. } | Operand::Stopped { .. } => unknown(),
            Operand::Named { known, .. }
            | Operand::Member { known, .. }
            | Operand::Outside { known, .. }
            | Operand::Object { known, .. } => *known,
            Operand::Struct { number, .. } => known(structure(*number)),
        }
    }

    // On with it, unless it is a `Stop`.
    pub fn turn(self, alloc: Global) -> Result<Turn<'a>, NoMemory>
        ensures { IfOk result (λ t. (next : Rules.Operand → Rules.Operand) → Rules.unless_stopped (operand_seen self.entry) next ≡ goes_on next t) }
    {
        match self {
            Operand::Struct {
                pointer,
                word,
                site,
                ..
            } => Ok(Turn::Stops(Operand::Stopped {
                parts: alone(alloc, pointer)?,
                word,
                site,
            })),
            Operand::Object {
                parts,
                word,
                site,
                ..
            }
            | Operand::Stopped { parts, word, site } => {
                Ok(Turn::Stops(Operand::Stopped { parts, word, site }))
            }
            other => Ok(Turn::GoesOn(other)),
        }
    }

    // What is evaluated for its effects, in order.
    pub fn parts<E: Environment>(
        self,
        alloc: Global,
        environment: &E,
    ) -> Result<Vec<TypedExpression>, NoMemory>
        ensures { IfOk result (λ v. map typed_expression v.items ≡ Rules.parts (E.sees environment.now) (operand_seen self.entry)) }
    {
        match self {
            Operand::OfType { value, .. } => alone(alloc, value),
            Operand::Zero { .. } | Operand::Null { .. } | Operand::Named { .. } => {
                Ok(Vec::new(alloc))
            }
            Operand::Test { condition } => alone(alloc, truth(alloc, condition)?),
            Operand::Block { site, .. } => {
                let word = environment.word_number(b"malloc".as_slice());
                alone(alloc, stop(Vec::new(alloc), word, site))
            }
            Operand::Member {
                known,
                pointer,
                block,
                access,
                ..
            } => alone(alloc, reached(alloc, known, pointer, block, access)?),
            Operand::Outside { parts, .. } => Ok(parts),
            Operand::Struct {
                pointer,
                word,
                site,
                ..
            } => {
                let parts = alone(alloc, pointer)?;
                alone(alloc, stop(parts, word, site))
            }
            Operand::Object {
                parts,
                word,
                site,
                ..
            }
            | Operand::Stopped { parts, word, site } => alone(alloc, stop(parts, word, site)),
        }
    }

    // What the pointer to an object needs: no access of the object itself.
    pub fn pointer_parts<E: Environment>(
        self,
        alloc: Global,
        environment: &E,
    ) -> Result<Vec<TypedExpression>, NoMemory>
        ensures { IfOk result (λ v. map typed_expression v.items ≡ Rules.pointer_parts (E.sees environment.now) (operand_seen self.entry)) }
    {
        match self {
            Operand::OfType { value, .. } => pointer_in(alloc, value),
            Operand::Member { pointer, .. } | Operand::Struct { pointer, .. } => {
                alone(alloc, pointer)
            }
            Operand::Object { parts, .. } => Ok(parts),
            other => other.parts(alloc, environment),
        }
    }

    // Whether it is a value of this type.
    #[tactic(auto, using(crate::proofs::OperandLemmas::tests))]
    pub fn is_typed<E: Environment>(&self, environment: &E, wanted: ProfileType) -> bool
        ensures { result ≡ is_some (Rules.typed_as (E.sees environment.now) wanted (operand_seen self.now)) }
    {
        match self {
            Operand::OfType { kind, .. } => same_type(wanted, *kind),
            Operand::Zero { .. }
            | Operand::Struct { .. }
            | Operand::Object { .. }
            | Operand::Stopped { .. } => true,
            Operand::Null { .. } => is_pointer(wanted),
            Operand::Test { .. } => is_int(wanted),
            Operand::Block { block, .. } => points_to(wanted, *block),
            Operand::Named { .. } | Operand::Member { .. } | Operand::Outside { .. } => false,
        }
    }

    // The `Stop` where another value is needed.
    fn unwanted<E: Environment>(
        self,
        alloc: Global,
        environment: &E,
        first: Site,
    ) -> Result<TypedExpression, NoMemory>
        ensures { IfOk result (λ e. typed_expression e ≡ Rules.unwanted (E.sees environment.now) first (operand_seen self.entry)) }
    {
        match self {
            Operand::OfType { value, .. } => mistyped(alloc, environment, first, value),
            Operand::Zero { .. } => {
                let word = environment.word_number(b"type".as_slice());
                Ok(stop(Vec::new(alloc), word, first))
            }
            Operand::Test { condition } => {
                let value = truth(alloc, condition)?;
                mistyped(alloc, environment, first, value)
            }
            Operand::Block { site, .. } => {
                let word = environment.word_number(b"malloc".as_slice());
                Ok(stop(Vec::new(alloc), word, site))
            }
            Operand::Null { word, site } | Operand::Named { word, site, .. } => {
                Ok(stop(Vec::new(alloc), word, site))
            }
            Operand::Member {
                known,
                pointer,
                block,
                access,
                word,
                site,
            } => {
                let part = reached(alloc, known, pointer, block, access)?;
                Ok(stop(alone(alloc, part)?, word, site))
            }
            Operand::Struct {
                pointer,
                word,
                site,
                ..
            } => Ok(stop(alone(alloc, pointer)?, word, site)),
            Operand::Outside {
                parts,
                word,
                site,
                ..
            }
            | Operand::Object {
                parts,
                word,
                site,
                ..
            }
            | Operand::Stopped { parts, word, site } => Ok(stop(parts, word, site)),
        }
    }

    // The value of this type that is needed; the expression's first token is at `first`.
    pub fn needed<E: Environment>(
        self,
        alloc: Global,
        environment: &E,
        first: Site,
        wanted: ProfileType,
    ) -> Result<TypedExpression, NoMemory>
        ensures { IfOk result (λ e. typed_expression e ≡ Rules.needed (E.sees environment.now) first wanted (operand_seen self.entry)) }
    {
        match self {
            Operand::OfType { kind, value, .. } => {
                if same_type(wanted, kind) {
                    Ok(value)
                } else {
                    mistyped(alloc, environment, first, value)
                }
            }
            Operand::Zero { .. } => Ok(if is_pointer(wanted) {
                TypedExpression::Null
            } else {
                TypedExpression::Constant { value: 0 }
            }),
            Operand::Null { word, site } => Ok(if is_pointer(wanted) {
                TypedExpression::Null
            } else {
                stop(Vec::new(alloc), word, site)
            }),
            Operand::Test { condition } => {
                let value = truth(alloc, condition)?;
                if is_int(wanted) {
                    Ok(value)
                } else {
                    mistyped(alloc, environment, first, value)
                }
            }
            Operand::Block { block, site } => Ok(if points_to(wanted, block) {
                let block = type_id(environment, block);
                TypedExpression::Allocate { block, site }
            } else {
                let word = environment.word_number(b"malloc".as_slice());
                stop(Vec::new(alloc), word, site)
            }),
            other => other.unwanted(alloc, environment, first),
        }
    }

    // What decides: a value, of any type.
    pub fn deciding<E: Environment>(
        self,
        alloc: Global,
        environment: &E,
    ) -> Result<Condition, NoMemory>
        ensures { IfOk result (λ c. typed_condition c ≡ Rules.deciding (E.sees environment.now) (operand_seen self.entry)) }
    {
        match self {
            Operand::Test { condition } => Ok(condition),
            Operand::OfType { kind, site, value } => tested(alloc, is_pointer(kind), value, site),
            Operand::Zero { site } => {
                tested(alloc, false, TypedExpression::Constant { value: 0 }, site)
            }
            Operand::Null { site, .. } => tested(alloc, true, TypedExpression::Null, site),
            Operand::Block { site, .. } => {
                let word = environment.word_number(b"malloc".as_slice());
                tested(alloc, false, stop(Vec::new(alloc), word, site), site)
            }
            Operand::Named { word, site, .. } => {
                tested(alloc, false, stop(Vec::new(alloc), word, site), site)
            }
            Operand::Member {
                known,
                pointer,
                block,
                access,
                word,
                site,
            } => {
                let part = reached(alloc, known, pointer, block, access)?;
                tested(alloc, false, stop(alone(alloc, part)?, word, site), site)
            }
            Operand::Struct {
                pointer,
                word,
                site,
                ..
            } => tested(alloc, false, stop(alone(alloc, pointer)?, word, site), site),
            Operand::Outside {
                parts,
                word,
                site,
                ..
            }
            | Operand::Object {
                parts,
                word,
                site,
                ..
            }
            | Operand::Stopped { parts, word, site } => {
                tested(alloc, false, stop(parts, word, site), site)
            }
        }
    }

    // What `free` takes, with its block type.
    pub fn freed<E: Environment>(
        self,
        alloc: Global,
        environment: &E,
        first: Site,
    ) -> Result<(ProfileType, TypedExpression), NoMemory>
        ensures { IfOk result (λ x. (x.0, typed_expression x.1) ≡ Rules.freed (E.sees environment.now) first (operand_seen self.entry)) }
    {
        match self {
            Operand::OfType { kind, value, .. } => match pointee(kind) {
                Some(block) => Ok((block, value)),
                None => Ok((int(), mistyped(alloc, environment, first, value)?)),
            },
            Operand::Zero { .. } | Operand::Null { .. } => Ok((int(), TypedExpression::Null)),
            other => Ok((int(), other.unwanted(alloc, environment, first)?)),
        }
    }
}

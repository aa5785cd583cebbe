ghost use Rattle.std.specs.Prelude.{◌≡◌, Some, drop, option_map};
ghost use Rattle.px_syntax.specs.TypedViews.{typed_expression, typed_condition, typed_place, cells};
ghost use Rattle.px_syntax.specs.TypedTree as T;
ghost use Rattle.px_bodies.specs.Lent.{type_of};
ghost use Rattle.px_bodies.specs.Typed.{as_type, as_value, as_argument, as_condition, as_place, as_freed, common_type};
ghost use Rattle.px_bodies.specs.Operands.{operand_seen, place_seen, freed_seen, wanted_of};
ghost use Rattle.px_bodies.specs.Outcomes.{Yields};

use crate::CType;
use crate::refusal::Refusal;
use px_base::Site;
use px_syntax::{CellLink, Condition, Parameter, Place, TypedExpression};
use std::alloc::Global;

/// An expression with its type.
#[derive(Drop)]
pub enum Operand<'a> {
    /// An int or a pointer of this type.
    OfType(CType<'a>, TypedExpression),
    /// The word `NULL`: null of each pointer type.
    Null,
    /// The constant 0: an int, and null of each pointer type.
    Zero,
    /// A comparison, `&&`, `||` or `!`: an int by its outcome.
    Test(Condition),
}

/// What is assigned, with its type.
#[derive(Drop)]
pub struct TypedPlace<'a> {
    pub(crate) value: CType<'a>,
    pub(crate) place: Place,
}

/// A pointer that is freed, with its block type.
#[derive(Drop)]
pub struct Freed<'a> {
    pub(crate) block: CType<'a>,
    pub(crate) pointer: TypedExpression,
}

// The outcome of a condition as an int.
fn truth(alloc: Global, condition: Condition) -> Result<TypedExpression, Refusal>
    ensures { Yields typed_expression result (Some (T.truth (typed_condition condition))) }
{
    Ok(TypedExpression::Truth {
        condition: Box::new(alloc, condition)?,
    })
}

// The last of the cells after a pointer, or the pointer where there is none.
fn last_cell(
    alloc: Global,
    pointer: Box<TypedExpression>,
    mut before: Vec<CellLink>,
) -> Result<Box<TypedExpression>, Refusal>
    ensures { Yields (λ b. typed_expression b.value) result (Some (cells (typed_expression pointer.value) before.items)) }
{
    match before.pop() {
        Some(last) => {
            let cell = TypedExpression::Cell {
                pointer,
                before,
                field: last.field,
                block: last.block,
                site: last.site,
            };
            Ok(Box::new(alloc, cell)?)
        }
        None => Ok(pointer),
    }
}

impl<'a> Operand<'a> {
    // As a value of this type.
    pub(crate) fn as_type(
        self,
        alloc: Global,
        wanted: CType<'a>,
    ) -> Result<TypedExpression, Refusal>
        ensures { Yields typed_expression result (as_type (type_of wanted.entry) (operand_seen self.entry)) }
    {
        match self {
            Operand::OfType(own, expression) if wanted.is_same(own) => Ok(expression),
            Operand::Null | Operand::Zero if wanted.is_pointer() => Ok(TypedExpression::Null),
            Operand::Zero if wanted.is_int() => Ok(TypedExpression::Constant { value: 0 }),
            Operand::Test(condition) if wanted.is_int() => truth(alloc, condition),
            _ => Err(Refusal::Rule),
        }
    }

    // As a value of whatever type it has.
    pub(crate) fn as_value(self, alloc: Global) -> Result<TypedExpression, Refusal>
        ensures { Yields typed_expression result (Some (as_value (operand_seen self.entry))) }
    {
        match self {
            Operand::OfType(_, expression) => Ok(expression),
            Operand::Null => Ok(TypedExpression::Null),
            Operand::Zero => Ok(TypedExpression::Constant { value: 0 }),
            Operand::Test(condition) => truth(alloc, condition),
        }
    }

    // As the argument at a place, where these are the parameters, or none are known.
    pub(crate) fn as_argument(
        self,
        alloc: Global,
        wanted: Option<&'a [Parameter]>,
        place: usize,
    ) -> Result<TypedExpression, Refusal>
        ensures { Yields typed_expression result (as_argument (option_map (drop place) (wanted_of wanted.entry)) (operand_seen self.entry)) }
    {
        match wanted {
            None => self.as_value(alloc),
            Some(parameters) => match parameters.get(place) {
                Some(parameter) => self.as_type(alloc, CType::of(&parameter.value)),
                None => Err(Refusal::Rule),
            },
        }
    }

    // As a condition. The site is that of the expression.
    pub(crate) fn as_condition(self, alloc: Global, site: Site) -> Result<Condition, Refusal>
        ensures { Yields typed_condition result (Some (as_condition site (operand_seen self.entry))) }
    {
        let (is_pointer, operand) = match self {
            Operand::OfType(own, expression) => (own.is_pointer(), expression),
            Operand::Null => (true, TypedExpression::Null),
            Operand::Zero => (false, TypedExpression::Constant { value: 0 }),
            Operand::Test(condition) => return Ok(condition),
        };
        let operand = Box::new(alloc, operand)?;
        Ok(if is_pointer {
            Condition::Pointer { operand, site }
        } else {
            Condition::Word { operand, site }
        })
    }

    // As what stands on the left of an assignment.
    pub(crate) fn as_place(self, alloc: Global) -> Result<TypedPlace<'a>, Refusal>
        ensures { Yields place_seen result (as_place (operand_seen self.entry)) }
    {
        let Operand::OfType(value, expression) = self else {
            return Err(Refusal::Rule);
        };
        let place = match expression {
            TypedExpression::Local { local, site } => Place::Local { local, site },
            TypedExpression::Cell {
                pointer,
                before,
                field,
                block,
                site,
            } => Place::Cell {
                site,
                field,
                block,
                pointer: last_cell(alloc, pointer, before)?,
            },
            _ => return Err(Refusal::Rule),
        };
        Ok(TypedPlace { value, place })
    }

    // As what is freed.
    pub(crate) fn as_freed(self) -> Result<Freed<'a>, Refusal>
        ensures { Yields freed_seen result (as_freed (operand_seen self.entry)) }
    {
        match self {
            Operand::OfType(own, pointer) => match own.pointee() {
                Some(block) => Ok(Freed { block, pointer }),
                None => Err(Refusal::Rule),
            },
            Operand::Null | Operand::Zero => Ok(Freed {
                block: CType::int(),
                pointer: TypedExpression::Null,
            }),
            Operand::Test(_) => Err(Refusal::Rule),
        }
    }

    // The type at which it is compared with another.
    pub(crate) fn common_type(&self, other: &Operand<'a>) -> Result<CType<'a>, Refusal>
        ensures { Yields type_of result (Some (common_type (operand_seen self.now) (operand_seen other.now))) }
    {
        match (self, other) {
            (Operand::OfType(own, _), _) | (_, Operand::OfType(own, _)) => Ok(*own),
            (Operand::Null, _) | (_, Operand::Null) => CType::int().pointer(),
            _ => Ok(CType::int()),
        }
    }
}

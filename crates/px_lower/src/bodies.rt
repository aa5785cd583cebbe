ghost use Rattle.std.specs.Prelude.{◌≡◌, ◌<◌, length, IfOk, IsSomeAnd};
ghost use Rattle.px_core.specs.BodyTree.{body_tree};
ghost use Rattle.px_core.specs.Constants.{HasConstantsInRange};
ghost use Rattle.px_syntax.specs.ProgramTree.{procedure_tree, program_tree};
ghost use Rattle.px_meaning.specs.TreeTypes.{KeepsTyping};
ghost use Rattle.px_meaning.specs.TypedProgram.{typed_program};
ghost use Rattle.px_lower.specs.BodiesKeep.{IsTypedAndWellFormed};
ghost use Rattle.px_lower.specs.LoweredProgram.{AnswersOf, lowered, lowered_program};

use crate::LowerFault;
use crate::put::behind_list;
use crate::statements::statement;
use px_base::ProcId;
use px_core::{Body, size};
use px_syntax::{Procedure, Program};
use px_terms::{Items, NoMemory};
use std::alloc::Global;

/// A body with more commands, those that stand in others counted, is too large.
pub const MOST_COMMANDS: u64 = 2_000;

/// The body of a kept procedure.
pub fn lower(alloc: Global, program: &Program, proc: ProcId) -> Result<Body, LowerFault>
    requires { proc.0 < length program.now.procedures }
    ensures body { IsSomeAnd ((lowered_program (typed_program (program_tree program.now))).bodies proc.0) (λ body. AnswersOf body result) }
    ensures keeps { KeepsTyping (typed_program (program_tree program.now)) → IfOk result (λ body. IsTypedAndWellFormed (typed_program (program_tree program.now)) (body_tree body)) }
    ensures ranges { KeepsTyping (typed_program (program_tree program.now)) → IfOk result (λ body. HasConstantsInRange (body_tree body)) }
{
    body_at(alloc, program, proc)
}

fn body_at(alloc: Global, program: &Program, proc: ProcId) -> Result<Body, LowerFault>
    requires { proc.0 < length program.now.procedures }
    ensures { IsSomeAnd ((lowered_program (typed_program (program_tree program.now))).bodies proc.0) (λ body. AnswersOf body result) }
{
    let procedures = program.procedures.as_slice();
    lower_procedure(alloc, &procedures[proc.0 as usize])
}

fn lower_procedure(alloc: Global, procedure: &Procedure) -> Result<Body, LowerFault>
    ensures { AnswersOf (lowered (procedure_tree procedure.now)) result }
{
    let body = body_of(alloc, procedure)?;
    let count = size(&body);
    if count <= MOST_COMMANDS {
        Ok(body)
    } else if count < u64::MAX {
        Err(LowerFault::TooLarge(count))
    } else {
        Err(LowerFault::NoMemory)
    }
}

// The body, whatever its size. More slots than numbers of 32 bits take more memory than there is.
fn body_of(alloc: Global, procedure: &Procedure) -> Result<Body, NoMemory>
    ensures { IfOk result (λ body. body_tree body ≡ lowered (procedure_tree procedure.now)) }
{
    let declared = procedure.body.locals.len();
    let locals = procedure
        .parameters
        .len()
        .checked_add(declared)
        .ok_or(NoMemory)?;
    let first = u32::try_from(locals).map_err(|_| NoMemory)?;
    let mut commands = Vec::new(alloc);
    let given = statement(alloc, &procedure.body.statement, first, &mut commands);
    let slots = behind_list(given)?;
    Ok(Body {
        slots,
        parameters: Items::from_slice(alloc, procedure.parameters.as_slice())?,
        result: procedure.result,
        commands,
    })
}

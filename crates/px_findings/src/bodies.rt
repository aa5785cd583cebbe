ghost use Rattle.std.specs.Prelude.{◌≡◌, ◌<◌, ◌++◌, ◌∷◌, [], map, length, is_none, option_map, slice_get, IfOk, OnOk};
ghost use Rattle.px_core.specs.BodyTree.{body_tree};
ghost use Rattle.px_syntax.specs.ProgramTree.{program_tree};
ghost use Rattle.px_findings.specs.Found.{body_in};
ghost use Rattle.px_findings.specs.Bodies as spec;

use px_base::ProcId;
use px_core::Body;
use px_lower::{LowerFault, lower};
use px_syntax::Program;
use px_terms::{Items, NoMemory};
use std::alloc::Global;

/// The bodies of the kept procedures, in the order of their numbers, and which of them are too large. An empty body
/// stands in the place of one that is.
#[derive(Drop)]
pub(crate) struct Lowered {
    pub(crate) bodies: Vec<Body>,
    pub(crate) large: Vec<bool>,
}

/// Lowers all kept procedures of a program, each once.
pub(crate) fn lower_all(alloc: Global, program: &Program) -> Result<Lowered, NoMemory>
    ensures { IfOk result (λ l. spec.AreLowered (program_tree program.now).procedures l.bodies.items l.large.items) }
{
    let mut lowered = Lowered {
        bodies: Vec::new(alloc),
        large: Vec::new(alloc),
    };
    for place in 0..program.procedures.len() {
        let body = lowered_at(alloc, program, place)?;
        put_body(alloc, &mut lowered, body)?;
    }
    Ok(lowered)
}

// The body of the procedure at this place, if it isn't too large.
fn lowered_at(alloc: Global, program: &Program, place: usize) -> Result<Option<Body>, NoMemory>
    requires { place < length program.now.procedures }
    ensures { IfOk result (λ body. option_map body_tree body ≡ body_in (slice_get (program_tree program.now).procedures place)) }
{
    let Ok(number) = u32::try_from(place) else {
        return Err(NoMemory);
    };
    match lower(alloc, program, ProcId(number)) {
        Ok(body) => Ok(Some(body)),
        Err(LowerFault::TooLarge(_)) => Ok(None),
        Err(LowerFault::NoMemory) => Err(NoMemory),
    }
}

// Puts a body after the others, and an empty one in the place of one that is too large.
fn put_body(alloc: Global, lowered: &mut Lowered, body: Option<Body>) -> Result<(), NoMemory>
    ensures bodies { OnOk result (map body_tree lowered.new.bodies.items ≡ map body_tree lowered.old.bodies.items ++ spec.body_or_empty (option_map body_tree body) ∷ []) }
    ensures large { OnOk result (lowered.new.large.items ≡ lowered.old.large.items ++ is_none body ∷ []) }
{
    lowered.large.push(body.is_none())?;
    lowered.bodies.push(match body {
        Some(body) => body,
        None => empty_body(alloc),
    })?;
    Ok(())
}

/// A body that does nothing. Takes no memory.
pub(crate) fn empty_body(alloc: Global) -> Body
    ensures { body_tree result ≡ spec.empty_body }
{
    Body {
        slots: 0,
        parameters: Items::new(alloc),
        result: None,
        commands: Vec::new(alloc),
    }
}

ghost use Rattle.std.specs.Prelude.{◌≡◌, ◌++◌, IfOk};
ghost use Rattle.px_core.specs.BodyTree.{body_tree};
ghost use Rattle.px_spelling.specs.Reading.{Gives};
ghost use Rattle.px_body_spelling.specs.Bodies.{body_bytes, IsBody, body_at};

use crate::commands::read_commands;
use px_core::Body;
use px_spelling::{Wire, WireFault, read_items};
use px_terms::ValueType;
use std::alloc::Global;

/// Parameters of a body.
pub(crate) const MOST_PARAMETERS: u32 = 16;
/// Commands of a body, those that stand in others counted.
pub(crate) const MOST_COMMANDS: u32 = 2_000;

/// The body at the front of bytes, and the bytes after it. `NotAMessage` comes exactly where the bytes begin with no
/// body's spelling; a body has at most 16 parameters and at most 2,000 commands, those that stand in others counted.
pub fn read_body(alloc: Global, bytes: &[u8]) -> Result<(Body, &[u8]), WireFault>
    ensures reads { Gives (λ x. (body_tree x.0, x.1.now)) result (body_at bytes.now) }
    ensures spelled { IfOk result (λ x. (bytes.now ≡ body_bytes (body_tree x.0) ++ x.1.now) × IsBody (body_tree x.0)) }
{
    read_parts(alloc, bytes)
}

#[tactic(auto, unfolding(crate::specs::Bodies::body_at))]
fn read_parts(alloc: Global, bytes: &[u8]) -> Result<(Body, &[u8]), WireFault>
    ensures { Gives (λ x. (body_tree x.0, x.1.now)) result (body_at bytes.now) }
{
    let (slots, rest) = u32::read(alloc, bytes)?;
    let (parameters, rest) = read_items(alloc, MOST_PARAMETERS, rest)?;
    let (result, rest) = Option::<ValueType>::read(alloc, rest)?;
    let (commands, _, rest) = read_commands(alloc, MOST_COMMANDS, MOST_COMMANDS, rest)?;
    Ok((
        Body {
            slots,
            parameters,
            result,
            commands,
        },
        rest,
    ))
}

ghost use Rattle.std.specs.Prelude.{◌≡◌, None, IfOk, IsErrOf};
ghost use Rattle.px_spelling.specs.declared.fault.WireFault.TheVariants as fault;
ghost use Rattle.px_parts.specs.Stream.{Streams, those, IsStuck};
ghost use Rattle.px_parts.specs.Kept.{place_of, part_in, terms_behind};

use crate::next::Next;
use crate::steps::{Given, step};
use px_spelling::{TermList, WireFault};
use std::alloc::Global;

/// The next part, where bytes hold it whole, and where the message goes on. Else where nothing more comes in them. These are the terms
/// of the message, if it has a list of them.
#[tactic(auto, using(crate::proofs::Streaming::then_comes, crate::proofs::Streaming::then_count, crate::proofs::Streaming::no_parts_yet))]
pub(crate) fn find<'a>(
    alloc: Global,
    next: Next,
    terms: &Option<TermList>,
    bytes: &'a [u8],
) -> Result<(Option<Given>, Next, &'a [u8]), WireFault>
    ensures holds { IfOk result (λ x. Streams (place_of next terms.now) bytes.now (those (part_in x.0)) (place_of x.1 (terms_behind terms.now x.0)) x.2.now) }
    ensures stuck { IfOk result (λ x. x.0 ≡ None → IsStuck (place_of x.1 terms.now) x.2.now) }
    ensures memory { ¬ IsErrOf result fault.NotAMessage }
{
    let mut here = next;
    let mut rest = bytes;
    loop {
        match step(alloc, here, terms, rest) {
            Ok(come) => {
                let (given, then, after) = come;
                if let Some(given) = given {
                    return Ok((Some(given), then, after));
                }
                here = then;
                rest = after;
            }
            Err(WireFault::NotAMessage) => return Ok((None, here, rest)),
            Err(WireFault::NoMemory) => return Err(WireFault::NoMemory),
        }
    }
}

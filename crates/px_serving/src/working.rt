ghost use Rattle.std.specs.Prelude.{◌≡◌, [], All, map};
ghost use Rattle.px_lines.specs.Sinks.{change};
ghost use Rattle.px_serving.specs.Works.{cause_of, Works};

use px_io::{Sink, Source};
use px_lines::{Cause, Status};
use px_terms::Domain;
use px_worker::{ServeFault, serve};
use std::alloc::Global;
use std::sync::Wait;

/// Serves, until all of the input is answered, or the cause for which that ended early. The domains stand by rising kinds, and hold
/// nothing, before and after. It may wait for its input for ever.
pub fn work<R: Wait, I: Source, K: Sink>(
    rt: &R,
    alloc: Global,
    input: &mut I,
    out: &mut K,
    domains: &mut Vec<Box<dyn Domain>>,
) -> Result<Status, Cause<'static>>
    requires { All (λ b. holds b []) domains.old.items }
    ensures works { Works (map (λ b. number b) domains.old.items) (change I.told I.count input.old input.new) (change K.told K.count out.old out.new) result }
    ensures clear { All (λ b. holds b []) domains.new.items }
    ensures kinds { map (λ b. number b) domains.new.items ≡ map (λ b. number b) domains.old.items }
{
    match serve(rt, alloc, input, out, domains) {
        Ok(()) => Ok(Status::Done),
        Err(fault) => Err(cause_of(fault)),
    }
}

// The cause for which a run ends whose worker has this fault.
fn cause_of(fault: ServeFault) -> Cause<'static>
    ensures { result ≡ cause_of fault }
{
    match fault {
        ServeFault::Read => Cause::UnreadInput,
        ServeFault::Write => Cause::Unwritten,
        ServeFault::Bad(place) => Cause::BadRequest(place),
        ServeFault::Kinds(place) => Cause::OtherDomains(place),
        ServeFault::NoMemory => Cause::NoMemory,
    }
}

ghost use Rattle.std.specs.Prelude.{◌≡◌, List, ℕ, map, [], All};
ghost use Rattle.px_lines.specs.Sinks.{change};
ghost use Rattle.px_serving.specs.Works.{Works};
ghost use Rattle.px_checking.specs.Kinds.{AreOwnKinds, IsRisingOf};

use px_checking::{put_back, sort_by_kind};
use px_io::{Sink, Source};
use px_lines::{Cause, Status};
use px_serving::work;
use px_terms::Domain;
use std::alloc::Global;
use std::sync::Wait;

/// Does the work of a worker with the help of these domains, which help in the rising order of their kinds, as those of a request
/// stand, and then stand as before. It may wait for its input for ever.
pub fn work_in_order<R: Wait, I: Source, K: Sink>(
    rt: &R,
    alloc: Global,
    input: &mut I,
    out: &mut K,
    domains: &mut Vec<Box<dyn Domain>>,
) -> Result<Status, Cause<'static>>
    requires own { AreOwnKinds (map (λ b. number b) domains.old.items) }
    requires clear { All (λ b. holds b []) domains.old.items }
    ensures works { (kinds : List ℕ) × IsRisingOf (map (λ b. number b) domains.old.items) kinds × Works kinds (change I.told I.count input.old input.new) (change K.told K.count out.old out.new) result }
    ensures clear { All (λ b. holds b []) domains.new.items }
    ensures kinds { map (λ b. number b) domains.new.items ≡ map (λ b. number b) domains.old.items }
{
    let places = sort_by_kind(domains);
    let ended = work(rt, alloc, input, out, domains);
    put_back(domains, places);
    ended
}

ghost use Rattle.std.specs.Prelude.{◌≡◌, ℕ, List, [], All, true, map};
ghost use Rattle.px_worker.specs.Courses.{IsOpen, IsOn};
ghost use Rattle.px_honest.specs.HonestLinks.{GoesOn};

use crate::written::Written;
use px_terms::Domain;
use px_worker::{Course, are_clear, are_kinds};
use std::alloc::Global;

// Whether the domains have these numbers and hold nothing.
fn may_help(domains: &[Box<dyn Domain>], kinds: &[u8]) -> bool
    ensures kinds { result ≡ true → kinds.now ≡ map (λ b. number b) domains.now }
    ensures clear { result ≡ true → All (λ b. holds b []) domains.now }
{
    are_kinds(domains, kinds) && are_clear(domains)
}

/// Hands bytes to a worker in place, which knows the versions from 1 to this one and whose domains have these numbers, and says
/// whether it has stopped.
///
/// Domains keep their numbers, and hold nothing. A type can't say that of the domains in it, so it is looked at again.
pub(crate) fn hand_on(
    alloc: Global,
    known: u8,
    kinds: &[u8],
    course: &mut Course,
    bytes: &[u8],
    written: &mut Written,
    domains: &mut Vec<Box<dyn Domain>>,
) -> bool
    requires { IsOpen course.old.feeder }
    ensures { (sent : List ℕ) → IsOn known kinds.now sent written.old.bytes.items course.old → GoesOn known kinds.now sent bytes.now written.old.bytes.items written.new.bytes.items course.new result }
{
    if !may_help(domains, kinds) {
        return true;
    }
    match course.take(alloc, known, bytes, written, domains) {
        Ok(()) => false,
        Err(_) => true,
    }
}

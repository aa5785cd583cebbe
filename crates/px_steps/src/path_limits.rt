ghost use Rattle.std.specs.Prelude.{◌≡◌, length, option_to_list};
ghost use Rattle.px_steps.specs.Accessing.{adding};

use px_match::{Growth, NOTHING};
use px_terms::Conj;
use px_ways::count_added;

/// A command that adds nothing.
pub(crate) const COMMAND: Growth = Growth {
    commands: 1,
    ..NOTHING
};

/// A command that adds a mark.
pub(crate) const MARKED: Growth = Growth {
    marks: 1,
    ..COMMAND
};

/// A command that adds so many marks, and a conjunct where there is one.
pub(crate) fn assuming(marks: usize, added: &Option<Conj>) -> Growth
    ensures { result ≡ adding marks (length (option_to_list added.now)) 0 0 }
{
    Growth {
        marks,
        conjuncts: count_added(added),
        ..COMMAND
    }
}

ghost use Rattle.std.specs.Prelude.{◌≡◌};
ghost use Rattle.px_wire.specs.JobRanges.{is_after, rises, numbers_of};

use px_base::ProcId;
use px_callgraph::Callee;

fn is_after(before: Option<u32>, x: u32) -> bool
    ensures { result ≡ is_after before x }
{
    match before {
        Some(before) => before < x,
        None => true,
    }
}

/// Whether each kind is greater than the one before it.
pub fn do_kinds_rise(kinds: &[u8]) -> bool
    ensures { result ≡ rises kinds.now }
{
    let mut before = None;
    for kind in kinds {
        let number = *kind as u32;
        if !is_after(before, number) {
            return false;
        }
        before = Some(number);
    }
    true
}

pub(crate) fn do_callees_rise(callees: &[(ProcId, Callee)]) -> bool
    ensures { result ≡ rises (numbers_of callees.now) }
{
    let mut before = None;
    for callee in callees {
        let number = callee.0.0;
        if !is_after(before, number) {
            return false;
        }
        before = Some(number);
    }
    true
}

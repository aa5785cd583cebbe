ghost use Rattle.std.specs.Prelude.{◌≡◌, option_map, IfOk};
ghost use Rattle.px_checking.specs.Stats.{line_asked, stats_line};

use px_pieces::{Event, Findings};
use px_pooled::{Tally, tally_of};
use px_terms::NoMemory;
use px_text_report::{put, put_number};
use std::alloc::Global;

/// The line that is told after a report, where it is asked for.
pub fn line_asked(
    alloc: Global,
    stats: bool,
    findings: &Findings,
) -> Result<Option<Vec<u8>>, NoMemory>
    ensures { IfOk result (λ line. option_map (λ v. v.items) line ≡ line_asked stats findings.now) }
{
    if !stats {
        return Ok(None);
    }
    Ok(Some(stats_line(alloc, findings.events())?))
}

// `workers published A, parent published B, lost C`
fn stats_line(alloc: Global, history: &[Event]) -> Result<Vec<u8>, NoMemory>
    ensures { IfOk result (λ line. line.items ≡ stats_line history.now) }
{
    let Tally {
        by_workers,
        by_parent,
        lost,
    } = tally_of(history);
    let mut line = Vec::new(alloc);
    put(&mut line, b"workers published ")?;
    put_number(alloc, &mut line, by_workers)?;
    put(&mut line, b", parent published ")?;
    put_number(alloc, &mut line, by_parent)?;
    put(&mut line, b", lost ")?;
    put_number(alloc, &mut line, lost)?;
    put(&mut line, b"\n")?;
    Ok(line)
}

ghost use Rattle.std.specs.Prelude.{◌≡◌, option_map, IfOk};
ghost use Rattle.px_rechecking.specs.Lines.{bad_item_text, line_asked, stats_line};

use px_pieces::Findings;
use px_terms::NoMemory;
use px_text_report::{put, put_number, table_count};
use std::alloc::Global;

/// The line that is told after a report, where it is asked for: how many procedures have an item that is good for them, and how many
/// were analysed.
pub(crate) fn line_asked(
    alloc: Global,
    stats: bool,
    used: u32,
    findings: &Findings,
) -> Result<Option<Vec<u8>>, NoMemory>
    ensures { IfOk result (λ line. option_map (λ v. v.items) line ≡ line_asked stats used findings.now) }
{
    if !stats {
        return Ok(None);
    }
    let tables = table_count(findings.parts());
    Ok(Some(stats_line(alloc, u64::from(used), tables)?))
}

// `summaries kept U, computed V`, of so many tables
fn stats_line(alloc: Global, used: u64, tables: u64) -> Result<Vec<u8>, NoMemory>
    ensures { IfOk result (λ line. line.items ≡ stats_line used tables) }
{
    let mut line = Vec::new(alloc);
    put(&mut line, b"summaries kept ")?;
    put_number(alloc, &mut line, used)?;
    put(&mut line, b", computed ")?;
    put_number(alloc, &mut line, tables.saturating_sub(used))?;
    put(&mut line, b"\n")?;
    Ok(line)
}

/// What is wrong with a kept file at this byte, as it stands after the file's name.
pub(crate) fn bad_item_text(alloc: Global, place: u64) -> Result<Vec<u8>, NoMemory>
    ensures { IfOk result (λ text. text.items ≡ bad_item_text place) }
{
    let mut text = Vec::new(alloc);
    put(&mut text, b": bad item at byte ")?;
    put_number(alloc, &mut text, place)?;
    put(&mut text, b"\n")?;
    Ok(text)
}

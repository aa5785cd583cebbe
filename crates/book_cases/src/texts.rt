use anyhow::Result;
use px_pieces::{Part, Status, Who};
use std::alloc::Global;

/// Writes an answer after others.
pub fn put_next(out: &mut String, text: &str) -> Result<()> {
    if !out.is_empty() {
        out.push_str(", ")?;
    }
    out.push_str(text)?;
    Ok(())
}

/// Where a procedure stands: `none` where it isn't of the desk.
pub fn status_text(alloc: Global, status: Option<Status>) -> Result<String> {
    match status {
        None => Ok(String::from_str(alloc, "none")?),
        Some(Status::Waiting { losses }) => Ok(format!(in alloc; "waiting {losses}")?),
        Some(
            Status::Held {
                ticket,
                who,
                losses,
            },
        ) => {
            let who = who_text(alloc, who)?;
            Ok(format!(in alloc; "held {ticket} {who} {losses}")?)
        }
        Some(Status::Settled { ticket, who }) => {
            let who = who_text(alloc, who)?;
            Ok(format!(in alloc; "settled {ticket} {who}")?)
        }
    }
}

fn who_text(alloc: Global, who: Who) -> Result<String> {
    match who {
        Who::Parent => Ok(String::from_str(alloc, "parent")?),
        Who::Worker(number) => Ok(format!(in alloc; "worker{number}")?),
    }
}

/// A letter for each part: `t` for a table, `-` where there is none.
pub fn parts_text(alloc: Global, parts: &[Part]) -> Result<String> {
    let mut out = String::new(alloc);
    for part in parts {
        out.push_str(match part {
            Part::Tabled { .. } => "t",
            Part::LeftOut => "-",
        })?;
    }
    Ok(out)
}

use anyhow::{Context, Result, bail};
use std::alloc::Global;
use std::str;

/// What stands between the parts of a text: `\;` in its short form.
pub const BETWEEN: char = '\u{1e}';

/// What comes next in a short form.
#[derive(Clone, Copy)]
enum Next {
    Any,
    /// What stands after a `\`.
    Escaped,
    /// The rest of a number, with its value so far.
    Count(usize),
}

/// A text being written, and where each open part began, with how often it is to stand.
#[derive(Drop)]
struct Writing {
    text: Vec<u8>,
    open: Vec<(usize, usize)>,
    next: Next,
}

/// The text of a short form: `\n`, `\r`, `\t`, `\v`, `\f`, `\0`, `\\` and `\;` are a byte each, and `\[N:PART\]` is
/// the part N times.
pub fn expanded(alloc: Global, short: &str) -> Result<String> {
    let mut writing = Writing {
        text: Vec::new(alloc),
        open: Vec::new(alloc),
        next: Next::Any,
    };
    for &byte in short.as_bytes() {
        writing.next = match writing.next {
            Next::Any => any(&mut writing, byte)?,
            Next::Escaped => escaped(alloc, &mut writing, byte)?,
            Next::Count(count) => counted(&mut writing, count, byte)?,
        };
    }
    Ok(String::from_str(alloc, str::from_utf8(&writing.text)?)?)
}

fn any(writing: &mut Writing, byte: u8) -> Result<Next> {
    if byte == b'\\' {
        return Ok(Next::Escaped);
    }
    writing.text.push(byte)?;
    Ok(Next::Any)
}

fn escaped(alloc: Global, writing: &mut Writing, byte: u8) -> Result<Next> {
    let meant = match byte {
        b'n' => b'\n',
        b'r' => b'\r',
        b't' => b'\t',
        b'v' => 11,
        b'f' => 12,
        b'0' => 0,
        b'\\' => b'\\',
        b';' => 0x1e,
        b'[' => return Ok(Next::Count(0)),
        b']' => {
            repeat(alloc, writing)?;
            return Ok(Next::Any);
        }
        _ => bail!("no short form"),
    };
    writing.text.push(meant)?;
    Ok(Next::Any)
}

fn counted(writing: &mut Writing, count: usize, byte: u8) -> Result<Next> {
    if byte == b':' {
        writing.open.push((writing.text.len(), count))?;
        return Ok(Next::Any);
    }
    if !byte.is_ascii_digit() {
        bail!("no number");
    }
    let digit = usize::from(byte.saturating_sub(b'0'));
    Ok(Next::Count(count.saturating_mul(10).saturating_add(digit)))
}

// Puts the part that was opened last after itself, until it stands as often as it is to.
fn repeat(alloc: Global, writing: &mut Writing) -> Result<()> {
    let (from, count) = writing.open.pop().context("nothing is open")?;
    let part = writing.text.get(from..).context("no part")?;
    let part = Vec::from_slice(alloc, part)?;
    for _ in 1..count {
        writing.text.extend_from_slice(&part)?;
    }
    Ok(())
}

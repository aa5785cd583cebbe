ghost use Rattle.std.specs.Prelude.{◌≡◌, ◌++◌, ◌∷◌, [], map, codes, count_by, IfOk, OnOk};
ghost use Rattle.std.specs.List.{list_any};
ghost use Rattle.std.specs.Str.{bytes_eq};
ghost use Rattle.px_text_report.specs.Firsts.{firsts, others};
ghost use Rattle.px_text_report.specs.Known.{known_of};
ghost use Rattle.px_text_report.specs.Drops as spec;
ghost use Rattle.px_text_report.specs.Places as places;

use crate::text::{name_at, put, put_number};
use px_base::ProcId;
use px_entry::{Cause, Gap, LongKind};
use px_pieces::Part;
use px_syntax::Name;
use px_terms::NoMemory;
use std::alloc::Global;

/// How many drops of a procedure have a cause, which is given as its text.
#[derive(Drop)]
pub struct Dropped {
    pub proc: ProcId,
    pub cause: Name,
    pub count: u64,
}

/// Adds what there is to say of the drops of a procedure: each different text of their causes, in the order in which they
/// are first there, with its number.
pub(crate) fn put_dropped(
    alloc: Global,
    dropped: &mut Vec<Dropped>,
    names: &[Name],
    words: &[Name],
    proc: ProcId,
    part: &Part,
) -> Result<(), NoMemory>
    ensures { OnOk result (dropped.new.items ≡ dropped.old.items ++ spec.dropped_of names.now words.now proc (known_of part.now)) }
{
    if let Part::Tabled { drops, .. } = part {
        let texts = cause_texts(alloc, names, words, drops.as_slice())?;
        let mut more = counts(alloc, proc, &texts)?;
        dropped.append(&mut more)?;
    }
    Ok(())
}

// The text of each drop's cause.
fn cause_texts(
    alloc: Global,
    names: &[Name],
    words: &[Name],
    drops: &[Gap],
) -> Result<Vec<Name>, NoMemory>
    ensures { IfOk result (λ texts. texts.items ≡ spec.cause_texts names.now words.now drops.now) }
{
    let mut texts = Vec::new(alloc);
    for gap in drops {
        texts.push(cause_text(alloc, names, words, &gap.cause)?)?;
    }
    Ok(texts)
}

// Each different text, with its number.
fn counts(alloc: Global, proc: ProcId, texts: &[Name]) -> Result<Vec<Dropped>, NoMemory>
    ensures { IfOk result (λ counts. counts.items ≡ map (spec.counted proc texts.now) (firsts bytes_eq texts.now)) }
{
    let mut counts = Vec::new(alloc);
    for text in texts {
        put_count(alloc, &mut counts, proc, texts, text)?;
    }
    Ok(counts)
}

// Adds a text with its number, where it isn't there.
fn put_count(
    alloc: Global,
    counts: &mut Vec<Dropped>,
    proc: ProcId,
    texts: &[Name],
    text: &Name,
) -> Result<(), NoMemory>
    ensures { OnOk result (counts.new.items ≡ counts.old.items ++ map (spec.counted proc texts.now) (others bytes_eq (map (λ d. d.cause) counts.old.items) (text.now ∷ []))) }
{
    if !has_cause(counts, text) {
        counts.push(Dropped {
            proc,
            cause: Name::from_slice(alloc, text.as_slice())?,
            count: count(texts, text),
        })?;
    }
    Ok(())
}

// Whether a text is there.
fn has_cause(counts: &[Dropped], text: &Name) -> bool
    ensures { result ≡ list_any (bytes_eq text.now) (map (λ d. d.cause) counts.now) }
{
    for one in counts {
        if is_same_text(text, &one.cause) {
            return true;
        }
    }
    false
}

fn is_same_text(a: &Name, b: &Name) -> bool
    ensures { result ≡ bytes_eq a.now b.now }
{
    a.as_slice() == b.as_slice()
}

// How many of these texts are this one.
fn count(texts: &[Name], text: &Name) -> u64
    ensures { result ≡ count_by (bytes_eq text.now) texts.now }
{
    let mut count = 0;
    for other in texts {
        if is_same_text(text, other) {
            count += 1;
        }
    }
    count
}

// What is said of a cause.
fn cause_text(
    alloc: Global,
    names: &[Name],
    words: &[Name],
    cause: &Cause,
) -> Result<Name, NoMemory>
    ensures { IfOk result (λ text. text ≡ spec.cause_text names.now words.now cause.now) }
{
    let mut text = Vec::new(alloc);
    put_cause(alloc, &mut text, names, words, cause)?;
    Name::from_slice(alloc, &text)
}

fn put_cause(
    alloc: Global,
    out: &mut Vec<u8>,
    names: &[Name],
    words: &[Name],
    cause: &Cause,
) -> Result<(), NoMemory>
    ensures { OnOk result (out.new.items ≡ out.old.items ++ spec.cause_text names.now words.now cause.now) }
{
    match cause {
        Cause::Undecided(_) => put(out, b"undecided"),
        Cause::Nodes(count) => put_spent(alloc, out, b"nodes ", *count),
        Cause::Paths(count) => put_spent(alloc, out, b"paths ", *count),
        Cause::Long(kind) => put(out, long_text(*kind).as_bytes()),
        Cause::Unknown(proc) => put_named(out, b"unknown callee ", names, *proc, b""),
        Cause::Cycle(proc) => put_named(out, b"cycle through ", names, *proc, b""),
        Cause::Dropped(proc) => put_named(out, b"callee ", names, *proc, b" dropped paths"),
        Cause::LeftOut(proc) => put_named(out, b"callee ", names, *proc, b" left out"),
        Cause::Outside(word) => put_outside(out, words, *word),
    }
}

fn put_outside(out: &mut Vec<u8>, words: &[Name], word: u32) -> Result<(), NoMemory>
    ensures { OnOk result (out.new.items ≡ out.old.items ++ (codes "outside " ++ places.name_at words.now word)) }
{
    put(out, b"outside ")?;
    put(out, name_at(words, word as usize))
}

fn put_spent(alloc: Global, out: &mut Vec<u8>, what: &[u8], count: u32) -> Result<(), NoMemory>
    ensures { OnOk result (out.new.items ≡ out.old.items ++ spec.spent_text what.now count) }
{
    put(out, what)?;
    put_number(alloc, out, u64::from(count))?;
    put(out, b" spent")
}

fn put_named(
    out: &mut Vec<u8>,
    before: &[u8],
    names: &[Name],
    proc: ProcId,
    after: &[u8],
) -> Result<(), NoMemory>
    ensures { OnOk result (out.new.items ≡ out.old.items ++ spec.named_text before.now names.now proc after.now) }
{
    put(out, before)?;
    put(out, name_at(names, proc.0 as usize))?;
    put(out, after)
}

fn long_text(kind: LongKind) -> &'static str
    ensures { result.now ≡ spec.long_text kind }
{
    match kind {
        LongKind::Trace => "too long (trace)",
        LongKind::Steps => "too long (steps)",
        LongKind::Conjuncts => "too long (conjuncts)",
        LongKind::Atoms => "too long (atoms)",
        LongKind::Variables => "too long (variables)",
        LongKind::Term => "too long (term)",
    }
}

use crate::writing::{block_text, conjunct_text, content_text, contents_text, put_next};
use anyhow::{Result, bail};
use px_base::{Mark, Site};
use px_callgraph::{Alternative, State};
use px_entry::{Atom, Cause, Exit, Gap};
use px_terms::{Conj, Content, VarInfo};
use std::alloc::Global;
use std::fmt::Write;

/// A line for a command, and one for each alternative: its slots, what is new in its other lists, its blocks that
/// changed, each after its number, how often the body of each open loop was begun, and how many commands were. Of a
/// drop there is its cause, and how many marks it has.
pub fn text_of(
    alloc: Global,
    asked: &str,
    before: &State,
    found: &[Alternative],
) -> Result<String> {
    let mut out = format!(in alloc; "{asked}\n")?;
    if found.is_empty() {
        out.push_str("  none\n")?;
    }
    for alternative in found {
        let text = alternative_text(alloc, before, alternative)?;
        write!(out, "  {text}\n")?;
    }
    Ok(out)
}

fn alternative_text(alloc: Global, before: &State, found: &Alternative) -> Result<String> {
    match found {
        Alternative::Next(state) => state_text(alloc, "next", before, state),
        Alternative::Ends(state, exit, result) => end_text(alloc, before, state, *exit, result),
        Alternative::Cut(gap) => drop_text(alloc, gap),
        Alternative::Beyond => Ok(String::from_str(alloc, "beyond")?),
    }
}

/// The end of a procedure, and the state there.
pub fn end_text(
    alloc: Global,
    before: &State,
    state: &State,
    exit: Exit,
    value: &Option<Content>,
) -> Result<String> {
    let word = exit_text(alloc, exit)?;
    match value {
        None => state_text(alloc, word.as_str(), before, state),
        Some(content) => {
            let text = content_text(alloc, content)?;
            let word = format!(in alloc; "{word} {text}")?;
            state_text(alloc, word.as_str(), before, state)
        }
    }
}

fn exit_text(alloc: Global, exit: Exit) -> Result<String> {
    match exit {
        Exit::Ok => Ok(String::from_str(alloc, "ends")?),
        Exit::Error(kind, _) => Ok(format!(in alloc; "{kind:?}")?),
    }
}

/// The limit of a drop or the procedure that is called, and how many marks it has.
pub fn drop_text(alloc: Global, gap: &Gap) -> Result<String> {
    let why = cause_text(alloc, &gap.cause)?;
    Ok(format!(in alloc; "cut {why}; marks {}", gap.trace.len())?)
}

fn cause_text(alloc: Global, cause: &Cause) -> Result<String> {
    Ok(match cause {
        Cause::Long(kind) => format!(in alloc; "{kind:?}")?,
        Cause::Unknown(proc) => format!(in alloc; "Unknown {}", proc.0)?,
        Cause::Cycle(proc) => format!(in alloc; "Cycle {}", proc.0)?,
        Cause::Dropped(proc) => format!(in alloc; "Dropped {}", proc.0)?,
        Cause::LeftOut(proc) => format!(in alloc; "LeftOut {}", proc.0)?,
        Cause::Outside(word) => format!(in alloc; "Outside {word}")?,
        Cause::Undecided(_) | Cause::Nodes(_) | Cause::Paths(_) => bail!("no drop of a command"),
    })
}

/// A word, and what is known in a state and is new.
pub fn state_text(alloc: Global, word: &str, before: &State, state: &State) -> Result<String> {
    let mut out = String::from_str(alloc, word)?;
    put_known(alloc, before, state, &mut out)?;
    put_blocks(alloc, before, state, &mut out)?;
    put_course(alloc, before, state, &mut out)?;
    Ok(out)
}

// The slots, and what is new of variables and conjuncts.
fn put_known(alloc: Global, before: &State, state: &State, out: &mut String) -> Result<()> {
    let slots = contents_text(alloc, state.slots.as_slice())?;
    put_part(out, "slots", slots)?;
    let vars = new_variables(alloc, before.vars.len(), state.vars.as_slice())?;
    put_part(out, "variables", vars)?;
    let pure = new_conjuncts(alloc, before.pure.len(), state.pure.as_slice())?;
    put_part(out, "assumes", pure)
}

// The blocks that changed, of those that were found and of all.
fn put_blocks(alloc: Global, before: &State, state: &State, out: &mut String) -> Result<()> {
    let pre = changed_blocks(alloc, before.pre.as_slice(), state.pre.as_slice())?;
    put_part(out, "finds", pre)?;
    let atoms = changed_blocks(alloc, before.atoms.as_slice(), state.atoms.as_slice())?;
    put_part(out, "blocks", atoms)
}

// The new marks, the open loops, and how many commands were begun.
fn put_course(alloc: Global, before: &State, state: &State, out: &mut String) -> Result<()> {
    let marks = new_marks(alloc, before.trace.len(), state.trace.as_slice())?;
    put_part(out, "marks", marks)?;
    let loops = turns(alloc, state.loops.as_slice())?;
    put_part(out, "loops", loops)?;
    write!(out, "; steps {}", state.steps)?;
    Ok(())
}

fn put_part(out: &mut String, word: &str, text: String) -> Result<()> {
    if !text.is_empty() {
        write!(out, "; {word} {text}")?;
    }
    Ok(())
}

fn new_variables(alloc: Global, old: usize, vars: &[VarInfo]) -> Result<String> {
    let mut out = String::new(alloc);
    for (place, info) in vars.iter().enumerate() {
        if place >= old {
            let text = format!(in alloc; "{:?} {:?}", info.sort, info.value)?;
            put_next(&mut out, ", ", text.as_str())?;
        }
    }
    Ok(out)
}

fn new_conjuncts(alloc: Global, old: usize, pure: &[Conj]) -> Result<String> {
    let mut out = String::new(alloc);
    for (place, conjunct) in pure.iter().enumerate() {
        if place >= old {
            let text = conjunct_text(alloc, conjunct)?;
            put_next(&mut out, ", ", text.as_str())?;
        }
    }
    Ok(out)
}

fn new_marks(alloc: Global, old: usize, trace: &[Mark]) -> Result<String> {
    let mut out = String::new(alloc);
    for (place, mark) in trace.iter().enumerate() {
        if place >= old {
            let text = format!(in alloc; "{:?}", mark.kind)?;
            put_next(&mut out, " ", text.as_str())?;
        }
    }
    Ok(out)
}

fn changed_blocks(alloc: Global, old: &[Atom], atoms: &[Atom]) -> Result<String> {
    let mut out = String::new(alloc);
    for (place, atom) in atoms.iter().enumerate() {
        let text = block_text(alloc, atom)?;
        if !is_text_of(alloc, text.as_str(), old.get(place))? {
            let text = format!(in alloc; "{place}: {text}")?;
            put_next(&mut out, ", ", text.as_str())?;
        }
    }
    Ok(out)
}

// Whether there is such a block, and this is its text.
fn is_text_of(alloc: Global, text: &str, atom: Option<&Atom>) -> Result<bool> {
    match atom {
        Some(atom) => Ok(block_text(alloc, atom)?.as_str() == text),
        None => Ok(false),
    }
}

fn turns(alloc: Global, loops: &[(Site, u32)]) -> Result<String> {
    let mut out = String::new(alloc);
    for (_, made) in loops {
        let text = format!(in alloc; "{made}")?;
        put_next(&mut out, " ", text.as_str())?;
    }
    Ok(out)
}

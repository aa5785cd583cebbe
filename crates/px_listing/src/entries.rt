use crate::terms::{
    put_between, put_conjuncts, put_content, put_value, put_value_type, put_variable,
};
use px_base::{Kind, Mark};
use px_check::Checked;
use px_entry::{Atom, AtomState, Cause, Derivation, Entry, Exit, Gap, LongKind, Rule, Step};
use px_manifest::looks_manifest;
use px_syntax::Program;
use px_terms::{Content, Items, NoMemory, Sort, VarInfo};
use px_text_report::{name_at, put, put_mark_text, put_number, put_place};
use std::alloc::Global;

/// The entries of a table, in order, with their numbers and the steps that derive them.
pub fn put_entries(
    alloc: Global,
    out: &mut Vec<u8>,
    program: &Program,
    checked: &[Checked],
    derivations: &[Derivation],
) -> Result<(), NoMemory> {
    for (number, one) in checked.iter().enumerate() {
        let entry = one.entry();
        put(out, b" entry ")?;
        put_number(alloc, out, number as u64)?;
        put(out, b": ")?;
        put_exit(alloc, out, program, one)?;
        put_trace(alloc, out, program, entry.trace.as_slice())?;
        put_parts(alloc, out, entry)?;
        if let Some(derivation) = derivations.get(number) {
            put_steps(alloc, out, derivation.steps.as_slice())?;
        }
    }
    Ok(())
}

// `ok`, or the kind of the error and its place, and whether it looks manifest.
fn put_exit(
    alloc: Global,
    out: &mut Vec<u8>,
    program: &Program,
    checked: &Checked,
) -> Result<(), NoMemory> {
    match checked.entry().exit {
        Exit::Ok => put(out, b"ok\n"),
        Exit::Error(kind, site) => {
            put(out, kind_name(kind))?;
            put(out, b" at ")?;
            put_place(alloc, out, program.files.as_slice(), site)?;
            end_error(out, looks_manifest(checked))
        }
    }
}

fn end_error(out: &mut Vec<u8>, looks_manifest: bool) -> Result<(), NoMemory> {
    put(
        out,
        if looks_manifest {
            b" (manifest)\n"
        } else {
            b"\n"
        },
    )
}

fn kind_name(kind: Kind) -> &'static [u8] {
    match kind {
        Kind::NullDereference => b"NullDereference",
        Kind::UseAfterFree => b"UseAfterFree",
        Kind::DoubleFree => b"DoubleFree",
        Kind::UninitialisedRead => b"UninitialisedRead",
        Kind::DivisionByZero => b"DivisionByZero",
    }
}

// A line of the marks with their places.
fn put_trace(
    alloc: Global,
    out: &mut Vec<u8>,
    program: &Program,
    trace: &[Mark],
) -> Result<(), NoMemory> {
    put(out, b"  trace ")?;
    for (place, mark) in trace.iter().enumerate() {
        put_between(out, b" ", place)?;
        put_mark(alloc, out, program, *mark)?;
    }
    end_list(out, trace.is_empty())
}

// The text of a report with `_` for blanks.
fn put_mark(
    alloc: Global,
    out: &mut Vec<u8>,
    program: &Program,
    mark: Mark,
) -> Result<(), NoMemory> {
    let mut text = Vec::new(alloc);
    put_mark_text(&mut text, program.names.as_slice(), mark.kind)?;
    for byte in &text {
        out.push(if *byte == b' ' { b'_' } else { *byte })?;
    }
    put(out, b"@")?;
    put_place(alloc, out, program.files.as_slice(), mark.site)
}

// An empty list is `-`.
fn end_list(out: &mut Vec<u8>, is_empty: bool) -> Result<(), NoMemory> {
    put(out, if is_empty { b"-\n" } else { b"\n" })
}

// A line for each of the other parts of an entry.
fn put_parts(alloc: Global, out: &mut Vec<u8>, entry: &Entry) -> Result<(), NoMemory> {
    put_result(alloc, out, &entry.result)?;
    put_variables(alloc, out, entry.vars.as_slice())?;
    put(out, b"  pure ")?;
    put_conjuncts(alloc, out, entry.pure.as_slice())?;
    end_list(out, entry.pure.is_empty())?;
    put(out, b"  pre ")?;
    put_atoms(alloc, out, entry.pre.as_slice())?;
    put(out, b"  post ")?;
    put_atoms(alloc, out, entry.post.as_slice())?;
    put_model(alloc, out, entry)
}

fn put_result(alloc: Global, out: &mut Vec<u8>, value: &Option<Content>) -> Result<(), NoMemory> {
    put(out, b"  result ")?;
    match value {
        Some(content) => put_content(alloc, out, content)?,
        None => put(out, b"none")?,
    }
    put(out, b"\n")
}

fn put_variables(alloc: Global, out: &mut Vec<u8>, vars: &[VarInfo]) -> Result<(), NoMemory> {
    put(out, b"  vars ")?;
    for (number, info) in vars.iter().enumerate() {
        put_between(out, b", ", number)?;
        put(out, b"x")?;
        put_number(alloc, out, number as u64)?;
        put(out, sort_word(info.sort))?;
        put_value_type(alloc, out, info.value)?;
    }
    end_list(out, vars.is_empty())
}

fn sort_word(sort: Sort) -> &'static [u8] {
    match sort {
        Sort::Given => b" given ",
        Sort::Cell => b" cell ",
        Sort::Input => b" input ",
        Sort::Made => b" made ",
    }
}

fn put_atoms(alloc: Global, out: &mut Vec<u8>, atoms: &[Atom]) -> Result<(), NoMemory> {
    for (place, atom) in atoms.iter().enumerate() {
        put_between(out, b"; ", place)?;
        put_atom(alloc, out, atom)?;
    }
    end_list(out, atoms.is_empty())
}

// The variable of its place, the number of its type, and what is known of it.
fn put_atom(alloc: Global, out: &mut Vec<u8>, atom: &Atom) -> Result<(), NoMemory> {
    put_variable(alloc, out, atom.place)?;
    put(out, b":")?;
    put_number(alloc, out, u64::from(atom.block.0))?;
    match &atom.state {
        AtomState::Freed => put(out, b" freed"),
        AtomState::Live(cells) => put_cells(alloc, out, cells),
    }
}

fn put_cells(alloc: Global, out: &mut Vec<u8>, cells: &Items<Content>) -> Result<(), NoMemory> {
    put(out, b" live [")?;
    for (place, content) in cells.as_slice().iter().enumerate() {
        put_between(out, b", ", place)?;
        put_content(alloc, out, content)?;
    }
    put(out, b"]")
}

fn put_model(alloc: Global, out: &mut Vec<u8>, entry: &Entry) -> Result<(), NoMemory> {
    put(out, b"  model ")?;
    for (place, value) in entry.model.as_slice().iter().enumerate() {
        put_between(out, b", ", place)?;
        put_value(alloc, out, *value)?;
    }
    end_list(out, entry.model.is_empty())
}

// A line of the rules, each with its choices.
fn put_steps(alloc: Global, out: &mut Vec<u8>, steps: &[Step]) -> Result<(), NoMemory> {
    put(out, b"  steps ")?;
    for (place, step) in steps.iter().enumerate() {
        put_between(out, b" ", place)?;
        put(out, rule_name(step.rule))?;
        for choice in step.choices.as_slice() {
            put(out, b".")?;
            put_number(alloc, out, u64::from(*choice))?;
        }
    }
    end_list(out, steps.is_empty())
}

fn rule_name(rule: Rule) -> &'static [u8] {
    match rule {
        Rule::Assign => b"Assign",
        Rule::ReadWritten => b"ReadWritten",
        Rule::ReadUnwritten => b"ReadUnwritten",
        Rule::TestTrue => b"TestTrue",
        Rule::TestFalse => b"TestFalse",
        Rule::Unroll => b"Unroll",
        Rule::LeaveLoop => b"LeaveLoop",
        Rule::Load => b"Load",
        Rule::Store => b"Store",
        Rule::NullAccess => b"NullAccess",
        Rule::FreedAccess => b"FreedAccess",
        Rule::MissingLive => b"MissingLive",
        Rule::MissingFreed => b"MissingFreed",
        Rule::Alloc => b"Alloc",
        Rule::AllocNull => b"AllocNull",
        Rule::Free => b"Free",
        Rule::FreeTwice => b"FreeTwice",
        Rule::FreeNull => b"FreeNull",
        Rule::Input => b"Input",
        Rule::Call => b"Call",
        Rule::End => b"End",
        Rule::Divide => b"Divide",
        Rule::DivideZero => b"DivideZero",
    }
}

/// The drops of a table, in order.
pub fn put_drops(
    alloc: Global,
    out: &mut Vec<u8>,
    program: &Program,
    drops: &[Gap],
) -> Result<(), NoMemory> {
    for gap in drops {
        put(out, b" drop: ")?;
        put_cause(alloc, out, program, &gap.cause)?;
        put(out, b"\n")?;
        put_trace(alloc, out, program, gap.trace.as_slice())?;
    }
    Ok(())
}

fn put_cause(
    alloc: Global,
    out: &mut Vec<u8>,
    program: &Program,
    cause: &Cause,
) -> Result<(), NoMemory> {
    let names = program.names.as_slice();
    match cause {
        Cause::Undecided(hard) => {
            put(out, b"undecided {")?;
            put_conjuncts(alloc, out, hard.as_slice())?;
            put(out, b"}")
        }
        Cause::Nodes(count) => put_spent(alloc, out, b"nodes ", *count),
        Cause::Paths(count) => put_spent(alloc, out, b"paths ", *count),
        Cause::Long(kind) => put(out, long_text(*kind)),
        Cause::Unknown(proc) => {
            put(out, b"unknown callee ")?;
            put(out, name_at(names, proc.0 as usize))
        }
        Cause::Cycle(proc) => {
            put(out, b"cycle through ")?;
            put(out, name_at(names, proc.0 as usize))
        }
        Cause::Dropped(proc) => {
            put(out, b"callee ")?;
            put(out, name_at(names, proc.0 as usize))?;
            put(out, b" dropped paths")
        }
        Cause::LeftOut(proc) => {
            put(out, b"callee ")?;
            put(out, name_at(names, proc.0 as usize))?;
            put(out, b" left out")
        }
        Cause::Outside(word) => {
            put(out, b"outside ")?;
            put(out, name_at(program.words.as_slice(), *word as usize))
        }
    }
}

fn put_spent(alloc: Global, out: &mut Vec<u8>, what: &[u8], count: u32) -> Result<(), NoMemory> {
    put(out, what)?;
    put_number(alloc, out, u64::from(count))?;
    put(out, b" spent")
}

fn long_text(kind: LongKind) -> &'static [u8] {
    match kind {
        LongKind::Trace => b"too long (trace)",
        LongKind::Steps => b"too long (steps)",
        LongKind::Conjuncts => b"too long (conjuncts)",
        LongKind::Atoms => b"too long (atoms)",
        LongKind::Variables => b"too long (variables)",
        LongKind::Term => b"too long (term)",
    }
}

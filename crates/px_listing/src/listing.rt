ghost use Rattle.std.specs.Prelude.{[], All};
ghost use Rattle.px_syntax.specs.ProgramTree.{program_tree};
ghost use Rattle.px_truth.specs.Analysable.{IsAnalysable};

use crate::entries::{put_drops, put_entries};
use crate::terms::{put_between, put_value_type};
use px_base::Limits;
use px_check::Checked;
use px_checking::sort_by_kind;
use px_entry::Gap;
use px_findings::{Analyses, Exploration, analyses};
use px_pieces::Part;
use px_syntax::Program;
use px_terms::{BlockType, Domain, NoMemory, ValueType};
use px_text_report::{name_at, put, put_number};
use std::alloc::Global;

/// A line for each block type, and then for each kept procedure, in order, its table. The domains hold nothing, and stand
/// by rising kinds then.
pub fn listing(
    alloc: Global,
    program: &Program,
    limits: Limits,
    domains: &mut Vec<Box<dyn Domain>>,
) -> Result<Vec<u8>, NoMemory>
    requires program { IsAnalysable (program_tree program.now) }
    requires clear { All (λ b. holds b []) domains.old.items }
{
    let mut out = Vec::new(alloc);
    put_types(alloc, &mut out, program.types.as_slice())?;
    sort_by_kind(domains);
    let Analyses {
        findings,
        explorations,
    } = analyses(alloc, program, limits, domains)?;
    for (number, part) in findings.parts().iter().enumerate() {
        let exploration = explorations.as_slice().get(number);
        put_procedure(alloc, &mut out, program, number, part, exploration)?;
    }
    Ok(out)
}

fn put_types(alloc: Global, out: &mut Vec<u8>, types: &[BlockType]) -> Result<(), NoMemory> {
    for (number, block) in types.iter().enumerate() {
        put(out, b"type ")?;
        put_number(alloc, out, number as u64)?;
        put(out, b": ")?;
        put_block_type(alloc, out, block)?;
        put(out, b"\n")?;
    }
    Ok(())
}

fn put_block_type(alloc: Global, out: &mut Vec<u8>, block: &BlockType) -> Result<(), NoMemory> {
    match block {
        BlockType::One(value) => {
            put(out, b"one ")?;
            put_value_type(alloc, out, *value)
        }
        BlockType::Fields(values) => {
            put(out, b"fields ")?;
            put_fields(alloc, out, values.as_slice())
        }
        BlockType::Opaque => put(out, b"opaque"),
    }
}

fn put_fields(alloc: Global, out: &mut Vec<u8>, fields: &[ValueType]) -> Result<(), NoMemory> {
    for (place, value) in fields.iter().enumerate() {
        put_between(out, b", ", place)?;
        put_value_type(alloc, out, *value)?;
    }
    Ok(())
}

fn put_procedure(
    alloc: Global,
    out: &mut Vec<u8>,
    program: &Program,
    number: usize,
    part: &Part,
    exploration: Option<&Option<Exploration>>,
) -> Result<(), NoMemory> {
    put(out, b"procedure ")?;
    put(out, name_at(program.names.as_slice(), number))?;
    match (part, exploration) {
        (Part::Tabled { checked, drops }, Some(Some(found))) => put_table(
            alloc,
            out,
            program,
            checked.as_slice(),
            drops.as_slice(),
            found,
        ),
        _ => put(out, b": too large\n"),
    }
}

fn put_table(
    alloc: Global,
    out: &mut Vec<u8>,
    program: &Program,
    checked: &[Checked],
    drops: &[Gap],
    found: &Exploration,
) -> Result<(), NoMemory> {
    put(out, b": entries ")?;
    put_number(alloc, out, checked.len() as u64)?;
    put(out, b", drops ")?;
    put_number(alloc, out, drops.len() as u64)?;
    put(out, b", live prefixes ")?;
    put_number(alloc, out, found.live as u64)?;
    put(out, b"\n")?;
    put_entries(alloc, out, program, checked, found.derivations.as_slice())?;
    put_drops(alloc, out, program, drops)
}

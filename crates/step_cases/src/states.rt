use crate::parts::{counted, part_at, parts_of};
use anyhow::{Result, bail};
use case_texts::{conjunct, polynomial};
use px_base::{Limits, Mark, MarkKind, ProcId, Site};
use px_callgraph::{Callee, Job, State};
use px_core::Body;
use px_entry::{Atom, AtomState};
use px_terms::{BlockType, Conj, Content, Items, Place, TypeId, ValueType, Var, VarInfo};
use std::alloc::Global;

/// Where everything stands.
pub fn here() -> Site {
    Site {
        file: 0,
        line: 1,
        column: 1,
    }
}

/// A job whose procedure gives `void`, `int` or `node`, and has no commands, with what it knows of what it calls.
pub fn job(alloc: Global, word: &str, callees: Items<(ProcId, Callee)>) -> Result<Job> {
    let body = Body {
        slots: 4,
        parameters: Items::new(alloc),
        result: result(word)?,
        commands: Vec::new(alloc),
    };
    job_of(alloc, body, callees)
}

/// A job of a body. The block types are an `int`; a node, which has an `int` and a pointer to a node; and a struct
/// without a definition. A loop may make three turns.
pub fn job_of(alloc: Global, body: Body, callees: Items<(ProcId, Callee)>) -> Result<Job> {
    Ok(Job {
        proc: ProcId(0),
        body,
        types: types(alloc)?,
        callees,
        limits: Limits::new(3, 64, 10000)?,
        kinds: Items::new(alloc),
        ticket: 0,
    })
}

/// What a procedure gives: nothing, an `int`, or a pointer to a node, which is a block of the second type.
pub fn result(word: &str) -> Result<Option<ValueType>> {
    Ok(match word {
        "void" => None,
        "int" => Some(ValueType::Int),
        "node" => Some(ValueType::Pointer(TypeId(1))),
        _ => bail!("no result"),
    })
}

fn types(alloc: Global) -> Result<Items<BlockType>> {
    let mut fields = Items::new(alloc);
    fields.push(ValueType::Int)?;
    fields.push(ValueType::Pointer(TypeId(1)))?;
    let mut types = Items::new(alloc);
    types.push(BlockType::One(ValueType::Int))?;
    types.push(BlockType::Fields(fields))?;
    types.push(BlockType::Opaque)?;
    Ok(types)
}

/// The state of a line. After the word of the job come its variables, slots, conjuncts and blocks, and then how many
/// marks it has, how many commands were begun, and how often the body of each open loop was.
pub fn state(alloc: Global, parts: &[&str]) -> Result<State> {
    let mut state = empty_state(alloc);
    take_known(alloc, parts, &mut state)?;
    take_course(alloc, parts, &mut state)?;
    Ok(state)
}

fn empty_state(alloc: Global) -> State {
    State {
        slots: Items::new(alloc),
        vars: Items::new(alloc),
        pure: Items::new(alloc),
        pre: Items::new(alloc),
        atoms: Items::new(alloc),
        trace: Items::new(alloc),
        loops: Items::new(alloc),
        steps: 0,
    }
}

fn take_known(alloc: Global, parts: &[&str], state: &mut State) -> Result<()> {
    state.slots = Items::from_vec(contents(alloc, part_at(parts, 2)?)?);
    state.vars = Items::from_vec(variables(alloc, part_at(parts, 1)?)?);
    state.pure = Items::from_vec(conjuncts(alloc, part_at(parts, 3)?)?);
    state.atoms = Items::from_vec(blocks(alloc, part_at(parts, 4)?)?);
    Ok(())
}

fn take_course(alloc: Global, parts: &[&str], state: &mut State) -> Result<()> {
    let numbers = numbers(alloc, part_at(parts, 5)?)?;
    state.trace = Items::from_vec(marks(alloc, at(&numbers, 0))?);
    state.loops = Items::from_vec(loops(alloc, &numbers)?);
    state.steps = at(&numbers, 1);
    Ok(())
}

fn numbers(alloc: Global, text: &str) -> Result<Vec<u32>> {
    let mut numbers = Vec::new(alloc);
    for part in parts_of(alloc, text, ' ')? {
        numbers.push(part.parse()?)?;
    }
    Ok(numbers)
}

// A number of the list; 0 where it isn't said.
fn at(numbers: &[u32], place: usize) -> u32 {
    numbers.get(place).copied().unwrap_or(0)
}

fn marks(alloc: Global, count: u32) -> Result<Vec<Mark>> {
    let mut marks = Vec::new(alloc);
    for _ in 0..count {
        marks.push(Mark {
            kind: MarkKind::Access,
            site: here(),
        })?;
    }
    Ok(marks)
}

fn loops(alloc: Global, numbers: &[u32]) -> Result<Vec<(Site, u32)>> {
    let mut loops = Vec::new(alloc);
    for (place, made) in numbers.iter().enumerate() {
        if place > 1 {
            loops.push((here(), *made))?;
        }
    }
    Ok(loops)
}

/// Letters of variables, after how often they stand.
pub fn variables(alloc: Global, text: &str) -> Result<Vec<VarInfo>> {
    let (count, letters) = counted(text)?;
    let once = case_texts::variables(alloc, letters)?;
    let mut all = Vec::new(alloc);
    for _ in 0..count {
        for info in &once {
            all.push(*info)?;
        }
    }
    Ok(all)
}

/// Conjuncts with a `,` between them, each after how often it stands.
pub fn conjuncts(alloc: Global, text: &str) -> Result<Vec<Conj>> {
    let mut all = Vec::new(alloc);
    for part in parts_of(alloc, text, ',')? {
        let (count, said) = counted(part)?;
        for _ in 0..count {
            all.push(conjunct(alloc, said)?)?;
        }
    }
    Ok(all)
}

// Contents with a blank between them.
fn contents(alloc: Global, text: &str) -> Result<Vec<Content>> {
    let mut contents = Vec::new(alloc);
    for part in parts_of(alloc, text, ' ')? {
        contents.push(content(alloc, part)?)?;
    }
    Ok(contents)
}

/// Unwritten (`u`), null, the place of a variable (`@` and its number), a variable for a cell (`c` and its number), or a
/// polynomial.
pub fn content(alloc: Global, text: &str) -> Result<Content> {
    if let Some(x) = text.strip_prefix('@') {
        return Ok(Content::Place(Place::Var(Var(x.parse()?))));
    }
    if let Some(x) = text.strip_prefix('c') {
        return Ok(Content::Cell(Var(x.parse()?)));
    }
    Ok(match text {
        "u" => Content::Unwritten,
        "null" => Content::Place(Place::Null),
        _ => Content::Word(polynomial(alloc, text)?),
    })
}

/// Blocks with a `,` between them, each after how often it stands.
pub fn blocks(alloc: Global, text: &str) -> Result<Vec<Atom>> {
    let mut blocks = Vec::new(alloc);
    for part in parts_of(alloc, text, ',')? {
        let (count, said) = counted(part)?;
        for _ in 0..count {
            blocks.push(block(alloc, said)?)?;
        }
    }
    Ok(blocks)
}

// The number of the variable at which a block stands, that of its type, and `freed` or `live` with its cells.
fn block(alloc: Global, text: &str) -> Result<Atom> {
    let (x, rest) = text.split_once(' ').unwrap_or((text, ""));
    let (block, rest) = rest.split_once(' ').unwrap_or((rest, ""));
    let (word, cells) = rest.split_once(' ').unwrap_or((rest, ""));
    Ok(Atom {
        place: Var(x.parse()?),
        block: TypeId(block.parse()?),
        state: block_state(alloc, word, cells)?,
    })
}

fn block_state(alloc: Global, word: &str, cells: &str) -> Result<AtomState> {
    Ok(match word {
        "freed" => AtomState::Freed,
        "live" => AtomState::Live(Items::from_vec(contents(alloc, cells)?)),
        _ => bail!("no state of a block"),
    })
}

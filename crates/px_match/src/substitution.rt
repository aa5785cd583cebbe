ghost use Rattle.std.specs.Prelude.{◌≡◌, ◌+◌, ◌<◌, ◌^◌, [], ◌∷◌, ◌++◌, length, IfOk, OnOk};
ghost use Rattle.px_entry.specs.Contents.{variable_content};
ghost use Rattle.px_callgraph.specs.Renaming as spec;
ghost use Rattle.px_match.specs.Through.{cell_of};

use px_terms::{Content, Items, NoMemory, Place, Poly, Sort, ValueType, Var, VarInfo};
use std::alloc::Global;

/// Contents stand for the variables from the first on. `NoMemory` too where the numbers of variables don't
/// suffice.
pub fn put_from(
    substitution: &mut Vec<(Var, Content)>,
    first: u32,
    contents: &[Content],
) -> Result<(), NoMemory>
    ensures { OnOk result (substitution.new.items ≡ substitution.old.items ++ spec.stand_from first contents.now) }
{
    for i in 0..contents.len() {
        put(substitution, numbered(first, i)?, contents[i].copy()?)?;
    }
    Ok(())
}

// One more content that a variable stands for.
fn put(substitution: &mut Vec<(Var, Content)>, x: Var, content: Content) -> Result<(), NoMemory>
    ensures { OnOk result (substitution.new.items ≡ substitution.old.items ++ (x, content) ∷ []) }
{
    substitution.push((x, content))?;
    Ok(())
}

// The variable so many after another.
fn numbered(first: u32, behind: usize) -> Result<Var, NoMemory>
    ensures { IfOk result (λ x. x.0 ≡ first + behind) }
{
    if behind > (u32::MAX - first) as usize {
        return Err(NoMemory);
    }
    Ok(Var(first + behind as u32))
}

/// The contents of our block stand for the cell variables that those of theirs are.
pub fn put_cells(
    substitution: &mut Vec<(Var, Content)>,
    theirs: &[Content],
    ours: &[Content],
) -> Result<(), NoMemory>
    ensures { OnOk result (substitution.new.items ≡ substitution.old.items ++ spec.stand_cells theirs.now ours.now) }
{
    for i in 0..theirs.len() {
        if i >= ours.len() {
            return Ok(());
        }
        match cell_of(&theirs[i]) {
            Some(x) => put(substitution, x, ours[i].copy()?)?,
            None => return Ok(()),
        }
    }
    Ok(())
}

// The cell variable that a content is.
fn cell_of(content: &Content) -> Option<Var>
    ensures { result ≡ cell_of content.now }
{
    match content {
        Content::Cell(x) => Some(*x),
        _ => None,
    }
}

/// The entry's inputs and made blocks, of its variables, stand for new variables, whose numbers go on from the
/// first new one. `NoMemory` too where one of them has a number in the entry beyond 2^32.
pub fn put_new(
    alloc: Global,
    substitution: &mut Vec<(Var, Content)>,
    first_new: u32,
    vars: &[VarInfo],
) -> Result<(), NoMemory>
    requires { first_new + length (spec.new_variables vars.now) < 2 ^ 32 }
    ensures { OnOk result (substitution.new.items ≡ substitution.old.items ++ spec.stand_new 0 first_new vars.now) }
{
    let mut next = first_new;
    for x in 0..vars.len() {
        next = put_if_new(alloc, substitution, x, next, vars[x])?;
    }
    Ok(())
}

// One variable of the entry, where it is new; gives the number of the next new one.
fn put_if_new(
    alloc: Global,
    substitution: &mut Vec<(Var, Content)>,
    x: usize,
    next: u32,
    info: VarInfo,
) -> Result<u32, NoMemory>
    requires { next + length (spec.new_variables (info ∷ [])) < 2 ^ 32 }
    ensures pairs { OnOk result (substitution.new.items ≡ substitution.old.items ++ spec.stand_new x next (info ∷ [])) }
    ensures next { IfOk result (λ n. n ≡ next + length (spec.new_variables (info ∷ []))) }
{
    if !is_new(info) {
        return Ok(next);
    }
    put(
        substitution,
        numbered(0, x)?,
        variable_content(alloc, info.value, next)?,
    )?;
    Ok(next + 1)
}

// A variable as a written content.
fn variable_content(alloc: Global, value: ValueType, x: u32) -> Result<Content, NoMemory>
    ensures { IfOk result (λ content. content ≡ variable_content value x) }
{
    Ok(match value {
        ValueType::Int => Content::Word(Poly::var(alloc, Var(x))?),
        ValueType::Pointer(_) => Content::Place(Place::Var(Var(x))),
    })
}

// Whether a variable of the entry is new to the caller: an input, or a block that the callee made.
fn is_new(info: VarInfo) -> bool
    ensures { result ≡ spec.is_new info }
{
    matches!(info.sort, Sort::Input | Sort::Made)
}

/// The caller's variables with those of the entry that are new to it.
pub fn put_new_variables(vars: &mut Items<VarInfo>, theirs: &[VarInfo]) -> Result<(), NoMemory>
    ensures { OnOk result (vars.new ≡ vars.old ++ spec.new_variables theirs.now) }
{
    for info in theirs {
        put_variable(vars, *info)?;
    }
    Ok(())
}

fn put_variable(vars: &mut Items<VarInfo>, info: VarInfo) -> Result<(), NoMemory>
    ensures { OnOk result (vars.new ≡ vars.old ++ spec.new_variables (info ∷ [])) }
{
    if is_new(info) {
        vars.push(info)?;
    }
    Ok(())
}

/// How many variables of the entry are new to the caller. Takes no memory.
pub fn count_new(theirs: &[VarInfo]) -> usize
    ensures { result ≡ length (spec.new_variables theirs.now) }
{
    theirs.iter().filter(|info| is_new(**info)).count()
}

ghost use Rattle.std.specs.Prelude.{◌≡◌, ◌++◌, drop, map, option_map, OnOk};
ghost use Rattle.px_real_symbols.specs.Answers.{Gives};
ghost use Rattle.px_real_symbols.specs.Symbols.{seen};
ghost use Rattle.px_real_declarations.specs.Reading.{declaration_by};
ghost use Rattle.px_real_declarations.specs.HeldReading.{line_at, as_list, lines_at};
ghost use Rattle.px_real_declaring.specs.Items.{item_at};
ghost use Rattle.px_real_declaring.specs.Trees.{declaration_tree};

use px_real_declaring::Declaration;
use px_real_declaring::declarations::declaration;
use px_real_expressions::Terminal;
use px_real_symbols::TypeNames;
use px_real_symbols::fault::Fault;
use px_real_symbols::fronts::front;
use px_real_symbols::symbol::{Tokens, left};
use px_terms::NoMemory;
use std::alloc::Global;

// The declaration at this number, of members or another, and the number of the token after its semicolon;
// or among members none, behind a semicolon alone.
#[tactic(auto, unfolding(px_real_declarations::specs::HeldReading::line_at))]
fn line<T: TypeNames>(
    alloc: Global,
    on: Tokens,
    types: &T,
    members: bool,
    at: usize,
) -> Result<(Option<Declaration>, usize), Fault>
    ensures { Gives (seen on.entry) (λ x. (option_map (declaration_tree (seen on.entry)) x.0, drop x.1 (seen on.entry))) result (line_at members (declaration_by (T.named types.now) (item_at (T.named types.now) members)) (drop at (seen on.entry))) }
{
    if members {
        if let Some((_, next)) = front(Terminal::Semicolon, on, at) {
            return Ok((None, next));
        }
    }
    let (declaration, last) = declaration(alloc, on, types, members, at)?;
    let Some((_, after)) = front(Terminal::Semicolon, on, last) else {
        return Err(Fault::Wrong(last));
    };
    Ok((Some(declaration), after))
}

// With one more, if it is there.
fn put(all: &mut Vec<Declaration>, line: Option<Declaration>) -> Result<(), NoMemory>
    ensures { OnOk result (all.new.items ≡ all.old.items ++ as_list line) }
{
    if let Some(declaration) = line {
        all.push(declaration)?;
    }
    Ok(())
}

// The declarations from this number on, of members or others, each with its semicolon, and the number of the token after them.
pub fn lines<T: TypeNames>(
    alloc: Global,
    on: Tokens,
    types: &T,
    members: bool,
    start: usize,
) -> Result<(Vec<Declaration>, usize), Fault>
    ensures { Gives (seen on.entry) (λ x. (map (declaration_tree (seen on.entry)) x.0.items, drop x.1 (seen on.entry))) result (lines_at members (declaration_by (T.named types.now) (item_at (T.named types.now) members)) (drop start (seen on.entry))) }
{
    let mut all = Vec::new(alloc);
    let mut at = start;
    for _ in 0..left(on, start) {
        if at >= on.symbols.len() {
            return Ok((all, at));
        }
        let (line, after) = line(alloc, on, types, members, at)?;
        put(&mut all, line)?;
        at = after;
    }
    Ok((all, at))
}

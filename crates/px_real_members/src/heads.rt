ghost use Rattle.std.specs.Prelude.{◌≡◌, drop};
ghost use Rattle.px_real_symbols.specs.Answers.{Gives};
ghost use Rattle.px_real_symbols.specs.Symbols.{seen};
ghost use Rattle.px_real_declarations.specs.HeldReading.{head_at};
ghost use Rattle.px_real_declaring.specs.Items.{nesting_limit};
ghost use Rattle.px_real_members.specs.Trees.{head_tree};

use crate::lines::lines;
use crate::tree::Head;
use px_real_declaring::declarations::{NESTING_LIMIT, non_empty};
use px_real_declaring::declarators::declarator;
use px_real_declaring::specifiers::specifiers;
use px_real_symbols::TypeNames;
use px_real_symbols::fault::Fault;
use px_real_symbols::symbol::Tokens;
use std::alloc::Global;

// The head at this number, with all declarations behind it, and the number of the token after them.
#[tactic(auto, unfolding(px_real_declarations::specs::HeldReading::head_at))]
pub fn head<T: TypeNames>(
    alloc: Global,
    on: Tokens,
    types: &T,
    at: usize,
) -> Result<(Head, usize), Fault>
    ensures { Gives (seen on.entry) (λ x. (head_tree (seen on.entry) x.0, drop x.1 (seen on.entry))) result (head_at (T.named types.now) nesting_limit (drop at (seen on.entry))) }
{
    let (specifiers, next) = specifiers(alloc, on, types, at)?;
    let specifiers = non_empty(on, specifiers, next)?;
    let (declarator, next) = declarator(alloc, on, types, false, NESTING_LIMIT, next)?;
    let (declarations, after) = lines(alloc, on, types, false, next)?;
    Ok((
        Head {
            specifiers,
            declarator,
            declarations,
        },
        after,
    ))
}

ghost use Rattle.std.specs.Prelude.{◌≡◌, map, option_map, IfOk, [], All};
ghost use Rattle.std.specs.List.Sorted.{IsNonDecreasing};
ghost use Rattle.px_syntax.specs.ProgramTree.{program_tree};
ghost use Rattle.px_truth.specs.Analysable.{IsAnalysable};
ghost use Rattle.px_checking.specs.Kinds.{AreOwnKinds};
ghost use Rattle.px_rechecking.specs.Found.{IsKeptCheckOf};

use crate::files::KeptCheck;
use crate::found::found_with;
use crate::lines::line_asked;
use px_checking::{Rendered, put_back, render_found, sort_by_kind};
use px_keep::{Kept, Reused, reused_tables};
use px_syntax::Program;
use px_terms::{Domain, NoMemory};
use px_text_report::Form;
use std::alloc::Global;

/// The report on what is found out of a program as it is asked for, in this form, with the help of kept items and of these domains,
/// which help in the rising order of their kinds, and then stand as before.
pub(crate) fn check<W: Form>(
    alloc: Global,
    asked: &KeptCheck,
    items: &Kept<'_>,
    program: &Program,
    form: &W,
    domains: &mut Vec<Box<dyn Domain>>,
) -> Result<Rendered, NoMemory>
    requires program { IsAnalysable (program_tree program.now) }
    requires kinds { AreOwnKinds (map (λ b. number b) domains.old.items) }
    requires clear { All (λ b. holds b []) domains.old.items }
    ensures check { IfOk result (λ r. IsKeptCheckOf asked.now.limits (W.written form.now) asked.now.stats asked.now.more items.now (map (λ b. number b) domains.old.items) (program_tree program.now) r.text.items r.has_bug (option_map (λ v. v.items) r.line)) }
    ensures clear { All (λ b. holds b []) domains.new.items }
    ensures kinds { map (λ b. number b) domains.new.items ≡ map (λ b. number b) domains.old.items }
{
    let places = sort_by_kind(domains);
    let rendered = check_in_order(alloc, asked, items, program, form, domains);
    put_back(domains, places);
    rendered
}

// The same with the help of domains that stand by rising kinds.
fn check_in_order<W: Form>(
    alloc: Global,
    asked: &KeptCheck,
    items: &Kept<'_>,
    program: &Program,
    form: &W,
    domains: &mut Vec<Box<dyn Domain>>,
) -> Result<Rendered, NoMemory>
    requires program { IsAnalysable (program_tree program.now) }
    requires rising { IsNonDecreasing (map (λ b. number b) domains.old.items) }
    requires clear { All (λ b. holds b []) domains.old.items }
    ensures check { IfOk result (λ r. IsKeptCheckOf asked.now.limits (W.written form.now) asked.now.stats asked.now.more items.now (map (λ b. number b) domains.old.items) (program_tree program.now) r.text.items r.has_bug (option_map (λ v. v.items) r.line)) }
    ensures clear { All (λ b. holds b []) domains.new.items }
    ensures kinds { map (λ b. number b) domains.new.items ≡ map (λ b. number b) domains.old.items }
{
    reused_tables();
    let Reused { findings, used } = found_with(alloc, program, asked.limits, items, domains)?;
    let line = line_asked(alloc, asked.stats, used, &findings)?;
    render_found(alloc, asked.more, program, form, &findings, line)
}

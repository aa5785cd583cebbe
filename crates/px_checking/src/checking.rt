ghost use Rattle.std.specs.Prelude.{◌≡◌, length, map, option_map, IfOk, [], All};
ghost use Rattle.std.specs.List.Sorted.{IsNonDecreasing};
ghost use Rattle.px_syntax.specs.ProgramTree.{program_tree};
ghost use Rattle.px_truth.specs.Analysable.{IsAnalysable};
ghost use Rattle.px_checking.specs.Findings.{IsCheckOf, IsRendered};
ghost use Rattle.px_checking.specs.Ways.{pooled_way};
ghost use Rattle.px_checking.specs.Kinds.{AreOwnKinds};

use crate::after::put_after;
use crate::asked::{Check, More};
use crate::kinds::{put_back, sort_by_kind};
use crate::stats::line_asked;
use px_pieces::Findings;
use px_pool::{Link, Spawner};
use px_pooled::pooled_findings;
use px_syntax::Program;
use px_terms::{Domain, NoMemory};
use px_text_report::{Form, report_on};
use std::alloc::Global;
use std::sync::Wait;
use std::thread::Threads;

/// A report that is rendered, with what comes after it in the same output, whether it has a bug, and the line that is told after it,
/// if there is one.
#[derive(Drop)]
pub struct Rendered {
    pub text: Vec<u8>,
    pub has_bug: bool,
    pub line: Option<Vec<u8>>,
}

/// The report on what is found out of a program as it is asked for, in this form, with the help of these domains,
/// which help in the rising order of their kinds, and then stand as before.
pub fn check<R: Threads + Wait + Sync, S: Spawner, W: Form>(
    rt: &R,
    alloc: Global,
    asked: &Check,
    program: &Program,
    form: &W,
    spawner: &mut S,
    domains: &mut Vec<Box<dyn Domain>>,
) -> Result<Rendered, NoMemory>
    requires program { IsAnalysable (program_tree program.now) }
    requires kinds { AreOwnKinds (map (λ b. number b) domains.old.items) }
    requires clear { All (λ b. holds b []) domains.old.items }
    ensures check { IfOk result (λ r. IsCheckOf (pooled_way asked.now.limits (W.written form.now) asked.now.pool.workers asked.now.stats asked.now.more S.Link.Word.says (S.told spawner.old) (S.told spawner.new)) (map (λ b. number b) domains.old.items) (program_tree program.now) r.text.items r.has_bug (option_map (λ v. v.items) r.line)) }
    ensures ended { S.links spawner.new ≡ S.links spawner.old }
    ensures unasked { asked.now.pool.workers ≡ 0 → spawner.new ≡ spawner.old }
    ensures clear { All (λ b. holds b []) domains.new.items }
    ensures kinds { map (λ b. number b) domains.new.items ≡ map (λ b. number b) domains.old.items }
{
    let places = sort_by_kind(domains);
    let rendered = check_in_order(rt, alloc, asked, program, form, spawner, domains);
    put_back(domains, places);
    rendered
}

// The same with the help of domains that stand by rising kinds.
fn check_in_order<R: Threads + Wait + Sync, S: Spawner, W: Form>(
    rt: &R,
    alloc: Global,
    asked: &Check,
    program: &Program,
    form: &W,
    spawner: &mut S,
    domains: &mut Vec<Box<dyn Domain>>,
) -> Result<Rendered, NoMemory>
    requires program { IsAnalysable (program_tree program.now) }
    requires rising { IsNonDecreasing (map (λ b. number b) domains.old.items) }
    requires clear { All (λ b. holds b []) domains.old.items }
    ensures check { IfOk result (λ r. IsCheckOf (pooled_way asked.now.limits (W.written form.now) asked.now.pool.workers asked.now.stats asked.now.more S.Link.Word.says (S.told spawner.old) (S.told spawner.new)) (map (λ b. number b) domains.old.items) (program_tree program.now) r.text.items r.has_bug (option_map (λ v. v.items) r.line)) }
    ensures ended { S.links spawner.new ≡ S.links spawner.old }
    ensures unasked { asked.now.pool.workers ≡ 0 → spawner.new ≡ spawner.old }
    ensures clear { All (λ b. holds b []) domains.new.items }
    ensures kinds { map (λ b. number b) domains.new.items ≡ map (λ b. number b) domains.old.items }
{
    let Check { limits, pool, .. } = asked;
    let findings = pooled_findings(rt, alloc, program, *limits, pool, spawner, domains)?;
    let line = line_asked(alloc, asked.stats, &findings)?;
    render_found(alloc, asked.more, program, form, &findings, line)
}

/// The report on these findings of a program, in this form, with what is asked for after it; the line is told after both, if there is
/// one.
pub fn render_found<W: Form>(
    alloc: Global,
    more: More,
    program: &Program,
    form: &W,
    findings: &Findings,
    line: Option<Vec<u8>>,
) -> Result<Rendered, NoMemory>
    requires { length findings.now.parts ≡ length program.now.procedures }
    ensures { IfOk result (λ r. IsRendered (W.written form.now) more (program_tree program.now) findings.now r.text.items r.has_bug × (r.line ≡ line)) }
{
    let report = report_on(alloc, program, findings)?;
    let mut text = form.render(alloc, program, &report)?;
    put_after(alloc, &mut text, more, program, findings)?;
    Ok(Rendered {
        text,
        has_bug: !report.bugs.is_empty(),
        line,
    })
}

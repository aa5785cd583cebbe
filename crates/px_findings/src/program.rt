ghost use Rattle.std.specs.Prelude.{◌≡◌, ◌≤◌, [], None, length, map, replicate, IfOk, All};
ghost use Rattle.std.specs.List.{AllByRecursion};
ghost use Rattle.px_base.specs.Bounds.{most_parameters};
ghost use Rattle.px_syntax.specs.ProgramTree.{program_tree};
ghost use Rattle.px_pieces.specs.declared.findings.Part.TheVariants as part;
ghost use Rattle.px_findings.specs.Found.{AreFound, work_of};
ghost use Rattle.px_findings.specs.Bodies.{CallsNamed};
ghost use Rattle.px_findings.specs.Analyses.{AreAnalyses, AreBeside};
ghost use Rattle.px_pieces.specs.Found.{tables_in};

use crate::bodies::{Lowered, lower_all};
use crate::exploration::{Analyses, Exploration};
use crate::jobs::Shared;
use crate::kinds::kinds_of;
use crate::order::turns;
use crate::planning::plan_for;
use crate::progress::{Progress, make_part};
use px_base::Limits;
use px_pieces::{Findings, Part};
use px_syntax::Program;
use px_terms::{Domain, Items, NoMemory};
use std::alloc::Global;

/// What is found out of a program within these limits, with the help of these domains: a part for each kept procedure, in
/// order. Each is analysed after all that it calls below, and each entry of its table is checked by its derivation.
///
/// Apart from the analyses, and from the tables of callees, which are copied for each caller, the time is that of a sort
/// of the procedures, and linear in the commands, the names and the items that are left out.
pub fn findings(
    alloc: Global,
    program: &Program,
    limits: Limits,
    domains: &mut Vec<Box<dyn Domain>>,
) -> Result<Findings, NoMemory>
    requires few { AllByRecursion (λ p. length p.parameters ≤ most_parameters) (program_tree program.now).procedures }
    requires named { CallsNamed (program_tree program.now) }
    requires clear { All (λ b. holds b []) domains.old.items }
    ensures found { IfOk result (λ f. AreFound (program_tree program.now) limits (map (λ b. number b) domains.old.items) f) }
    ensures events { IfOk result (λ f. f.events ≡ []) }
    ensures clear { All (λ b. holds b []) domains.new.items }
    ensures kinds { map (λ b. number b) domains.new.items ≡ map (λ b. number b) domains.old.items }
{
    // (how a table was found is let go of before the next is made)
    Ok(analyses_of_first(alloc, program, limits, domains, 0)?.findings)
}

/// The same, and how each table was found. All derivations are kept.
pub fn analyses(
    alloc: Global,
    program: &Program,
    limits: Limits,
    domains: &mut Vec<Box<dyn Domain>>,
) -> Result<Analyses, NoMemory>
    requires few { AllByRecursion (λ p. length p.parameters ≤ most_parameters) (program_tree program.now).procedures }
    requires named { CallsNamed (program_tree program.now) }
    requires clear { All (λ b. holds b []) domains.old.items }
    ensures analyses { IfOk result (λ a. AreAnalyses (program_tree program.now) limits (map (λ b. number b) domains.old.items) a) }
    ensures events { IfOk result (λ a. a.findings.events ≡ []) }
    ensures clear { All (λ b. holds b []) domains.new.items }
    ensures kinds { map (λ b. number b) domains.new.items ≡ map (λ b. number b) domains.old.items }
{
    analyses_of_first(alloc, program, limits, domains, program.procedures.len())
}

// What is found out of a program, and how the tables of the first so many procedures were found.
fn analyses_of_first(
    alloc: Global,
    program: &Program,
    limits: Limits,
    domains: &mut Vec<Box<dyn Domain>>,
    many: usize,
) -> Result<Analyses, NoMemory>
    requires few { AllByRecursion (λ p. length p.parameters ≤ most_parameters) (program_tree program.now).procedures }
    requires named { CallsNamed (program_tree program.now) }
    requires clear { All (λ b. holds b []) domains.old.items }
    ensures found { IfOk result (λ a. AreFound (program_tree program.now) limits (map (λ b. number b) domains.old.items) a.findings) }
    ensures beside { IfOk result (λ a. AreBeside (work_of (program_tree program.now) limits (map (λ b. number b) domains.old.items)) (tables_in a.findings) a.findings.parts a.explorations) }
    ensures many { IfOk result (λ a. length a.explorations ≡ many) }
    ensures events { IfOk result (λ a. a.findings.events ≡ []) }
    ensures clear { All (λ b. holds b []) domains.new.items }
    ensures kinds { map (λ b. number b) domains.new.items ≡ map (λ b. number b) domains.old.items }
{
    let Lowered { bodies, large } = lower_all(alloc, program)?;
    let plan = plan_for(alloc, program, &bodies, &large)?;
    let order = turns(alloc, &plan, &large)?;
    let shared = Shared {
        types: program.types.copy(alloc)?,
        limits,
        kinds: kinds_of(alloc, domains)?,
    };
    let parts = no_parts(alloc, bodies.len())?;
    let explorations = no_explorations(alloc, many)?;
    let mut progress = Progress {
        bodies,
        parts,
        explorations,
        shared,
    };
    for place in 0..order.len() {
        make_part(alloc, &plan, &order, place, &mut progress, domains)?;
    }
    Ok(Analyses {
        findings: Findings::new(Items::from_vec(progress.parts), Items::new(alloc)),
        explorations: Items::from_vec(progress.explorations),
    })
}

// So many parts without a table.
fn no_parts(alloc: Global, many: usize) -> Result<Vec<Part>, NoMemory>
    ensures { IfOk result (λ parts. parts.items ≡ replicate many part.LeftOut) }
{
    let mut parts = Vec::with_capacity(alloc, many)?;
    for _place in 0..many {
        parts.push(Part::LeftOut)?;
    }
    Ok(parts)
}

// So many places for how a table was found.
fn no_explorations(alloc: Global, many: usize) -> Result<Vec<Option<Exploration>>, NoMemory>
    ensures { IfOk result (λ places. places.items ≡ replicate many None) }
{
    let mut places = Vec::with_capacity(alloc, many)?;
    for _place in 0..many {
        places.push(None)?;
    }
    Ok(places)
}

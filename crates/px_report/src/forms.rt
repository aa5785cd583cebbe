ghost use Rattle.std.specs.Prelude.{◌≡◌, true, length, IfOk};
ghost use Rattle.px_syntax.specs.ProgramTree.{program_tree};
ghost use Rattle.px_text_report.specs.Known.{known};
ghost use Rattle.px_text_report.specs.Reports.{report_on};
ghost use Rattle.px_report.specs.Json.{ReadsAs, report_object};
ghost use Rattle.px_report.specs.Forms.{form, rendered};

use crate::json::report_json;
use px_pieces::Findings;
use px_syntax::Program;
use px_terms::NoMemory;
use px_text_report::{Form, Report, report_on, report_text};
use std::alloc::Global;

/// The report on a program of which this was found out, as a text or in JSON.
pub fn render(
    alloc: Global,
    program: &Program,
    findings: &Findings,
    json: bool,
) -> Result<Vec<u8>, NoMemory>
    requires { length findings.now.parts ≡ length program.now.procedures }
    ensures form { IfOk result (λ v. v.items ≡ rendered json (program_tree program.now) (known findings.now)) }
    ensures reads_back { json ≡ true → IfOk result (λ v. ReadsAs v.items (report_object (program_tree program.now) (report_on (program_tree program.now) (known findings.now)))) }
{
    let report = report_on(alloc, program, findings)?;
    render_report(alloc, program, &report, json)
}

/// A report on a program, as a text or in JSON.
pub fn render_report(
    alloc: Global,
    program: &Program,
    report: &Report,
    json: bool,
) -> Result<Vec<u8>, NoMemory>
    ensures form { IfOk result (λ v. v.items ≡ form json (program_tree program.now) report.now) }
    ensures reads_back { json ≡ true → IfOk result (λ v. ReadsAs v.items (report_object (program_tree program.now) report.now)) }
{
    if json {
        report_json(alloc, program, report)
    } else {
        report_text(alloc, program, report)
    }
}

/// The form that is asked for.
#[derive(Clone, Copy)]
pub struct FormAsked {
    /// Whether it is JSON, and not text.
    pub json: bool,
}

impl Form for FormAsked {
    ghost written = { λ s. form s.json };

    fn render(
        &self,
        alloc: Global,
        program: &Program,
        report: &Report,
    ) -> Result<Vec<u8>, NoMemory> {
        render_report(alloc, program, report, self.json)
    }
}

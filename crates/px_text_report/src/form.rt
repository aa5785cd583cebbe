ghost use Rattle.std.specs.Prelude.{◌≡◌, IfOk};
ghost use Rattle.px_syntax.specs.ProgramTree.{program_tree};
ghost use Rattle.px_text_report.specs.Reports as spec;

use crate::reports::Report;
use crate::writing::report_text;
use px_syntax::Program;
use px_terms::NoMemory;
use std::alloc::Global;

/// A form in which reports are written. What asks for a report is handed one, so that a program compiles no form but its own.
pub trait Form {
    /// The bytes of a report on a program.
    ghost written: { Self → spec.Form };

    /// A report on a program, in this form.
    fn render(&self, alloc: Global, program: &Program, report: &Report) -> Result<Vec<u8>, NoMemory>
        ensures { IfOk result (λ v. v.items ≡ written self.now (program_tree program.now) report.now) };
}

/// The form of a text.
#[derive(Clone, Copy)]
pub struct TextForm;

impl Form for TextForm {
    ghost written = { λ s. spec.report_text };

    fn render(
        &self,
        alloc: Global,
        program: &Program,
        report: &Report,
    ) -> Result<Vec<u8>, NoMemory> {
        report_text(alloc, program, report)
    }
}

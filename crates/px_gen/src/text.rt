ghost use Rattle.std.specs.Prelude.{◌≡◌, ◌++◌, OnOk};
ghost use Rattle.std.specs.String.{string_bytes};
ghost use Rattle.px_gen.specs.Samples.{line, allocation, check, release_given, body_lines, lines, procedure_text};

use crate::kind::Kind;
use std::alloc::AllocError;

/// Adds a line.
pub fn put_line(text: &mut String, words: &str) -> Result<(), AllocError>
    ensures { OnOk result (string_bytes text.new ≡ string_bytes text.old ++ line words.now) }
{
    writeln!(text, "{words}")
}

/// Adds the procedure with a number.
pub fn put_procedure(
    text: &mut String,
    number: u32,
    kind: Kind,
    constant: u32,
) -> Result<(), AllocError>
    ensures { OnOk result (string_bytes text.new ≡ string_bytes text.old ++ procedure_text number kind constant) }
{
    writeln!(text, "void f{number}(int *p, int n) {{")?;
    put_body(text, kind, constant)?;
    put_line(text, "}")
}

// The lines of a body.
fn put_body(text: &mut String, kind: Kind, constant: u32) -> Result<(), AllocError>
    ensures { OnOk result (string_bytes text.new ≡ string_bytes text.old ++ lines (body_lines kind constant)) }
{
    match kind {
        Kind::Unchecked => {
            put_allocation(text)?;
            writeln!(text, "  *q = {constant};")?;
            put_line(text, "  free(q);")
        }
        Kind::Checked => {
            put_checked(text)?;
            writeln!(text, "  *q = {constant};")?;
            put_line(text, "  free(q);")
        }
        Kind::WritesFreed => {
            put_checked(text)?;
            put_line(text, "  free(q);")?;
            writeln!(text, "  *q = {constant};")
        }
        Kind::WritesGiven => {
            put_release_given(text)?;
            writeln!(text, "  *p = {constant};")
        }
        Kind::FreesGiven => writeln!(text, "  if (n == {constant}) free(p);"),
        Kind::Calls(callee) => {
            put_checked(text)?;
            writeln!(text, "  *q = {constant};")?;
            writeln!(text, "  f{callee}(q, {constant});")?;
            put_line(text, "  free(q);")
        }
    }
}

// A new block, and no further where it is null.
fn put_checked(text: &mut String) -> Result<(), AllocError>
    ensures { OnOk result (string_bytes text.new ≡ string_bytes text.old ++ (allocation ++ check)) }
{
    put_allocation(text)?;
    put_line(text, "  if (q == NULL) return;")
}

// A new block, or null.
fn put_allocation(text: &mut String) -> Result<(), AllocError>
    ensures { OnOk result (string_bytes text.new ≡ string_bytes text.old ++ allocation) }
{
    put_line(text, "  int *q = malloc(sizeof(int));")
}

// Frees the block that was given.
fn put_release_given(text: &mut String) -> Result<(), AllocError>
    ensures { OnOk result (string_bytes text.new ≡ string_bytes text.old ++ release_given) }
{
    put_line(text, "  free(p);")
}

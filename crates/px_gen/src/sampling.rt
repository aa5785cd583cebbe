ghost use Rattle.std.specs.Prelude.{◌≡◌, ◌++◌, OnOk, IfOk, IfErr};
ghost use Rattle.std.specs.String.{string_bytes};
ghost use Rattle.px_gen.specs.Procedures.{state_after_procedure};
ghost use Rattle.px_gen.specs.Range.{IsInRange, IsFaultOf};
ghost use Rattle.px_gen.specs.Samples.{procedure, sample_text};

use crate::GenFault;
use crate::draws::Draws;
use crate::kind::draw_procedure;
use crate::text::{put_line, put_procedure};
use std::alloc::{AllocError, Global};

/// The C program of n procedures, 1 to 1,000, that a start gives.
pub fn sample(alloc: Global, start: u64, n: u32) -> Result<Vec<u8>, GenFault>
    ensures text { IfOk result (λ v. v.items ≡ sample_text start n) }
    ensures range { IfOk result (λ v. IsInRange n) }
    ensures fault { IfErr result (λ e. IsFaultOf n e) }
{
    if !(1..=1_000).contains(&n) {
        return Err(GenFault::OutOfRange(n));
    }
    Ok(text_of(alloc, start, n)?)
}

// The program of any number of procedures.
fn text_of(alloc: Global, start: u64, n: u32) -> Result<Vec<u8>, AllocError>
    ensures { IfOk result (λ v. v.items ≡ sample_text start n) }
{
    let mut text = String::new(alloc);
    put_line(&mut text, "#include <stdlib.h>")?;
    let mut draws = Draws::new(start);
    for number in 0..n {
        put_drawn(&mut text, &mut draws, number)?;
    }
    Ok(text.into_bytes())
}

// Draws the procedure with a number, and adds it.
fn put_drawn(text: &mut String, draws: &mut Draws, number: u32) -> Result<(), AllocError>
    ensures text { OnOk result (string_bytes text.new ≡ string_bytes text.old ++ procedure number draws.old.state) }
    ensures state { draws.new.state ≡ state_after_procedure number draws.old.state }
{
    let (kind, constant) = draw_procedure(draws, number);
    put_procedure(text, number, kind, constant)
}

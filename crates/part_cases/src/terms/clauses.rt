use anyhow::{Result, bail};
use case_texts::conjuncts;
use px_cnf::{CnfFault, translate};
use std::alloc::Global;
use std::fmt::Write;

/// What clauses conjuncts have: how many variables and clauses, and where the word of each variable begins; or why they
/// have none, `form` with a place or `large` with a number.
pub fn clauses(alloc: Global, text: &str) -> Result<String> {
    let conjuncts = conjuncts(alloc, text)?;
    if conjuncts.len() > 1000 {
        bail!("too many conjuncts");
    }
    let mut out = String::new(alloc);
    match translate(alloc, &conjuncts) {
        Ok(cnf) => {
            write!(
                out,
                "variables {}, clauses {}",
                cnf.variables,
                cnf.clauses.len()
            )?;
            for (x, first) in cnf.bits.as_slice() {
                write!(out, ", {} at {first}", x.0)?;
            }
        }
        Err(CnfFault::Form(place)) => write!(out, "form {place}")?,
        Err(CnfFault::Large(number)) => write!(out, "large {number}")?,
        Err(CnfFault::NoMemory) => bail!("out of memory"),
    }
    Ok(out)
}

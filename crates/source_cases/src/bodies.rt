use crate::programs::typed;
use anyhow::{Context, Result, bail};
use px_base::ProcId;
use px_core::{Body, Command};
use px_lower::{LowerFault, lower};
use px_syntax::Program;
use std::alloc::Global;
use std::fmt::Write;

// The lowered body of the first kept function.
fn first_body(alloc: Global, program: &Program) -> Result<Result<Body, LowerFault>> {
    if program.procedures.len() == 0 {
        bail!("no procedure");
    }
    Ok(lower(alloc, program, ProcId(0)))
}

/// The number of slots of the first kept function, its parameters and result, and its commands without their
/// sites.
pub fn lowered(alloc: Global, text: &str) -> Result<String> {
    let program = typed(alloc, &[text])??;
    let body = first_body(alloc, &program)??;
    let mut out = format!(in alloc; "slots {}", body.slots)?;
    for value in body.parameters.as_slice() {
        write!(out, ", {value:?}")?;
    }
    let result = body.result.context("no result")?;
    write!(out, " -> {result:?}:")?;
    write_commands(&body.commands, &mut out)?;
    Ok(out)
}

/// How many commands the first kept function has, or with how many it is too large.
pub fn size(alloc: Global, text: &str) -> Result<String> {
    let program = typed(alloc, &[text])??;
    match first_body(alloc, &program)? {
        Ok(body) => Ok(format!(in alloc; "{}", body.commands.len())?),
        Err(LowerFault::TooLarge(count)) => Ok(format!(in alloc; "too large: {count}")?),
        Err(LowerFault::NoMemory) => bail!("no memory"),
    }
}

#[cycle(command)]
fn write_commands(commands: &[Command], out: &mut String) -> Result<()> {
    for command in commands {
        write_command(command, out)?;
    }
    Ok(())
}

#[cycle(command)]
fn write_command(command: &Command, out: &mut String) -> Result<()> {
    match command {
        Command::Assign { to, op, a, b } => write!(out, " {to} = {op:?} {a:?} {b:?};")?,
        Command::Read { slot, .. } => write!(out, " read {slot};")?,
        Command::Test { to, how, a, b, .. } => write!(out, " {to} = {how:?} {a:?} {b:?};")?,
        Command::Load { to, at, .. } => write!(out, " {to} = load {at:?};")?,
        Command::Return { from: Some(from) } => write!(out, " return {from:?};")?,
        Command::If { slot, then, other } => {
            write!(out, " if {slot} {{")?;
            write_commands(then, out)?;
            write!(out, " }} else {{")?;
            write_commands(other, out)?;
            write!(out, " }}")?;
        }
        _ => bail!("a command that no case has"),
    }
    Ok(())
}

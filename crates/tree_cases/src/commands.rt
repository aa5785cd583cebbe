use anyhow::{Result, bail};
use px_base::{ProcId, Site};
use px_core::Command;
use px_lower::{LowerFault, lower};
use px_syntax::Program;
use std::alloc::Global;
use std::fmt::Write;

/// A line for each function: how many slots it has, and its commands, each with the place of its marks and its error.
pub fn lowered(alloc: Global, program: &Program) -> Result<String> {
    let mut out = String::new(alloc);
    for number in 0..program.procedures.len() {
        write_body(alloc, program, ProcId(u32::try_from(number)?), &mut out)?;
    }
    Ok(out)
}

fn write_body(alloc: Global, program: &Program, proc: ProcId, out: &mut String) -> Result<()> {
    if proc.0 as usize >= program.procedures.len() {
        bail!("no such function");
    }
    match lower(alloc, program, proc) {
        Ok(body) => {
            write!(out, "slots {}:", body.slots)?;
            write_commands(&body.commands, out)?;
            write!(out, "\n")?;
        }
        Err(LowerFault::TooLarge(count)) => write!(out, "too large: {count}\n")?,
        Err(LowerFault::NoMemory) => bail!("no memory"),
    }
    Ok(())
}

#[cycle(command)]
fn write_commands(commands: &[Command], out: &mut String) -> Result<()> {
    for command in commands {
        write_command(command, out)?;
    }
    Ok(())
}

#[cycle(command)]
fn write_command(command: &Command, out: &mut String) -> Result<()> {
    match command {
        Command::If { slot, then, other } => {
            write!(out, " if {slot} {{")?;
            write_commands(then, out)?;
            write!(out, " }} else {{")?;
            write_commands(other, out)?;
            write!(out, " }}")?;
            Ok(())
        }
        Command::Loop {
            site,
            head,
            body,
            step,
        } => {
            write!(out, " loop")?;
            write_place(*site, out)?;
            write!(out, " {{")?;
            write_commands(head, out)?;
            write!(out, " }} do {{")?;
            write_commands(body, out)?;
            write!(out, " }} step {{")?;
            write_commands(step, out)?;
            write!(out, " }}")?;
            Ok(())
        }
        _ => write_simple(command, out),
    }
}

// The end of a command that has a place.
fn write_place(site: Site, out: &mut String) -> Result<()> {
    write!(out, " @{}", site.column)?;
    Ok(())
}

fn end_at(site: Site, out: &mut String) -> Result<()> {
    write_place(site, out)?;
    write!(out, ";")?;
    Ok(())
}

// Those without commands in them.
fn write_simple(command: &Command, out: &mut String) -> Result<()> {
    match command {
        Command::Assign { to, op, a, b } => write!(out, " {to} = {op:?} {a:?} {b:?};")?,
        Command::Unset { to } => write!(out, " unset {to};")?,
        Command::Return { from: None } => write!(out, " return;")?,
        Command::Return { from: Some(from) } => write!(out, " return {from:?};")?,
        Command::Leave => write!(out, " leave;")?,
        Command::Break => write!(out, " break;")?,
        Command::Continue => write!(out, " continue;")?,
        _ => write_placed(command, out)?,
    }
    Ok(())
}

// Those with a place.
fn write_placed(command: &Command, out: &mut String) -> Result<()> {
    match command {
        Command::Read { slot, site } => {
            write!(out, " read {slot}")?;
            end_at(*site, out)
        }
        Command::Test {
            to,
            how,
            a,
            b,
            site,
        } => {
            write!(out, " {to} = {how:?} {a:?} {b:?}")?;
            end_at(*site, out)
        }
        Command::Stop { word, site } => {
            write!(out, " stop {word}")?;
            end_at(*site, out)
        }
        Command::Divide { to, a, b, site } => {
            write!(out, " {to} = divide {a:?} {b:?}")?;
            end_at(*site, out)
        }
        Command::Input { to, site } => {
            write!(out, " {to} = input")?;
            end_at(*site, out)
        }
        Command::Call {
            to,
            proc,
            arguments,
            site,
        } => {
            if let Some(to) = to {
                write!(out, " {to} =")?;
            }
            write!(out, " call {}", proc.0)?;
            for argument in arguments {
                write!(out, " {argument:?}")?;
            }
            end_at(*site, out)
        }
        _ => write_of_block(command, out),
    }
}

// Those of blocks.
fn write_of_block(command: &Command, out: &mut String) -> Result<()> {
    match command {
        Command::Load {
            to,
            at,
            field,
            block,
            site,
        } => {
            write!(out, " {to} = load {at:?} {}.{}", block.0, field.0)?;
            end_at(*site, out)
        }
        Command::Store {
            at,
            field,
            block,
            from,
            site,
        } => {
            write!(out, " store {at:?} {}.{} {from:?}", block.0, field.0)?;
            end_at(*site, out)
        }
        Command::Malloc { to, block, site } => {
            write!(out, " {to} = malloc {}", block.0)?;
            end_at(*site, out)
        }
        Command::Free { at, block, site } => {
            write!(out, " free {at:?} {}", block.0)?;
            end_at(*site, out)
        }
        _ => bail!("a command that isn't written"),
    }
}

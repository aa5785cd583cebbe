use anyhow::Result;
use px_core::{Body, Command, Operand, copy_body, size};
use std::alloc::Global;
use std::fmt::Write;

/// How large a body is; and of its copy how large it is, its slots, its parameters and result, how many commands stand in no
/// other, and what the last of them returns.
pub fn text_of(alloc: Global, body: &Body) -> Result<String> {
    let copy = copy_body(alloc, body)?;
    let mut out = format!(in alloc; "size {}, copy: size {}", size(body), size(&copy))?;
    write_frame(&copy, &mut out)?;
    write_commands(&copy.commands, &mut out)?;
    Ok(out)
}

fn write_frame(copy: &Body, out: &mut String) -> Result<()> {
    write!(out, ", slots {}", copy.slots)?;
    write!(
        out,
        ", {:?} -> {:?}",
        copy.parameters.as_slice(),
        copy.result
    )?;
    Ok(())
}

fn write_commands(commands: &[Command], out: &mut String) -> Result<()> {
    write!(out, ", {} commands", commands.len())?;
    if let Some(slot) = returned(commands) {
        write!(out, ", returns {slot}")?;
    }
    Ok(())
}

// The slot that the last command returns.
fn returned(commands: &[Command]) -> Option<u32> {
    match commands.last() {
        Some(
            Command::Return {
                from: Some(Operand::Slot(slot)),
            },
        ) => Some(*slot),
        _ => None,
    }
}

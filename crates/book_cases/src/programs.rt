ghost use Rattle.std.specs.Prelude.{◌≡◌, ◌<◌, map, length, IfOk};
ghost use Rattle.std.specs.List.{list_all};
ghost use Rattle.px_core.specs.CommandTree.{command_tree, commands_of};
ghost use Rattle.px_callgraph.specs.CallGraphs.{bodies_in, IsGraphOf};
ghost use Rattle.book_cases.specs.Calls.{is_call, are_calls, is_body_of_calls};

use anyhow::{Context, Result, bail};
use px_base::{ProcId, Site};
use px_callgraph::Graph;
use px_core::{Body, Command};
use px_terms::Items;
use std::alloc::Global;

/// What each procedure of a program calls, and which are left out.
#[derive(Drop)]
pub struct Program {
    pub calls: Vec<Vec<u32>>,
    pub out: Vec<ProcId>,
}

/// A procedure in each of the words: its number, a `>`, and the numbers of what it calls, with a `+` between them. After
/// `out` stand the numbers of those that are left out.
pub fn program_of(alloc: Global, text: &str) -> Result<Program> {
    let mut calls = Vec::new(alloc);
    let mut out = Vec::new(alloc);
    let mut all_read = false;
    for word in text.trim().split(' ') {
        if word == "out" {
            all_read = true;
        } else if all_read {
            out.push(ProcId(word.parse()?))?;
        } else {
            let (number, called) = word.split_once('>').context("no procedure")?;
            if number.parse::<usize>()? != calls.len() {
                bail!("another number");
            }
            calls.push(numbers(alloc, called)?)?;
        }
    }
    Ok(Program { calls, out })
}

fn numbers(alloc: Global, text: &str) -> Result<Vec<u32>> {
    let mut numbers = Vec::new(alloc);
    if !text.is_empty() {
        for word in text.split('+') {
            numbers.push(word.parse()?)?;
        }
    }
    Ok(numbers)
}

/// The bodies of a program: its calls, one after another.
pub fn bodies(alloc: Global, program: &Program) -> Result<Items<Body>> {
    let mut bodies = Items::new(alloc);
    for called in &program.calls {
        bodies.push(body(alloc, called)?)?;
    }
    Ok(bodies)
}

fn body(alloc: Global, called: &[u32]) -> Result<Body> {
    let mut commands = Vec::new(alloc);
    for number in called {
        commands.push(Command::Call {
            to: None,
            proc: ProcId(*number),
            arguments: Vec::new(alloc),
            site: Site {
                file: 0,
                line: 1,
                column: 1,
            },
        })?;
    }
    Ok(Body {
        slots: 1,
        parameters: Items::new(alloc),
        result: None,
        commands,
    })
}

/// The call graph of bodies that only call, where all that they call is a kept procedure or a name after these.
pub fn graph(alloc: Global, program: &Program, bodies: &[Body], kept: u32) -> Result<Graph>
    requires { length bodies.now ≡ kept }
    ensures size { IfOk result (λ g. length g ≡ kept) }
    ensures graph { IfOk result (λ g. IsGraphOf (bodies_in bodies.now) g) }
{
    let names = names(program);
    if !are_of_calls(bodies, names) {
        bail!("another command");
    }
    Ok(Graph::new(alloc, bodies, kept, names)?)
}

// One above the largest number that is called.
fn names(program: &Program) -> u32 {
    let mut names = 0;
    for called in &program.calls {
        for number in called {
            names = number.saturating_add(1).max(names);
        }
    }
    names
}

fn are_of_calls(bodies: &[Body], names: u32) -> bool
    ensures { result ≡ list_all (is_body_of_calls names) bodies.now }
{
    for body in bodies {
        if !are_calls(&body.commands, names) {
            return false;
        }
    }
    true
}

// Whether each command is a call, and what it calls has a number below `names`.
fn are_calls(commands: &[Command], names: u32) -> bool
    ensures { result ≡ are_calls names (commands_of (map command_tree commands.now)) }
{
    for command in commands {
        if !is_call(command, names) {
            return false;
        }
    }
    true
}

#[tactic(auto, using(px_core::proofs::CommandEquations::trees))]
fn is_call(command: &Command, names: u32) -> bool
    ensures { result ≡ is_call names (command_tree command.now) }
{
    match command {
        Command::Call { proc, .. } => proc.0 < names,
        _ => false,
    }
}

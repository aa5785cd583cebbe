ghost use Rattle.std.specs.Prelude.{◌≡◌, [], ◌∷◌, codes, IfOk};
ghost use Rattle.std.specs.Process.{command_program, command_args};

use px_terms::NoMemory;
use std::alloc::Global;
use std::process::{Command, Stdio};

/// The command that runs a program as a worker, over two pipes. Its standard error is let go of: this process's own has the
/// lines of this process alone.
pub fn worker_command(alloc: Global, program: &str) -> Result<Command, NoMemory>
    ensures program { IfOk result (λ c. command_program c ≡ program.now) }
    ensures words { IfOk result (λ c. command_args c ≡ codes "worker" ∷ []) }
{
    let mut command = Command::new(alloc, program)?;
    command.arg("worker")?;
    command.stdin(Stdio::piped());
    command.stdout(Stdio::piped());
    command.stderr(Stdio::null());
    Ok(command)
}

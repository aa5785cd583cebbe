use anyhow::Result;
use std::alloc::Global;
use std::io::{Input, Print};

/// Reads the standard input line by line, and prints what `answer` says of each line that has a case, with a line feed
/// after it where it ends without one. Nothing is printed where it says nothing, as of a line that only sets up what the
/// cases after it are asked of. An empty line and one that begins with `#` are passed over.
pub fn answer_each<R: Input + Print, F: FnMut(&str) -> Result<Option<String>>>(
    rt: &R,
    alloc: Global,
    mut answer: F,
) -> Result<()>
    requires { F.IsAlwaysCallable answer }
{
    for line in rt.lines(alloc) {
        let line = line?;
        let case = line.as_str();
        if !case.is_empty() && !case.starts_with('#') {
            if let Some(said) = answer(case)? {
                print!(rt; "{said}")?;
                if !said.ends_with('\n') {
                    println!(rt)?;
                }
            }
        }
    }
    Ok(())
}

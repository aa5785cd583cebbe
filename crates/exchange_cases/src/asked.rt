ghost use Rattle.std.specs.Prelude.{◌≡◌, ◌⊎◌};

use anyhow::{Context, Result, bail};
use px_callgraph::Job;
use px_wire::{SHARED, Said, VERSION, decode};
use std::alloc::Global;

/// The bytes that hexadecimal digits say, two digits a byte.
pub fn bytes_of(alloc: Global, digits: &str) -> Result<Vec<u8>> {
    hex::decode(alloc, digits).ok().context("no bytes")
}

/// What the cases ask, and what scripts answer: the bytes of two messages. And the file of this program, which a case may ask.
#[derive(Drop)]
pub struct Asked {
    alloc: Global,
    own_file: String,
    request: Vec<u8>,
    reply: Vec<u8>,
}

impl Asked {
    pub fn new(alloc: Global, own_file: String) -> Asked {
        Asked {
            alloc,
            own_file,
            request: Vec::new(alloc),
            reply: Vec::new(alloc),
        }
    }

    /// The program of this name in a case: `itself` is this program.
    pub fn program<'a>(&'a self, name: &'a str) -> &'a str {
        if name == "itself" {
            self.own_file.as_str()
        } else {
            name
        }
    }

    /// Takes a line that has one of the two messages, and says whether it has.
    pub fn take(&mut self, line: &str) -> Result<bool> {
        let Some((word, digits)) = line.split_once(' ') else {
            return Ok(false);
        };
        match word {
            "request" => self.request = bytes_of(self.alloc, digits)?,
            "reply" => self.reply = bytes_of(self.alloc, digits)?,
            _ => return Ok(false),
        }
        Ok(true)
    }

    /// The job that is asked for.
    pub fn job(&self) -> Result<Job> {
        let Ok(message) = decode(self.alloc, &self.request) else {
            bail!("no message");
        };
        match message.into_said() {
            Said::Request { job } => Ok(job),
            _ => bail!("no request"),
        }
    }

    /// The version of that request, in which the cases ask.
    pub fn version(&self) -> u8
        ensures { (result ≡ 1) ⊎ (result ≡ 2) }
    {
        if self.request.get(1).copied() == Some(SHARED) {
            SHARED
        } else {
            VERSION
        }
    }

    /// The message that asks for it.
    pub fn request(&self) -> &[u8] {
        &self.request
    }

    /// The message that scripts answer.
    pub fn reply(&self) -> &[u8] {
        &self.reply
    }
}

ghost use Rattle.std.specs.Prelude.{◌≡◌, true, false, ◌+◌, ◌^◌, ◌<◌, ◌≤◌, ◌∷◌, length, slice_index, IfOk};
ghost use Rattle.std.specs.List.Sorted.{IsStrictlyIncreasing};
ghost use Rattle.px_lexer.specs.Places.{line_starts, lines_before, site_at};

use px_base::Site;
use std::alloc::{AllocError, Global};

// Where the lines of a file begin, but for the first, which begins at 0.
#[derive(Drop)]
pub struct Lines {
    pub file: u32,
    pub starts: Vec<u32>,
    ghost rising: { IsStrictlyIncreasing (0 ∷ starts.items) },
}

impl Lines {
    // The lines of a file with this number and these bytes.
    #[tactic(auto, unfolding(crate::specs::Places::line_starts))]
    pub fn new(alloc: Global, file: u32, source: &[u8]) -> Result<Lines, AllocError>
        requires { length source.now < 2 ^ 32 }
        ensures file { IfOk result (λ l. l.file ≡ file) }
        ensures starts { IfOk result (λ l. l.starts.items ≡ line_starts 0 source.now) }
    {
        let mut starts = Vec::new(alloc);
        for i in 0..source.len() {
            if source[i] == b'\n' {
                starts.push(i as u32 + 1)?;
            }
        }
        Ok(Lines { file, starts })
    }

    // How many lines after the first begin at a byte or before it.
    fn line(&self, at: u32) -> usize
        ensures exact { result ≡ lines_before self.now.starts.items at }
        ensures within { result ≤ length self.now.starts.items }
        ensures begun { slice_index (0 ∷ self.now.starts.items) result ≤ at }
        ensures few { result ≤ at }
    {
        self.starts.partition_point(|start| *start <= at)
    }

    // The same, where this line is looked at first.
    fn line_from(&self, near: u16, at: u32) -> usize
        ensures exact { result ≡ lines_before self.now.starts.items at }
        ensures within { result ≤ length self.now.starts.items }
        ensures begun { slice_index (0 ∷ self.now.starts.items) result ≤ at }
        ensures few { result ≤ at }
    {
        let near = near as usize;
        if self.is_on(near, at) {
            near
        } else {
            self.line(at)
        }
    }

    // Whether a byte stands on a line.
    fn is_on(&self, line: usize, at: u32) -> bool
        ensures exact { result ≡ true → line ≡ lines_before self.now.starts.items at }
        ensures within { result ≡ true → line ≤ length self.now.starts.items }
        ensures begun { result ≡ true → slice_index (0 ∷ self.now.starts.items) line ≤ at }
        ensures few { result ≡ true → line ≤ at }
    {
        if line > self.starts.len() {
            return false;
        }
        if self.start(line) > at {
            return false;
        }
        !self.has_begun(line, at)
    }

    // Whether the line after this one begins at a byte or before it.
    fn has_begun(&self, line: usize, at: u32) -> bool
        ensures { result ≡ false → line < length self.now.starts.items → at < slice_index self.now.starts.items line }
    {
        line < self.starts.len() && self.starts[line] <= at
    }

    // The line on which a byte stands, as it is found by going on from this one. No more than 65,535 lines are gone over.
    pub fn near(&self, from: u16, at: u32) -> u16 {
        for line in from..u16::MAX {
            if !self.has_begun(line as usize, at) {
                return line;
            }
        }
        u16::MAX
    }

    // Where a line begins.
    fn start(&self, line: usize) -> u32
        requires { line ≤ length self.now.starts.items }
        ensures { result ≡ slice_index (0 ∷ self.now.starts.items) line }
    {
        match line {
            0 => 0,
            _ => self.starts[line - 1],
        }
    }

    // Where a byte stands. This line is looked at first.
    pub fn site(&self, near: u16, at: u32) -> Site
        requires { at + 1 < 2 ^ 32 }
        ensures { result ≡ site_at self.now.file self.now.starts.items at }
    {
        let line = self.line_from(near, at);
        Site {
            file: self.file,
            line: line as u32 + 1,
            column: at - self.start(line) + 1,
        }
    }
}

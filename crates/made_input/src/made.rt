ghost use Rattle.std.specs.Prelude.{◌≡◌, ◌<◌, ◌≤◌, length, IsOk, IfOk, OnErr, Some};
ghost use Rattle.std.specs.Io.{ReadsAtMost};
ghost use Rattle.outside.specs.Bytes.{ReadTakes};
ghost use Rattle.outside.specs.Causes.{Rose, faults_after_read};
ghost use Rattle.made_input.specs.Made.{made};

use crate::draws::Draws;
use crate::line::Line;
use crate::ops::put_batch;
use crate::pieces::put_load;
use outside::{Failed, Source};
use std::alloc::Global;
use std::marker::Model;
use text_spec::OutOfMemory;

/// The input that is made from a number, which contracts see as the bytes to come. It holds one line at a time.
#[derive(Drop)]
pub struct MadeInput {
    line: Line,
    at: usize,
    draws: Draws,
    units: u32,
    lines_left: u32,
}

impl Model for MadeInput {
    ghost use Rattle.std.specs.Prelude.{◌≡◌, ◌≤◌, ◌<◌, ◌^◌, ◌++◌, ◌⊎◌, ℕ, List, length, drop};
    ghost use Rattle.made_input.specs.Made.{batch_lines, joined};

    ghost Value = { List ℕ };

    ghost view = { λ m. drop m.at m.line ++ joined (batch_lines m.units m.lines_left m.draws.state) };

    ghost invariant = { λ m. (m.at ≤ length m.line) × ((m.at < length m.line) ⊎ (m.lines_left ≡ 0)) × (16 < m.units) × (m.units < 10 ^ 5) };
}

impl MadeInput {
    /// The input of `lines` lines, at least 1, that is made from `number`. Takes the room of one line.
    pub fn new(alloc: Global, number: u32, lines: u32) -> Result<MadeInput, OutOfMemory>
        requires { 0 < lines }
        ensures { IfOk result (λ input. input ≡ made number lines) }
    {
        let mut line = Line::new(alloc)?;
        let mut draws = Draws {
            state: number as u64,
        };
        let units = put_load(&mut line, &mut draws);
        Ok(MadeInput {
            line,
            at: 0,
            draws,
            units,
            lines_left: lines - 1,
        })
    }
}

impl Source for MadeInput {
    ghost left = { λ left. Some left };

    ghost faults = { λ _. 0 };

    /// Gives what is left of a line, or as much of it as `buf` has room for. It never fails and takes no memory.
    fn read(&mut self, buf: &mut [u8]) -> Result<usize, Failed>
        requires { 0 < length buf.old }
        ensures bound { ReadsAtMost result buf.new }
        ensures bytes { ReadTakes (Some self.old) (Some self.new) result buf.new }
        ensures later { 0 ≤ 0 }
        ensures cause { OnErr result (Rose 0 0) }
        ensures counts { 0 ≡ faults_after_read result 0 }
        ensures succeeds { IsOk result }
    {
        let count = buf.len().min(self.line.len() - self.at);
        buf[..count].copy_from_slice(self.line.part(self.at, count));
        self.at += count;
        if self.at < self.line.len() || self.lines_left == 0 {
            return Ok(count);
        }
        self.line.clear();
        put_batch(&mut self.line, &mut self.draws, self.units);
        self.at = 0;
        self.lines_left -= 1;
        Ok(count)
    }
}

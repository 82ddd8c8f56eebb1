//! The summary of a made input: how long the input is, and the four lines.
ghost use Rattle.std.specs.Prelude.{◌≡◌, ◌+◌, ◌<◌, ◌≤◌, ◌++◌, length, IfOk, OnOk};
ghost use Rattle.made_input.specs.Made.{made};
ghost use Rattle.query_program.specs.Summary.{summary_line, summary_text, mark_of};

use crate::tally::Tally;
use crate::words::Made;
use made_input::MadeInput;
use made_input::laws::made_input_is_short;
use outside::Source;
use std::alloc::Global;
use text_spec::OutOfMemory;

/// How many bytes of a made input are read at once to count them.
const COUNTED: usize = 4096;

/// How many bytes an input has that is made: it is made once more, and counted.
pub(crate) fn length_of(alloc: Global, asked: Made) -> Result<u64, OutOfMemory>
    requires some { 0 < asked.lines }
    requires few { asked.lines ≤ 1000 }
    ensures { IfOk result (λ n. n ≡ length (made asked.number asked.lines)) }
{
    let mut input = MadeInput::new(alloc, asked.number, asked.lines)?;
    let mut buffer = [0u8; COUNTED];
    let mut total = 0u64;
    made_input_is_short();
    loop {
        let Ok(count) = input.read(&mut buffer) else {
            return Err(OutOfMemory);
        };
        if count == 0 {
            return Ok(total);
        }
        total += count as u64;
    }
}

/// Appends a line of the summary.
#[tactic(auto, unfolding(crate::specs::Summary::summary_line))]
fn put_line(out: &mut Vec<u8>, name: &[u8], number: u64) -> Result<(), OutOfMemory>
    ensures { OnOk result (out.new.items ≡ out.old.items ++ summary_line name.now number) }
{
    let mut buffer = itoa::Buffer::new();
    out.extend_from_slice(name)?;
    out.extend_from_slice(buffer.format(number).as_bytes())?;
    out.push(b'\n')?;
    Ok(())
}

/// The summary of an input of so many lines and bytes, whose answers were tallied.
#[tactic(auto, unfolding(crate::specs::Summary::summary_text))]
pub(crate) fn summary_text(
    alloc: Global,
    lines: u32,
    input_length: u64,
    tally: &Tally,
) -> Result<Vec<u8>, OutOfMemory>
    ensures { IfOk result (λ text. text.items ≡ summary_text lines input_length (length tally.now.written) (mark_of tally.now.written)) }
{
    let mut out = Vec::new(alloc);
    put_line(&mut out, b"lines ", lines as u64)?;
    put_line(&mut out, b"input ", input_length)?;
    put_line(&mut out, b"output ", tally.count())?;
    put_line(&mut out, b"mark ", tally.mark() as u64)?;
    Ok(out)
}

ghost use Rattle.std.specs.Prelude.{◌≡◌, ◌+◌, ◌<◌, ◌≤◌, length, ◌++◌, ◌⊎◌, [], Some, IfOk, OnOk, IsErrOf};
ghost use Rattle.memchr.specs.Find.{IsFirstByte, is_byte};
ghost use Rattle.outside.specs.Bytes.{AppendsPrefix};
ghost use Rattle.outside.specs.Causes.{Rose};
ghost use Rattle.query_lines.specs.Replies.{IsShown};
ghost use Rattle.query_session.specs.Values.{texts_of};
ghost use Rattle.query_program.specs.Whole.{IsWhole};
ghost use Rattle.query_program.specs.Answers.{answer, answer_line, answers_from, state_after_line};
ghost use Rattle.query_program.specs.Lines.{whole_lines};
ghost use Rattle.query_program.specs.Runs.{FirstDone, LineDone, LinesDone, SomeDone};
ghost use Rattle.query_program.specs.Writes.{IsWriteStopOf, Answered, AnsweredFirst};

use crate::limits::LINE_LIMIT;
use crate::line_buffer::LineBuffer;
use crate::output::{send, send_large};
use crate::stop::Stop;
use outside::{Gate, Sink};
use query_lines::{LineError, Refusal, Reply, append_reply, read_line};
use query_session::Session;
use std::alloc::Global;
use std::thread::Threads;
use text_spec::OutOfMemory;

/// Answers each whole line in the buffer and writes all replies.
///
/// Replies are gathered and written in large pieces, each of whole replies. Time linear in the lines and the replies.
pub(crate) fn answer_lines<'h, R: Threads + Sync, K: Sink, G: Gate>(
    rt: &R,
    alloc: Global,
    gate: &G,
    session: &mut Session<'h>,
    buffer: &mut LineBuffer,
    gathered: &mut Vec<u8>,
    sink: &mut K,
) -> Result<(), Stop>
    requires empty { gathered.old.items ≡ [] }
    requires short { length buffer.old.bytes ≤ LINE_LIMIT + 1 }
    requires whole { IsWhole session.old }
    ensures answered { OnOk result (Answered (texts_of session.old.values) (texts_of session.new.values) buffer.old.bytes buffer.new.bytes (K.written sink.old) (K.written sink.new)) }
    ensures empty { OnOk result (gathered.new.items ≡ []) }
    ensures begun { AppendsPrefix (K.written sink.old) (K.written sink.new) (answers_from (texts_of session.old.values) (whole_lines buffer.old.bytes)) }
    ensures stops { IsWriteStopOf result }
    ensures cause { IsErrOf result Stop.WriteFault → Rose (K.faults sink.old) (K.faults sink.new) }
    ensures still { IsErrOf result Stop.WriteFault ⊎ (K.faults sink.new ≡ K.faults sink.old) }
    ensures one_heap { session.new.pass.heap ≡ session.old.pass.heap }
    ensures whole { IsErrOf result Stop.OutOfMemory ⊎ IsWhole session.new }

    // What the lines did to the values and on the heap.
    ensures done { OnOk result (LinesDone (whole_lines buffer.old.bytes) session.old.values session.old.pass session.new.values session.new.pass) }
    ensures some { IsErrOf result Stop.OutOfMemory ⊎ SomeDone (whole_lines buffer.old.bytes) session.old.values session.old.pass session.new.values session.new.pass (K.written sink.old) (K.written sink.new) }
{
    'lines: while let Some(length) = buffer.first_line() {
        answer_first(rt, alloc, gate, session, buffer, length, gathered)?;
        send_large(sink, gathered)?;
    }
    send(sink, gathered)
}

/// Answers the first line in the buffer, of `line_length` bytes, and takes it off with its newline.
fn answer_first<'h, R: Threads + Sync, G: Gate>(
    rt: &R,
    alloc: Global,
    gate: &G,
    session: &mut Session<'h>,
    buffer: &mut LineBuffer,
    line_length: usize,
    gathered: &mut Vec<u8>,
) -> Result<(), OutOfMemory>
    requires first { IsFirstByte (is_byte 10) buffer.old.bytes (Some line_length) }
    requires short { length buffer.old.bytes ≤ LINE_LIMIT + 1 }
    requires whole { IsWhole session.old }
    ensures one_heap { session.new.pass.heap ≡ session.old.pass.heap }
    ensures whole { OnOk result (IsWhole session.new) }
    ensures answered { OnOk result (AnsweredFirst (texts_of session.old.values) (texts_of session.new.values) buffer.old.bytes buffer.new.bytes gathered.old.items gathered.new.items) }
    ensures done { OnOk result (FirstDone buffer.old.bytes buffer.new.bytes session.old.values session.old.pass session.new.values session.new.pass gathered.old.items gathered.new.items) }
{
    answer_line(
        rt,
        alloc,
        gate,
        session,
        buffer.front(line_length),
        gathered,
    )?;
    buffer.take_off(line_length + 1);
    Ok(())
}

/// Puts the reply to a line, and a newline, behind the replies that are gathered.
#[tactic(auto, unfolding(crate::specs::Answers::answer, crate::specs::Answers::state_after_line))]
pub(crate) fn answer_line<'h, R: Threads + Sync, G: Gate>(
    rt: &R,
    alloc: Global,
    gate: &G,
    session: &mut Session<'h>,
    line: &[u8],
    gathered: &mut Vec<u8>,
) -> Result<(), OutOfMemory>
    requires whole { IsWhole session.old }
    requires short { length line.now ≤ LINE_LIMIT }
    ensures reply { OnOk result (gathered.new.items ≡ gathered.old.items ++ answer (texts_of session.old.values) line.now) }
    ensures state { OnOk result ((texts_of session.new.values) ≡ state_after_line (texts_of session.old.values) line.now) }
    ensures one_heap { session.new.pass.heap ≡ session.old.pass.heap }
    ensures whole { OnOk result (IsWhole session.new) }
    ensures done { OnOk result (LineDone line.now session.old.values session.old.pass session.new.values session.new.pass) }
{
    let reply = reply_to(rt, alloc, gate, session, line)?;
    append_reply(alloc, gathered, &reply)?;
    gathered.push(b'\n')?;
    Ok(())
}

/// The reply to a line: what the session answers its command, or the refusal of a line that gives none.
#[tactic(auto, unfolding(crate::specs::Answers::answer_line))]
fn reply_to<'h, R: Threads + Sync, G: Gate>(
    rt: &R,
    alloc: Global,
    gate: &G,
    session: &mut Session<'h>,
    line: &[u8],
) -> Result<Reply, OutOfMemory>
    requires whole { IsWhole session.old }
    requires short { length line.now ≤ LINE_LIMIT }
    ensures reply { IfOk result (λ r. (r, (texts_of session.new.values)) ≡ answer_line (texts_of session.old.values) line.now) }
    ensures shown { IfOk result IsShown }
    ensures one_heap { session.new.pass.heap ≡ session.old.pass.heap }
    ensures whole { OnOk result (IsWhole session.new) }
    ensures done { OnOk result (LineDone line.now session.old.values session.old.pass session.new.values session.new.pass) }
{
    match read_line(alloc, line) {
        Ok(command) => session.step(alloc, rt, command, gate),
        Err(LineError::Syntax) => Ok(Reply::Refused(Refusal::Syntax)),
        Err(LineError::OutOfMemory) => Err(OutOfMemory),
    }
}

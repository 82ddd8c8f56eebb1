ghost use Rattle.std.specs.Prelude.{◌≡◌, ◌<◌, ◌≤◌, [], ◌∷◌, ◌⊎◌, length, IfOk, IfSome, OnOk, OnErr, IsErrOf};
ghost use Rattle.std.specs.Io.KnownBytes.{Appends, Keeps};
ghost use Rattle.outside.specs.Bytes.{AppendsPrefix};
ghost use Rattle.outside.specs.Causes.{Rose};
ghost use Rattle.query_session.specs.Values.{texts_of};
ghost use Rattle.query_program.specs.Whole.{IsWhole};
ghost use Rattle.query_program.specs.Answers.{answers_from};
ghost use Rattle.query_program.specs.Lines.{lines, less_empty_end};
ghost use Rattle.query_program.specs.Ends.{Ends, Probed, limit_stop};
ghost use Rattle.query_program.specs.Reads.{IsReadStopOf};
ghost use Rattle.query_program.specs.Runs.{LinesDone, SomeDone};
ghost use Rattle.query_program.specs.Writes.{IsWriteStopOf};

use crate::limits::{INPUT_LIMIT, LINE_LIMIT};
use crate::line_buffer::LineBuffer;
use crate::output::send;
use crate::replies::{answer_line, answer_lines};
use crate::stop::Stop;
use outside::{Failed, Gate, Sink, Source};
use query_session::Session;
use std::alloc::Global;
use std::thread::Threads;

/// Answers the lines of the source one after another, until it ends or a limit is passed.
///
/// Before each read every reply that is ready has been written. Time linear in the bytes read and the replies.
pub(crate) fn answer_stream<'h, R: Threads + Sync, S: Source, K: Sink, G: Gate>(
    rt: &R,
    alloc: Global,
    session: &mut Session<'h>,
    source: &mut S,
    sink: &mut K,
    gate: &G,
) -> Result<(), Stop>
    requires { IsWhole session.old }
    ensures ends { IfSome (S.left source.old) (Ends (texts_of session.old.values) (S.left source.new) (K.written sink.old) (K.written sink.new) result) }
    ensures read { IsErrOf result Stop.ReadFault → Rose (S.faults source.old) (S.faults source.new) }
    ensures write { IsErrOf result Stop.WriteFault → Rose (K.faults sink.old) (K.faults sink.new) }
    ensures source_still { IsErrOf result Stop.ReadFault ⊎ (S.faults source.new ≡ S.faults source.old) }
    ensures sink_still { IsErrOf result Stop.WriteFault ⊎ (K.faults sink.new ≡ K.faults sink.old) }
    ensures one_heap { session.new.pass.heap ≡ session.old.pass.heap }
    ensures whole { IsErrOf result Stop.OutOfMemory ⊎ IsWhole session.new }

    // What the lines did to the values and on the heap.
    ensures done { IfSome (S.left source.old) (λ input. IsErrOf result Stop.OutOfMemory
        ⊎ SomeDone (lines input) session.old.values session.old.pass session.new.values session.new.pass (K.written sink.old) (K.written sink.new)) }
{
    let mut buffer = LineBuffer::new(alloc)?;
    let mut gathered = Vec::new(alloc);
    let mut total = 0;
    'reads: while total < INPUT_LIMIT {
        let count = buffer.fill(source, INPUT_LIMIT - total)?;
        if count == 0 {
            return answer_last(rt, alloc, gate, session, &buffer, &mut gathered, sink);
        }
        total += count;
        if buffer.is_full_of_one_line() {
            return Err(Stop::LineTooLong);
        }
        answer_lines(rt, alloc, gate, session, &mut buffer, &mut gathered, sink)?;
    }
    match read_one(source)? {
        None => answer_last(rt, alloc, gate, session, &buffer, &mut gathered, sink),
        Some(byte) => Err(limit_passed(buffer.len(), byte)),
    }
}

/// Answers what stands behind the last newline, where it isn't empty.
fn answer_last<'h, R: Threads + Sync, K: Sink, G: Gate>(
    rt: &R,
    alloc: Global,
    gate: &G,
    session: &mut Session<'h>,
    buffer: &LineBuffer,
    gathered: &mut Vec<u8>,
    sink: &mut K,
) -> Result<(), Stop>
    requires empty { gathered.old.items ≡ [] }
    requires short { length buffer.now.bytes ≤ LINE_LIMIT }
    requires whole { IsWhole session.old }
    ensures answered { OnOk result (Appends (K.written sink.old) (K.written sink.new) (answers_from (texts_of session.old.values) (less_empty_end (buffer.now.bytes ∷ [])))) }
    ensures begun { AppendsPrefix (K.written sink.old) (K.written sink.new) (answers_from (texts_of session.old.values) (less_empty_end (buffer.now.bytes ∷ []))) }
    ensures stops { IsWriteStopOf result }
    ensures cause { IsErrOf result Stop.WriteFault → Rose (K.faults sink.old) (K.faults sink.new) }
    ensures still { IsErrOf result Stop.WriteFault ⊎ (K.faults sink.new ≡ K.faults sink.old) }
    ensures one_heap { session.new.pass.heap ≡ session.old.pass.heap }
    ensures whole { IsErrOf result Stop.OutOfMemory ⊎ IsWhole session.new }
    ensures done { IsErrOf result Stop.OutOfMemory ⊎ LinesDone (less_empty_end (buffer.now.bytes ∷ [])) session.old.values session.old.pass session.new.values session.new.pass }
{
    if buffer.len() == 0 {
        return Ok(());
    }
    answer_line(
        rt,
        alloc,
        gate,
        session,
        buffer.front(buffer.len()),
        gathered,
    )?;
    send(sink, gathered)
}

/// Reads one byte more than an input may have.
fn read_one<S: Source>(source: &mut S) -> Result<Option<u8>, Stop>
    ensures read { IfOk result (Probed (S.left source.old) (S.left source.new)) }
    ensures kept { OnErr result (Keeps (S.left source.old) (S.left source.new)) }
    ensures stops { IsReadStopOf result }
    ensures cause { OnErr result (Rose (S.faults source.old) (S.faults source.new)) }
    ensures still { IsErrOf result Stop.ReadFault ⊎ (S.faults source.new ≡ S.faults source.old) }
{
    let mut byte = [0u8; 1];
    match source.read(&mut byte) {
        Ok(0) => Ok(None),
        Ok(_) => Ok(Some(byte[0])),
        Err(Failed) => Err(Stop::ReadFault),
    }
}

/// Which limit the byte passes that comes after `INPUT_LIMIT` bytes, behind `pending` bytes of a line.
fn limit_passed(pending: usize, byte: u8) -> Stop
    ensures { result ≡ limit_stop pending byte }
{
    if pending == LINE_LIMIT && byte != b'\n' {
        Stop::LineTooLong
    } else {
        Stop::InputTooLong
    }
}

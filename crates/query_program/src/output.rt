ghost use Rattle.std.specs.Prelude.{◌≡◌, ◌⊎◌, [], OnOk, OnErr, IsErrOf};
ghost use Rattle.std.specs.Io.KnownBytes.{Appends};
ghost use Rattle.outside.specs.Bytes.{AppendsPrefix};
ghost use Rattle.outside.specs.Causes.{Rose};
ghost use Rattle.query_program.specs.Writes.{IsWriteStopOf, Sent};

use crate::limits::PIECE;
use crate::stop::Stop;
use outside::Sink;

/// Writes the gathered replies once they make a large piece, and else keeps them.
pub(crate) fn send_large<K: Sink>(sink: &mut K, gathered: &mut Vec<u8>) -> Result<(), Stop>
    ensures sent { OnOk result (Sent (K.written sink.old) (K.written sink.new) gathered.old.items gathered.new.items) }
    ensures begun { AppendsPrefix (K.written sink.old) (K.written sink.new) gathered.old.items }
    ensures stops { IsWriteStopOf result }
    ensures cause { OnErr result (Rose (K.faults sink.old) (K.faults sink.new)) }
    ensures still { IsErrOf result Stop.WriteFault ⊎ (K.faults sink.new ≡ K.faults sink.old) }
{
    if gathered.len() < PIECE {
        return Ok(());
    }
    send(sink, gathered)
}

/// Writes all gathered replies.
pub(crate) fn send<K: Sink>(sink: &mut K, gathered: &mut Vec<u8>) -> Result<(), Stop>
    ensures sent { OnOk result (Appends (K.written sink.old) (K.written sink.new) gathered.old.items) }
    ensures empty { OnOk result (gathered.new.items ≡ []) }
    ensures begun { AppendsPrefix (K.written sink.old) (K.written sink.new) gathered.old.items }
    ensures stops { IsWriteStopOf result }
    ensures cause { OnErr result (Rose (K.faults sink.old) (K.faults sink.new)) }
    ensures still { IsErrOf result Stop.WriteFault ⊎ (K.faults sink.new ≡ K.faults sink.old) }
{
    write_whole(sink, gathered)?;
    gathered.clear();
    Ok(())
}

/// Writes all bytes, or stops at the first fault.
fn write_whole<K: Sink>(sink: &mut K, bytes: &[u8]) -> Result<(), Stop>
    ensures sent { OnOk result (Appends (K.written sink.old) (K.written sink.new) bytes.now) }
    ensures begun { AppendsPrefix (K.written sink.old) (K.written sink.new) bytes.now }
    ensures stops { IsWriteStopOf result }
    ensures cause { OnErr result (Rose (K.faults sink.old) (K.faults sink.new)) }
    ensures still { IsErrOf result Stop.WriteFault ⊎ (K.faults sink.new ≡ K.faults sink.old) }
{
    let mut at = 0;
    while at < bytes.len() {
        match sink.write(&bytes[at..]) {
            Ok(0) => return Err(Stop::WriteFault),
            Ok(count) => at += count,
            Err(_) => return Err(Stop::WriteFault),
        }
    }
    Ok(())
}

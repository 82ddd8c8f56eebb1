use crate::faults::{Failed, raise};
use crate::writing::Sink;
use std::io::Write;
use std::marker::Model;

/// A sink over a writer of std. It tells what the writer tells of its bytes: nothing over real files.
#[derive(Drop)]
pub struct IoSink<W: Write + Drop> {
    writer: W,
    fault_count: u64,
}

impl<W: Write + Drop> Model for IoSink<W> {
    ghost use Rattle.outside.specs.Streams.{Stream};

    ghost Value = { Stream };

    ghost view = { λ s. record { bytes = W.contents s.writer; faults = s.fault_count } };
}

impl<W: Write + Drop> IoSink<W> {
    ghost use Rattle.std.specs.Prelude.{◌≡◌};

    /// The sink over `writer`, with no fault counted.
    pub fn new(writer: W) -> IoSink<W>
        ensures { result ≡ record { bytes = W.contents writer; faults = 0 } }
    {
        IoSink {
            writer,
            fault_count: 0,
        }
    }
}

impl<W: Write + Drop> Sink for IoSink<W> {
    ghost written = { λ s. s.bytes };

    ghost faults = { λ s. s.faults };

    /// Writes and flushes. A write that takes nothing, a write that fails and a flush that fails are faults.
    fn write(&mut self, buf: &[u8]) -> Result<usize, Failed> {
        let Ok(count) = self.writer.write(buf) else {
            raise(&mut self.fault_count);
            return Err(Failed);
        };
        if count == 0 {
            raise(&mut self.fault_count);
            return Ok(0);
        }
        if self.writer.flush().is_err() {
            raise(&mut self.fault_count);
            return Err(Failed);
        }
        Ok(count)
    }
}

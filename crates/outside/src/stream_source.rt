use crate::faults::{Failed, raise};
use crate::reading::Source;
use std::io::Read;
use std::marker::Model;

/// A source over a reader of std. It tells what the reader tells of its bytes: nothing over real files.
#[derive(Drop)]
pub struct IoSource<R: Read + Drop> {
    reader: R,
    fault_count: u64,
}

impl<R: Read + Drop> Model for IoSource<R> {
    ghost use Rattle.outside.specs.Streams.{Stream};

    ghost Value = { Stream };

    ghost view = { λ s. record { bytes = R.remaining s.reader; faults = s.fault_count } };
}

impl<R: Read + Drop> IoSource<R> {
    ghost use Rattle.std.specs.Prelude.{◌≡◌};

    /// The source over `reader`, with no fault counted.
    pub fn new(reader: R) -> IoSource<R>
        ensures { result ≡ record { bytes = R.remaining reader; faults = 0 } }
    {
        IoSource {
            reader,
            fault_count: 0,
        }
    }
}

impl<R: Read + Drop> Source for IoSource<R> {
    ghost left = { λ s. s.bytes };

    ghost faults = { λ s. s.faults };

    fn read(&mut self, buf: &mut [u8]) -> Result<usize, Failed> {
        match self.reader.read(buf) {
            Ok(count) => Ok(count),
            Err(_) => {
                raise(&mut self.fault_count);
                Err(Failed)
            }
        }
    }
}

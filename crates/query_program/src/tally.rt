ghost use Rattle.std.specs.Prelude.{◌≡◌, ◌+◌, ◌^◌, ◌<◌, ◌≤◌, [], ◌∷◌, ◌++◌, length, map, OnErr, Ok, Some};
ghost use Rattle.outside.specs.Bytes.{WriteGrows};
ghost use Rattle.outside.specs.Causes.{Rose, faults_after_write};
ghost use Rattle.query_program.specs.Summary.{mark_of};

use http_server::Log;
use outside::{Failed, Sink};
use std::marker::Model;

/// A sink that counts its bytes and folds their mark, and keeps none of them.
///
/// Which bytes they were is told to contracts alone.
#[derive(Drop)]
pub(crate) struct Tally {
    count: u64,
    mark: u32,
    fault_count: u64,
    log: Log<u8, ()>,
}

impl Model for Tally {
    ghost use Rattle.std.specs.Prelude.{◌≡◌, length, map};
    ghost use Rattle.query_program.specs.Summary.{mark_of};
    ghost use Rattle.query_program.specs.Tallied.{Tallied};

    ghost Value = { Tallied };

    ghost view = { λ t. record { written = map (λ p. p.0) t.log.items; faults = t.fault_count } };

    ghost invariant = { λ t. (t.count ≡ length (map (λ p. p.0) t.log.items)) × (t.mark ≡ mark_of (map (λ p. p.0) t.log.items)) };
}

impl Tally {
    /// With nothing written.
    pub fn new() -> Tally
        ensures { (result.written ≡ []) × (result.faults ≡ 0) }
    {
        Tally {
            count: 0,
            mark: 0,
            fault_count: 0,
            log: Log::new(),
        }
    }

    /// How many bytes were written.
    pub fn count(&self) -> u64
        ensures { result ≡ length self.now.written }
    {
        self.count
    }

    /// Their mark.
    pub fn mark(&self) -> u32
        ensures { result ≡ mark_of self.now.written }
    {
        self.mark
    }

    /// Takes one byte more.
    fn take(&mut self, byte: u8)
        requires { length self.old.written + 1 < 2 ^ 64 }
        ensures written { self.new.written ≡ self.old.written ++ byte ∷ [] }
        ensures faults { self.new.faults ≡ self.old.faults }
    {
        self.count += 1;
        self.mark = self.mark.wrapping_mul(31).wrapping_add(byte as u32);
        self.log = self.log.and(&byte, &());
    }
}

impl Sink for Tally {
    ghost written = { λ t. Some t.written };

    ghost faults = { λ t. t.faults };

    /// Takes all bytes. It fails, and takes none, where their number would pass the last value of a `u64`.
    fn write(&mut self, buf: &[u8]) -> Result<usize, Failed>
        requires { 0 < length buf.now }
        ensures bytes { WriteGrows (Some self.old.written) (Some self.new.written) result buf.now }
        ensures later { self.old.faults ≤ self.new.faults }
        ensures cause { OnErr result (Rose self.old.faults self.new.faults) }
        ensures none { result ≡ Ok 0 → Rose self.old.faults self.new.faults }
        ensures counts { self.new.faults ≡ faults_after_write result self.old.faults }
    {
        if u64::MAX - self.count() < buf.len() as u64 {
            self.fault_count = self.fault_count.saturating_add(1);
            return Err(Failed);
        }
        for byte in buf {
            self.take(*byte);
        }
        Ok(buf.len())
    }
}

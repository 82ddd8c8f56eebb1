ghost use Rattle.std.specs.Prelude.{◌≡◌, ℕ, List, ◌<◌, ◌≤◌, length, Ok, OnErr};
ghost use Rattle.std.specs.declared.option.Option.{Option};
ghost use Rattle.outside.specs.Bytes.{WriteGrows};
ghost use Rattle.outside.specs.Causes.{Rose, faults_after_write};

use crate::faults::Failed;

/// Where bytes go to.
pub trait Sink {
    // The bytes that were written, where the sink tells them.
    ghost written: { Self → Option (List ℕ) };

    // How many faults there were.
    ghost faults: { Self → ℕ };

    /// Appends some of the first bytes of `buf` to what was written and answers how many, at most the length of `buf`.
    ///
    /// `Ok(0)` appends nothing. `Failed` appends some first bytes of `buf`, since a flush may fail after a write. The count
    /// of faults rises by one at each `Failed` and each `Ok(0)`, and at no other answer.
    fn write(&mut self, buf: &[u8]) -> Result<usize, Failed>
        requires { 0 < length buf.now }
        ensures bytes { WriteGrows (written self.old) (written self.new) result buf.now }
        ensures later { faults self.old ≤ faults self.new }
        ensures cause { OnErr result (Rose (faults self.old) (faults self.new)) }
        ensures none { result ≡ Ok 0 → Rose (faults self.old) (faults self.new) }
        ensures counts { faults self.new ≡ faults_after_write result (faults self.old) };
}

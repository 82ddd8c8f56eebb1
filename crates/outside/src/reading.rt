ghost use Rattle.std.specs.Prelude.{◌≡◌, ℕ, List, ◌<◌, ◌≤◌, length, OnErr};
ghost use Rattle.std.specs.Io.{ReadsAtMost};
ghost use Rattle.std.specs.declared.option.Option.{Option};
ghost use Rattle.outside.specs.Bytes.{ReadTakes};
ghost use Rattle.outside.specs.Causes.{Rose, faults_after_read};

use crate::faults::Failed;

/// Where bytes come from.
pub trait Source {
    // The bytes to come, where the source tells them.
    ghost left: { Self → Option (List ℕ) };

    // How many faults there were.
    ghost faults: { Self → ℕ };

    /// Moves some of the bytes to come to the front of `buf` and answers how many, at most the length of `buf`.
    ///
    /// `Ok(0)` is the end of input. `Failed` takes no byte. The count of faults rises by one at each `Failed`, and at no
    /// other answer.
    fn read(&mut self, buf: &mut [u8]) -> Result<usize, Failed>
        requires { 0 < length buf.old }
        ensures bound { ReadsAtMost result buf.new }
        ensures bytes { ReadTakes (left self.old) (left self.new) result buf.new }
        ensures later { faults self.old ≤ faults self.new }
        ensures cause { OnErr result (Rose (faults self.old) (faults self.new)) }
        ensures counts { faults self.new ≡ faults_after_read result (faults self.old) };
}

ghost use Rattle.std.specs.Prelude.{◌≡◌, ◌<◌, ◌≤◌, ◌↔◌, min, length, take, IsErr, IfOk, OnErr, Some};
ghost use Rattle.std.specs.Io.{ReadsAtMost};
ghost use Rattle.outside.specs.Bytes.{ReadTakes};
ghost use Rattle.outside.specs.Causes.{Rose, counted, faults_after_read};
ghost use Rattle.outside.specs.Memory.{IsListed};

use crate::faults::{Failed, count_call, raise};
use crate::reading::Source;
use std::marker::Model;

/// A source over bytes in memory, which come in pieces, and whose listed calls fail.
#[derive(Drop)]
pub struct MemSource {
    bytes: Vec<u8>,
    at: usize,
    piece_length: usize,
    failing: Vec<u64>,
    call_count: u64,
    fault_count: u64,
}

impl Model for MemSource {
    ghost use Rattle.std.specs.Prelude.{◌≤◌, ◌<◌, length, drop};
    ghost use Rattle.outside.specs.Memory.{Supply};

    ghost Value = { Supply };

    ghost view = { λ s. record { left = drop s.at s.bytes.items; piece = s.piece_length; fails = s.failing.items; calls = s.call_count; faults = s.fault_count } };

    ghost invariant = { λ s. (s.at ≤ length s.bytes.items) × (0 < s.piece_length) };
}

impl MemSource {
    ghost use Rattle.std.specs.Prelude.{◌≡◌, ◌<◌};

    /// The source over `bytes` that gives at most `piece` bytes a call, at least 1, and fails exactly at the calls whose
    /// numbers, counted from 1, stand in `fails`.
    pub fn new(bytes: Vec<u8>, piece: usize, fails: Vec<u64>) -> MemSource
        requires { 0 < piece }
        ensures { result ≡ record { left = bytes.items; piece = piece; fails = fails.items; calls = 0; faults = 0 } }
    {
        MemSource {
            bytes,
            at: 0,
            piece_length: piece,
            failing: fails,
            call_count: 0,
            fault_count: 0,
        }
    }
}

impl Source for MemSource {
    ghost left = { λ s. Some s.left };

    ghost faults = { λ s. s.faults };

    /// Gives the least of the piece, the length of `buf` and what is left, or fails exactly where the call is listed.
    ///
    /// Time linear in what is given and in the list of failing calls.
    fn read(&mut self, buf: &mut [u8]) -> Result<usize, Failed>
        requires { 0 < length buf.old }
        ensures bound { ReadsAtMost result buf.new }
        ensures bytes { ReadTakes (Some self.old.left) (Some self.new.left) result buf.new }
        ensures later { self.old.faults ≤ self.new.faults }
        ensures cause { OnErr result (Rose self.old.faults self.new.faults) }
        ensures amount { IfOk result (λ n. n ≡ min self.old.piece (min (length buf.old) (length self.old.left))) }
        ensures fails { IsErr result ↔ IsListed self.old.fails self.old.calls }
        ensures calls { self.new.calls ≡ counted self.old.calls }
        ensures counts { self.new.faults ≡ faults_after_read result self.old.faults }
        ensures same { (self.new.piece ≡ self.old.piece) × (self.new.fails ≡ self.old.fails) }
    {
        if count_call(&mut self.call_count, &self.failing) {
            raise(&mut self.fault_count);
            return Err(Failed);
        }
        let left = &self.bytes[self.at..];
        let count = self.piece_length.min(buf.len()).min(left.len());
        fill_front(buf, &left[..count]);
        self.at += count;
        Ok(count)
    }
}

/// Copies `bytes` to the front of `buf`.
fn fill_front(buf: &mut [u8], bytes: &[u8])
    requires { length bytes.now ≤ length buf.old }
    ensures { take (length bytes.now) buf.new ≡ bytes.now }
{
    buf[..bytes.len()].copy_from_slice(bytes);
}

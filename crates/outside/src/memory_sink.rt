ghost use Rattle.std.specs.Prelude.{◌≡◌, ◌+◌, ◌-◌, ◌<◌, ◌≤◌, ◌↔◌, ◌++◌, min, length, take, IsErr, IfOk, Ok, OnErr, Some};
ghost use Rattle.outside.specs.Bytes.{WriteGrows};
ghost use Rattle.outside.specs.Causes.{Rose, counted, faults_after_write};
ghost use Rattle.outside.specs.Memory.{IsListed};

use crate::faults::{Failed, count_call, raise};
use crate::writing::Sink;
use std::alloc::Global;
use std::marker::Model;
use text_spec::OutOfMemory;

/// A sink into memory with room for a number of bytes, whose listed calls fail.
#[derive(Drop)]
pub struct MemSink {
    places: Vec<u8>,
    at: usize,
    failing: Vec<u64>,
    call_count: u64,
    fault_count: u64,
}

impl Model for MemSink {
    ghost use Rattle.std.specs.Prelude.{◌≤◌, length, take};
    ghost use Rattle.outside.specs.Memory.{Store};

    ghost Value = { Store };

    ghost view = { λ s. record { written = take s.at s.places.items; room = length s.places.items; fails = s.failing.items; calls = s.call_count; faults = s.fault_count } };

    ghost invariant = { λ s. s.at ≤ length s.places.items };
}

impl MemSink {
    ghost use Rattle.std.specs.Prelude.{◌≡◌, [], IfOk};

    /// An empty sink with room for `room` bytes that fails exactly at the calls whose numbers, counted from 1, stand in
    /// `fails`. Refused for want of memory alone.
    pub fn new(alloc: Global, room: usize, fails: Vec<u64>) -> Result<MemSink, OutOfMemory>
        ensures { IfOk result (λ s. s ≡ record { written = []; room = room; fails = fails.items; calls = 0; faults = 0 }) }
    {
        Ok(MemSink {
            places: vec![in alloc; 0; room]?,
            at: 0,
            failing: fails,
            call_count: 0,
            fault_count: 0,
        })
    }

    /// What was written.
    pub fn bytes(&self) -> &[u8]
        ensures { result.now ≡ self.now.written }
    {
        &self.places[..self.at]
    }
}

impl Sink for MemSink {
    ghost written = { λ s. Some s.written };

    ghost faults = { λ s. s.faults };

    /// Takes as many bytes as there is room for, or fails exactly where the call is listed and then takes none.
    ///
    /// Takes no memory. Time linear in what is taken and in the list of failing calls.
    fn write(&mut self, buf: &[u8]) -> Result<usize, Failed>
        requires { 0 < length buf.now }
        ensures bytes { WriteGrows (Some self.old.written) (Some self.new.written) result buf.now }
        ensures later { self.old.faults ≤ self.new.faults }
        ensures cause { OnErr result (Rose self.old.faults self.new.faults) }
        ensures none { result ≡ Ok 0 → Rose self.old.faults self.new.faults }
        ensures amount { IfOk result (λ n. n ≡ min (length buf.now) (self.old.room - length self.old.written)) }
        ensures fails { IsErr result ↔ IsListed self.old.fails self.old.calls }
        ensures unwritten { OnErr result (self.new.written ≡ self.old.written) }
        ensures calls { self.new.calls ≡ counted self.old.calls }
        ensures counts { self.new.faults ≡ faults_after_write result self.old.faults }
        ensures same { (self.new.room ≡ self.old.room) × (self.new.fails ≡ self.old.fails) }
    {
        if count_call(&mut self.call_count, &self.failing) {
            raise(&mut self.fault_count);
            return Err(Failed);
        }
        let count = buf.len().min(self.places.len() - self.at);
        if count == 0 {
            raise(&mut self.fault_count);
            return Ok(0);
        }
        put(&mut self.places, self.at, &buf[..count]);
        self.at += count;
        Ok(count)
    }
}

/// Copies `bytes` to the place `at`.
fn put(places: &mut [u8], at: usize, bytes: &[u8])
    requires { at + length bytes.now ≤ length places.old }
    ensures { take (at + length bytes.now) places.new ≡ take at places.old ++ bytes.now }
{
    places[at..at + bytes.len()].copy_from_slice(bytes);
}

ghost use Rattle.std.specs.Prelude.{◌≡◌, ◌+◌, ◌-◌, ◌<◌, ◌≤◌, ◌⊎◌, [], true, false, None, min, length, take, drop, IfOk, OnOk, OnErr, IsErrOf};
ghost use Rattle.std.specs.Io.KnownBytes.{Consumes, IsAtEnd, Keeps};
ghost use Rattle.memchr.specs.Find.{IsFirstByte, is_byte};
ghost use Rattle.outside.specs.Causes.{Rose};
ghost use Rattle.query_program.specs.Lines.{last_part};
ghost use Rattle.query_program.specs.Reads.{Filled, IsReadStopOf};

use crate::limits::{FIRST_ROOM, LINE_LIMIT};
use crate::stop::Stop;
use memchr::memchr;
use outside::{Failed, Source};
use std::alloc::{AllocError, Global};
use std::marker::Model;

/// The buffer of reads: the bytes that came and are not answered yet, and room after them.
///
/// It has room for one line at its limit and a newline, and no more. A byte is searched for a newline once.
#[derive(Drop)]
pub(crate) struct LineBuffer {
    places: Vec<u8>,
    start: usize,
    searched: usize,
    end: usize,
}

impl Model for LineBuffer {
    ghost use Rattle.std.specs.Prelude.{◌+◌, ◌-◌, ◌<◌, ◌≤◌, length, take, drop};
    ghost use Rattle.memchr.specs.Find.{Nowhere, Passes, is_byte};
    ghost use Rattle.query_program.specs.Reads.{Pending};
    ghost use Rattle.query_program.specs.declared.limits.TheConstants.{LINE_LIMIT};

    ghost Value = { Pending };

    ghost view = { λ b. record { bytes = take (b.end - b.start) (drop b.start b.places.items); before = b.start; room = length b.places.items - b.end } };

    ghost invariant = { λ b. (b.start ≤ b.searched) × (b.searched ≤ b.end) × (b.end ≤ length b.places.items) × (0 < length b.places.items) × (length b.places.items ≤ LINE_LIMIT + 1)
        × Nowhere (Passes (is_byte 10) b.places.items) b.start b.searched };
}

impl LineBuffer {
    /// An empty buffer of 65,536 bytes.
    pub(crate) fn new(alloc: Global) -> Result<LineBuffer, AllocError>
        ensures { IfOk result (λ b. b.bytes ≡ []) }
    {
        Ok(LineBuffer {
            places: vec![in alloc; 0; FIRST_ROOM]?,
            start: 0,
            searched: 0,
            end: 0,
        })
    }

    /// How many bytes are not answered yet.
    pub(crate) fn len(&self) -> usize
        ensures { result ≡ length self.now.bytes }
    {
        self.end - self.start
    }

    /// The length of the first line, without its newline, where the newline is there.
    ///
    /// Time linear in the bytes that came since the last search.
    pub(crate) fn first_line(&mut self) -> Option<usize>
        ensures first { IsFirstByte (is_byte 10) self.old.bytes result }
        ensures same { self.new ≡ self.old }
    {
        match memchr(b'\n', &self.places[self.searched..self.end]) {
            Some(at) => Some(self.searched + at - self.start),
            None => {
                self.searched = self.end;
                None
            }
        }
    }

    /// Whether a line is too long, whatever comes: the bytes fill the buffer, and none is a newline.
    ///
    /// Time linear in the bytes that came since the last search.
    pub(crate) fn is_full_of_one_line(&mut self) -> bool
        requires room { length self.old.bytes ≤ LINE_LIMIT + 1 }
        ensures long { result ≡ true → (LINE_LIMIT < length self.old.bytes) × IsFirstByte (is_byte 10) self.old.bytes None }
        ensures short { result ≡ false → length (last_part self.old.bytes) ≤ LINE_LIMIT }
        ensures same { self.new ≡ self.old }
    {
        self.len() > LINE_LIMIT && self.first_line().is_none()
    }

    /// The first `count` bytes that are not answered yet.
    pub(crate) fn front(&self, count: usize) -> &[u8]
        requires { count ≤ length self.now.bytes }
        ensures { result.now ≡ take count self.now.bytes }
    {
        &self.places[self.start..self.start + count]
    }

    /// Takes off the first `count` bytes.
    pub(crate) fn take_off(&mut self, count: usize)
        requires { count ≤ length self.old.bytes }
        ensures { self.new.bytes ≡ drop count self.old.bytes }
    {
        self.start += count;
        self.searched = self.searched.max(self.start);
    }

    /// Reads at most `most` bytes behind those that are there and answers how many, none only at the end of the source.
    ///
    /// Moves a line to the front once at most, and grows only for a line longer than the buffer.
    pub(crate) fn fill<S: Source>(&mut self, source: &mut S, most: usize) -> Result<usize, Stop>
        requires short { length self.old.bytes ≤ LINE_LIMIT }
        requires some { 0 < most }
        ensures filled { IfOk result (Filled (S.left source.old) (S.left source.new) self.old.bytes self.new.bytes most) }
        ensures bound { length self.new.bytes ≤ LINE_LIMIT + 1 }
        ensures kept { OnErr result ((self.new.bytes ≡ self.old.bytes) × Keeps (S.left source.old) (S.left source.new)) }
        ensures stops { IsReadStopOf result }
        ensures cause { IsErrOf result Stop.ReadFault → Rose (S.faults source.old) (S.faults source.new) }
        ensures still { IsErrOf result Stop.ReadFault ⊎ (S.faults source.new ≡ S.faults source.old) }
    {
        self.make_room()?;
        match read_behind(source, &mut self.places, self.end, most) {
            Ok(count) => {
                self.end += count;
                Ok(count)
            }
            Err(Failed) => Err(Stop::ReadFault),
        }
    }

    /// Makes room for one byte at least. On an error the bytes stay.
    fn make_room(&mut self) -> Result<(), AllocError>
        requires { length self.old.bytes ≤ LINE_LIMIT }
        ensures kept { self.new.bytes ≡ self.old.bytes }
        ensures room { OnOk result (0 < self.new.room) }
    {
        if self.end < self.places.len() {
            return Ok(());
        }
        if self.start > 0 {
            self.move_to_front();
            return Ok(());
        }
        self.grow()
    }

    /// Moves the bytes to the front of the buffer.
    fn move_to_front(&mut self)
        ensures kept { self.new.bytes ≡ self.old.bytes }
        ensures room { self.new.room ≡ self.old.room + self.old.before }
    {
        self.places.copy_within(self.start..self.end, 0);
        self.end -= self.start;
        self.searched -= self.start;
        self.start = 0;
    }

    /// Doubles the buffer, up to a line at its limit and a newline. On an error it stays.
    fn grow(&mut self) -> Result<(), AllocError>
        requires short { length self.old.bytes ≤ LINE_LIMIT }
        requires full { (self.old.before ≡ 0) × (self.old.room ≡ 0) }
        ensures kept { self.new.bytes ≡ self.old.bytes }
        ensures room { OnOk result (0 < self.new.room) }
    {
        let length = (2 * self.places.len()).min(LINE_LIMIT + 1);
        self.places.resize(length, 0)
    }
}

/// Reads at most `most` bytes into the places from `at` on and answers how many.
fn read_behind<S: Source>(
    source: &mut S,
    places: &mut [u8],
    at: usize,
    most: usize,
) -> Result<usize, Failed>
    requires room { at < length places.old }
    requires some { 0 < most }
    ensures read { IfOk result (λ n. (n ≤ min most (length places.old - at)) × (n ≡ 0 → IsAtEnd (S.left source.new))
        × Consumes (S.left source.old) (S.left source.new) (take n (drop at places.new))) }
    ensures front { take at places.new ≡ take at places.old }
    ensures kept { OnErr result (Keeps (S.left source.old) (S.left source.new)) }
    ensures cause { OnErr result (Rose (S.faults source.old) (S.faults source.new)) }
    ensures still { OnOk result (S.faults source.new ≡ S.faults source.old) }
{
    let count = most.min(places.len() - at);
    source.read(&mut places[at..at + count])
}

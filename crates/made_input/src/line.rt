ghost use Rattle.std.specs.Prelude.{◌≡◌, ◌+◌, ◌≤◌, [], ◌++◌, length, take, drop, decimal, IfOk};

use std::alloc::{AllocError, Global};
use std::marker::Model;

/// The most bytes of a line, with its newline.
pub(crate) const LINE_ROOM: usize = 45_000;

/// A line that is being made, in a room of its own that doesn't grow.
#[derive(Drop)]
pub(crate) struct Line {
    places: Vec<u8>,
    end: usize,
}

impl Model for Line {
    ghost use Rattle.std.specs.Prelude.{◌≡◌, ◌≤◌, ℕ, List, length, take};
    ghost use Rattle.made_input.specs.declared.line.TheConstants.{LINE_ROOM};

    ghost Value = { List ℕ };

    ghost view = { λ line. take line.end line.places.items };

    ghost invariant = { λ line. (line.end ≤ LINE_ROOM) × (length line.places.items ≡ LINE_ROOM) };
}

impl Line {
    /// An empty line.
    pub(crate) fn new(alloc: Global) -> Result<Line, AllocError>
        ensures { IfOk result (λ line. line ≡ []) }
    {
        Ok(Line {
            places: vec![in alloc; 0; LINE_ROOM]?,
            end: 0,
        })
    }

    /// Takes every byte off.
    pub(crate) fn clear(&mut self)
        ensures { self.new ≡ [] }
    {
        self.end = 0;
    }

    /// The number of bytes.
    pub(crate) fn len(&self) -> usize
        ensures { result ≡ length self.now }
    {
        self.end
    }

    /// `count` bytes from byte `at` on, all within the line.
    pub(crate) fn part(&self, at: usize, count: usize) -> &[u8]
        requires { at + count ≤ length self.now }
        ensures { result.now ≡ take count (drop at self.now) }
    {
        &self.places[at..at + count]
    }

    /// Appends bytes, for which there is room.
    pub(crate) fn put(&mut self, text: &[u8])
        requires { length (self.old ++ text.now) ≤ LINE_ROOM }
        ensures { self.new ≡ self.old ++ text.now }
    {
        let end = self.end + text.len();
        self.places[self.end..end].copy_from_slice(text);
        self.end = end;
    }

    /// Appends a number in decimal, for which there is room.
    pub(crate) fn put_number(&mut self, n: u32)
        requires { length (self.old ++ decimal n) ≤ LINE_ROOM }
        ensures { self.new ≡ self.old ++ decimal n }
    {
        let mut buffer = itoa::Buffer::new();
        self.put(buffer.format(n).as_bytes());
    }
}

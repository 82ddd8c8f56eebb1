//! Pieces of a text at hand, each at most 64 bytes of UTF-8.
ghost use Rattle.std.specs.Prelude.{◌≡◌, ◌+◌, ◌-◌, ◌<◌, ◌≤◌, length, take, IsUtf8};
ghost use Rattle.char_view.specs.Places.{IsPlace, own_bytes};
ghost use Rattle.char_view.specs.Walks.{IsPieceOf};

use crate::place::Place;
use std::sync::ledger::Ledger;
use word_units::{Steps, Text, fill_backward, fill_forward};

/// A part of a text as UTF-8.
#[derive(Debug, Drop)]
pub(crate) struct Piece {
    /// Bytes of UTF-8 that lie between the text's start and the piece.
    pub(crate) offset: usize,
    /// How many bytes it has.
    pub(crate) size: usize,
    /// The bytes, and then some that mean nothing.
    pub(crate) bytes: [u8; 64],
}

/// The UTF-8 at the front of a buffer.
pub(crate) fn piece_text(bytes: &[u8; 64], size: usize) -> &str
    requires fits { size ≤ 64 }
    requires utf8 { IsUtf8 (take size bytes.now) }
    ensures { result.now ≡ take size bytes.now }
{
    // The caller has shown that it is UTF-8, and a check of each piece at each boundary would take longer than the boundary.
    unsafe { std::str::from_utf8_unchecked(&bytes[..size]) }
}

/// The piece from a place on, of whole scalars: as many as have room. Only at the text's end is there none.
pub(crate) fn piece_from<T: Text, L: Ledger>(t: &mut T, at: Place, steps: &mut Steps<L>) -> Piece
    requires place { IsPlace (T.part t.old) at.offset at.position }
    ensures piece { IsPieceOf (own_bytes (T.part t.old)) result }
    ensures offset { result.offset ≡ at.offset }
    ensures some { at.offset < length (own_bytes (T.part t.old)) → 0 < result.size }
    ensures kept { t.new ≡ t.old }
{
    let mut bytes = [0u8; 64];
    let (size, _) = fill_forward(t, at.position, &mut bytes, steps);
    Piece {
        offset: at.offset,
        size,
        bytes,
    }
}

/// The piece that ends at a place, of whole scalars: as many as have room; and the place where it begins.
pub(crate) fn piece_before<T: Text, L: Ledger>(
    t: &mut T,
    at: Place,
    steps: &mut Steps<L>,
) -> (Piece, Place)
    requires place { IsPlace (T.part t.old) at.offset at.position }
    ensures piece { IsPieceOf (own_bytes (T.part t.old)) result.0 }
    ensures end { result.0.offset + result.0.size ≡ at.offset }
    ensures place { IsPlace (T.part t.old) result.1.offset result.1.position }
    ensures offset { result.1.offset ≡ result.0.offset }
    ensures some { 0 < at.offset → 0 < result.0.size }
    ensures kept { t.new ≡ t.old }
{
    let mut bytes = [0u8; 64];
    let (size, position) = fill_backward(t, at.position, &mut bytes, steps);
    let offset = at.offset - size;
    (
        Piece {
            offset,
            size,
            bytes,
        },
        Place { offset, position },
    )
}

//! Whether a Character ends at a place, where what decides it may lie far before that place.
ghost use Rattle.std.specs.Prelude.{◌≡◌, ◌<◌, true, IsNone};
ghost use Rattle.unicode_segmentation.specs.Cursor.{IsCursorOn, KeepsPlace, cursor_offset, cursor_awaits, cursor_is_extended};
ghost use Rattle.char_view.specs.Places.{IsPlace, own_bytes};
ghost use Rattle.char_view.specs.Walks.{IsPieceOf, breaks};

use crate::piece::{Piece, piece_before, piece_text};
use crate::place::Place;
use std::sync::ledger::Ledger;
use unicode_segmentation::{GraphemeCursor, GraphemeIncomplete};
use word_units::{Steps, Text};

/// Whether a Character begins or ends where the cursor stands, which waits for nothing yet. The text is read backwards as far as
/// the cursor asks for it, a piece at a time.
pub(crate) fn is_break<T: Text, L: Ledger>(
    t: &mut T,
    cursor: &mut GraphemeCursor,
    piece: &Piece,
    at: Place,
    steps: &mut Steps<L>,
) -> bool
    requires on { IsCursorOn cursor.old (own_bytes (T.part t.old)) }
    requires offset { cursor_offset cursor.old ≡ at.offset }
    requires extended { cursor_is_extended cursor.old ≡ true }
    requires fresh { IsNone (cursor_awaits cursor.old) }
    requires place { IsPlace (T.part t.old) at.offset at.position }
    requires piece { IsPieceOf (own_bytes (T.part t.old)) piece.now }
    requires begins { piece.now.offset ≡ at.offset }
    requires some { 0 < piece.now.size }
    ensures value { result ≡ breaks (own_bytes (T.part t.old)) at.offset }
    ensures on { IsCursorOn cursor.new (own_bytes (T.part t.old)) }
    ensures place { KeepsPlace cursor.old cursor.new }
    ensures kept { t.new ≡ t.old }
{
    let mut back = at;
    'context: loop {
        match cursor.is_boundary(piece_text(&piece.bytes, piece.size), piece.offset) {
            Ok(answer) => return answer,
            Err(GraphemeIncomplete::PreContext(_)) => {
                let (context, begins) = piece_before(t, back, steps);
                cursor.provide_context(piece_text(&context.bytes, context.size), context.offset);
                back = begins;
            }
            Err(_) => unreachable!(),
        }
    }
}

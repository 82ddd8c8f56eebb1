//! A walk from Character to Character with one cursor, to which the text is handed in pieces.
ghost use Rattle.std.specs.Prelude.{◌≡◌, ◌+◌, ◌<◌, ◌≤◌, length, true, false, IsUtf8, IsNone, IfSome, IfNone};
ghost use Rattle.std.specs.Str.{IsCharBoundary};
ghost use Rattle.text_spec.specs.Offsets.{start};
ghost use Rattle.word_units.specs.Parts.{low_of, high_of};
ghost use Rattle.unicode_segmentation.specs.Cursor.{IsCursorOn, search_start, cursor_offset, cursor_awaits, cursor_is_extended, cursor_is_resuming};
ghost use Rattle.char_view.specs.Places.{IsPlace, own_bytes};
ghost use Rattle.char_view.specs.Walks.{IsPieceOf, IsWalk, breaks, HasNone};

use crate::context::is_break;
use crate::piece::{Piece, piece_from, piece_text};
use crate::place::{Place, first_place, place_after, place_at, text_len};
use std::sync::ledger::Ledger;
use unicode_segmentation::GraphemeCursor;
use word_units::{Steps, Text};

/// A walk that stands at the start of a Character, or at the text's end.
#[derive(Debug, Drop)]
pub(crate) struct Walk {
    pub(crate) cursor: GraphemeCursor,
    /// How many Characters are passed.
    pub(crate) number: u64,
    pub(crate) at: Place,
    /// How many bytes the UTF-8 of the text takes.
    pub(crate) len: usize,
    /// The part of the text that is at hand.
    pub(crate) piece: Piece,
}

/// A cursor that knows nothing of the text around its place, of a text whose UTF-8 takes `len` bytes.
fn cursor_at<T: Text>(t: &T, at: usize, len: usize) -> GraphemeCursor
    requires cut { IsCharBoundary (own_bytes (T.part t.now)) at }
    requires utf8 { IsUtf8 (own_bytes (T.part t.now)) }
    requires len { len ≡ length (own_bytes (T.part t.now)) }
    ensures on { IsCursorOn result (own_bytes (T.part t.now)) }
    ensures offset { cursor_offset result ≡ at }
    ensures extended { cursor_is_extended result ≡ true }
    ensures done { cursor_is_resuming result ≡ false }
    ensures fresh { IsNone (cursor_awaits result) }
{
    let _encoding = t.encoding();
    GraphemeCursor::new(at, len, true)
}

/// A cursor at the text's start, to which a piece is handed that begins there.
///
/// A step forward and one back tell it that no half of a flag stands before the start. A cursor that doesn't know this looks back
/// over a whole run of flags at each of them.
fn cursor_at_start<T: Text>(t: &T, piece: &Piece, len: usize) -> GraphemeCursor
    requires cut { IsCharBoundary (own_bytes (T.part t.now)) 0 }
    requires utf8 { IsUtf8 (own_bytes (T.part t.now)) }
    requires len { len ≡ length (own_bytes (T.part t.now)) }
    requires piece { IsPieceOf (own_bytes (T.part t.now)) piece.now }
    ensures on { IsCursorOn result (own_bytes (T.part t.now)) }
    ensures offset { cursor_offset result ≡ 0 }
    ensures extended { cursor_is_extended result ≡ true }
    ensures done { cursor_is_resuming result ≡ false }
{
    let mut cursor = cursor_at(t, 0, len);
    if steps_back(t, &mut cursor, piece) {
        return cursor;
    }
    cursor_at(t, 0, len)
}

/// Goes to the next boundary and back, where the piece tells both, and says whether the cursor stands at the text's start then.
fn steps_back<T: Text>(t: &T, cursor: &mut GraphemeCursor, piece: &Piece) -> bool
    requires on { IsCursorOn cursor.old (own_bytes (T.part t.now)) }
    requires extended { cursor_is_extended cursor.old ≡ true }
    requires piece { IsPieceOf (own_bytes (T.part t.now)) piece.now }
    ensures on { result ≡ true → IsCursorOn cursor.new (own_bytes (T.part t.now)) }
    ensures offset { result ≡ true → cursor_offset cursor.new ≡ 0 }
    ensures extended { cursor_is_extended cursor.new ≡ true }
    ensures done { result ≡ true → cursor_is_resuming cursor.new ≡ false }
{
    let _encoding = t.encoding();
    let text = piece_text(&piece.bytes, piece.size);
    let Ok(Some(_)) = cursor.next_boundary(text, piece.offset) else {
        return false;
    };
    let Ok(Some(place)) = cursor.prev_boundary(text, piece.offset) else {
        return false;
    };
    place == 0
}

/// The next boundary, where the piece at hand tells it.
fn look<T: Text>(t: &T, cursor: &mut GraphemeCursor, piece: &Piece, place: usize) -> Option<usize>
    requires on { IsCursorOn cursor.old (own_bytes (T.part t.now)) }
    requires offset { cursor_offset cursor.old ≡ place }
    requires extended { cursor_is_extended cursor.old ≡ true }
    requires inside { place < length (own_bytes (T.part t.now)) }
    requires piece { IsPieceOf (own_bytes (T.part t.now)) piece.now }
    ensures found { IfSome result (λ next. (search_start cursor.old ≤ next) × IsCharBoundary (own_bytes (T.part t.now)) next
        × (breaks (own_bytes (T.part t.now)) next ≡ true)
        × HasNone (own_bytes (T.part t.now)) (place + 1) next) }
    ensures moved { IfSome result (λ next. (cursor_offset cursor.new ≡ next) × (cursor_is_resuming cursor.new ≡ false)) }
    ensures passed { IfNone result (HasNone (own_bytes (T.part t.now)) (place + 1) (cursor_offset cursor.new)) }
    ensures on { IsCursorOn cursor.new (own_bytes (T.part t.now)) }
    ensures extended { cursor_is_extended cursor.new ≡ true }
{
    let _encoding = t.encoding();
    match cursor.next_boundary(piece_text(&piece.bytes, piece.size), piece.offset) {
        Ok(Some(next)) => Some(next),
        Ok(None) => unreachable!(),
        Err(_) => None,
    }
}

/// A place further on before which there is no boundary: the one that the cursor has come to, or else the end of the first scalar.
fn further<T: Text, L: Ledger>(
    t: &mut T,
    cursor: &GraphemeCursor,
    place: Place,
    steps: &mut Steps<L>,
) -> Place
    requires on { IsCursorOn cursor.now (own_bytes (T.part t.old)) }
    requires place { IsPlace (T.part t.old) place.offset place.position }
    requires inside { place.offset < length (own_bytes (T.part t.old)) }
    requires passed { HasNone (own_bytes (T.part t.old)) (place.offset + 1) (cursor_offset cursor.now) }
    ensures place { IsPlace (T.part t.old) result.offset result.position }
    ensures ahead { place.offset < result.offset }
    ensures passed { HasNone (own_bytes (T.part t.old)) (place.offset + 1) result.offset }
    ensures kept { t.new ≡ t.old }
{
    let reached = cursor.cur_cursor();
    if reached > place.offset {
        return place_at(t, place, reached, steps);
    }
    place_after(t, place, steps)
}

/// Whether a Character begins or ends at a place, to which the cursor is brought; the piece begins there.
fn stops<T: Text, L: Ledger>(
    t: &mut T,
    cursor: &mut GraphemeCursor,
    piece: &Piece,
    at: Place,
    len: usize,
    steps: &mut Steps<L>,
) -> bool
    requires on { IsCursorOn cursor.old (own_bytes (T.part t.old)) }
    requires extended { cursor_is_extended cursor.old ≡ true }
    requires place { IsPlace (T.part t.old) at.offset at.position }
    requires len { len ≡ length (own_bytes (T.part t.old)) }
    requires piece { IsPieceOf (own_bytes (T.part t.old)) piece.now }
    requires begins { piece.now.offset ≡ at.offset }
    requires some { at.offset < length (own_bytes (T.part t.old)) → 0 < piece.now.size }
    ensures value { result ≡ breaks (own_bytes (T.part t.old)) at.offset }
    ensures on { IsCursorOn cursor.new (own_bytes (T.part t.old)) }
    ensures offset { cursor_offset cursor.new ≡ at.offset }
    ensures extended { cursor_is_extended cursor.new ≡ true }
    ensures kept { t.new ≡ t.old }
{
    cursor.set_cursor(at.offset);
    if at.offset == len {
        return true;
    }
    if let Ok(answer) = cursor.is_boundary(piece_text(&piece.bytes, piece.size), piece.offset) {
        return answer;
    }
    *cursor = cursor_at(t, at.offset, len);
    is_break(t, cursor, piece, at, steps)
}

/// Has the cursor take the boundary at which it stands, so that it looks past that next.
fn take_boundary<T: Text>(t: &T, cursor: &mut GraphemeCursor, piece: &Piece, at: usize, len: usize)
    requires on { IsCursorOn cursor.old (own_bytes (T.part t.now)) }
    requires offset { cursor_offset cursor.old ≡ at }
    requires extended { cursor_is_extended cursor.old ≡ true }
    requires len { len ≡ length (own_bytes (T.part t.now)) }
    requires piece { IsPieceOf (own_bytes (T.part t.now)) piece.now }
    ensures on { IsCursorOn cursor.new (own_bytes (T.part t.now)) }
    ensures offset { cursor_offset cursor.new ≡ at }
    ensures extended { cursor_is_extended cursor.new ≡ true }
    ensures done { cursor_is_resuming cursor.new ≡ false }
{
    if takes(t, cursor, piece, at) {
        return;
    }
    *cursor = cursor_at(t, at, len);
}

/// Asks for the next boundary, and says whether it is the place where the cursor stands.
///
/// It is where the cursor broke off a search there, and what it knows of half a flag stays with it.
fn takes<T: Text>(t: &T, cursor: &mut GraphemeCursor, piece: &Piece, at: usize) -> bool
    requires on { IsCursorOn cursor.old (own_bytes (T.part t.now)) }
    requires extended { cursor_is_extended cursor.old ≡ true }
    requires piece { IsPieceOf (own_bytes (T.part t.now)) piece.now }
    ensures on { IsCursorOn cursor.new (own_bytes (T.part t.now)) }
    ensures offset { result ≡ true → cursor_offset cursor.new ≡ at }
    ensures extended { cursor_is_extended cursor.new ≡ true }
    ensures done { result ≡ true → cursor_is_resuming cursor.new ≡ false }
{
    let _encoding = t.encoding();
    match cursor.next_boundary(piece_text(&piece.bytes, piece.size), piece.offset) {
        Ok(Some(next)) => next == at,
        Ok(None) => false,
        Err(_) => false,
    }
}

/// The piece that is handed to the cursor first: the one at hand, or where that has nothing after the place, the one from there on.
fn ready<T: Text, L: Ledger>(t: &mut T, piece: &mut Piece, at: Place, steps: &mut Steps<L>)
    requires place { IsPlace (T.part t.old) at.offset at.position }
    requires piece { IsPieceOf (own_bytes (T.part t.old)) piece.old }
    ensures piece { IsPieceOf (own_bytes (T.part t.old)) piece.new }
    ensures kept { t.new ≡ t.old }
{
    if at.offset >= piece.offset + piece.size {
        *piece = piece_from(t, at, steps);
    }
}

/// The next place where a Character ends, to which the cursor goes.
fn next_break<T: Text, L: Ledger>(
    t: &mut T,
    cursor: &mut GraphemeCursor,
    piece: &mut Piece,
    at: Place,
    len: usize,
    steps: &mut Steps<L>,
) -> Place
    requires on { IsCursorOn cursor.old (own_bytes (T.part t.old)) }
    requires offset { cursor_offset cursor.old ≡ at.offset }
    requires extended { cursor_is_extended cursor.old ≡ true }
    requires done { cursor_is_resuming cursor.old ≡ false }
    requires place { IsPlace (T.part t.old) at.offset at.position }
    requires len { len ≡ length (own_bytes (T.part t.old)) }
    requires inside { at.offset < len }
    requires piece { IsPieceOf (own_bytes (T.part t.old)) piece.old }
    ensures place { IsPlace (T.part t.old) result.offset result.position }
    ensures ahead { at.offset < result.offset }
    ensures ends { breaks (own_bytes (T.part t.old)) result.offset ≡ true }
    ensures first { HasNone (own_bytes (T.part t.old)) (at.offset + 1) result.offset }
    ensures on { IsCursorOn cursor.new (own_bytes (T.part t.old)) }
    ensures offset { cursor_offset cursor.new ≡ result.offset }
    ensures extended { cursor_is_extended cursor.new ≡ true }
    ensures done { cursor_is_resuming cursor.new ≡ false }
    ensures piece { IsPieceOf (own_bytes (T.part t.old)) piece.new }
    ensures kept { t.new ≡ t.old }
{
    ready(t, piece, at, steps);
    let mut place = at;
    'pieces: loop {
        if let Some(next) = look(t, cursor, piece, place.offset) {
            return place_at(t, place, next, steps);
        }
        let next = further(t, cursor, place, steps);
        *piece = piece_from(t, next, steps);
        if stops(t, cursor, piece, next, len, steps) {
            take_boundary(t, cursor, piece, next.offset, len);
            return next;
        }
        place = next;
    }
}

/// A walk at the text's start.
pub(crate) fn begin<T: Text, L: Ledger>(t: &mut T, steps: &mut Steps<L>) -> Walk
    ensures walk { IsWalk (T.part t.old) result }
    ensures start { (result.number ≡ 0) × (result.at.position ≡ low_of (T.part t.old)) }
    ensures kept { t.new ≡ t.old }
{
    let len = text_len(t, steps);
    let at = first_place(t);
    let piece = piece_from(t, at, steps);
    let cursor = cursor_at_start(t, &piece, len);
    Walk {
        cursor,
        number: 0,
        at,
        len,
        piece,
    }
}

/// Passes a Character.
pub(crate) fn pass<T: Text, L: Ledger>(t: &mut T, walk: &mut Walk, steps: &mut Steps<L>)
    requires walk { IsWalk (T.part t.old) walk.old }
    requires inside { walk.old.at.position < high_of (T.part t.old) }
    ensures walk { IsWalk (T.part t.old) walk.new }
    ensures number { walk.new.number ≡ walk.old.number + 1 }
    ensures ahead { walk.old.at.position < walk.new.at.position }
    ensures kept { t.new ≡ t.old }
{
    let at = next_break(
        t,
        &mut walk.cursor,
        &mut walk.piece,
        walk.at,
        walk.len,
        steps,
    );
    walk.at = at;
    walk.number += 1;
}

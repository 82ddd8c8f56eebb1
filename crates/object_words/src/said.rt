//! The object that two words from outside would be, if some row had them.
ghost use Rattle.std.specs.Prelude.{◌≡◌, ℕ, ◌/◌, ◌%◌, ◌^◌, ◌<◌, ◌==◌, List, IsTrue, Some};
ghost use Rattle.object_words.specs.Rows.{Row, small, Describes, Implies};
ghost use Rattle.object_words.specs.Rows as rows;

use crate::count_word::{ASCII_BIT, COUNT_WIDTH, NFC_BIT, marks_utf16, unit_count};
use crate::layout::{
    FOREIGN_TOP, LITERAL_TOP, NATIVE_TOP, OWNED_TOP, SLOT_WIDTH, SMALL_COUNTS, SMALL_TOP, TOP_SHIFT,
};
use crate::object::Object;
use crate::small::bytes_of;

/// The object of the fields that the two words say. Where a row has the words, it is that row's; else its words are others.
pub fn said_by(w0: u64, w1: u64) -> Option<Object>
    ensures { (row : Row) → Describes row (w0, w1) → result ≡ Some (w0, w1) }
{
    if w1 >> TOP_SHIFT < SMALL_TOP {
        counted(w0, w1)
    } else {
        spelled(w0, w1)
    }
}

/// The same for a value that is Small.
fn spelled(w0: u64, w1: u64) -> Option<Object>
    ensures { (bytes : List ℕ) → Describes (small bytes) (w0, w1) → result ≡ Some (w0, w1) }
{
    let block = bytes_of(w0, w1);
    let count = ((w1 >> TOP_SHIFT) % SMALL_COUNTS) as usize;
    match std::str::from_utf8(&block[..count]) {
        Ok(text) => Object::small(text.as_bytes()),
        Err(_) => None,
    }
}

/// The same for a value that isn't.
fn counted(w0: u64, w1: u64) -> Option<Object>
    ensures { (row : Row) → Describes row (w0, w1) → w1 / 2 ^ TOP_SHIFT < SMALL_TOP → result ≡ Some (w0, w1) }
{
    let ascii = bit(w0, ASCII_BIT);
    let nfc = bit(w0, NFC_BIT);
    let utf16 = marks_utf16(w0);
    let count = unit_count(w0);
    let slot = (w1 % (1 << SLOT_WIDTH)) as u32;
    if ascii && !nfc {
        return None;
    }
    match w1 >> TOP_SHIFT {
        NATIVE_TOP => Some(Object::native(ascii, nfc, count, slot)),
        LITERAL_TOP => Some(Object::literal(ascii, nfc, count, slot)),
        FOREIGN_TOP => Some(Object::foreign(ascii, count, slot)),
        OWNED_TOP => owned(ascii, nfc, utf16, count),
        _ => None,
    }
}

/// The object of an Owned value; `None` where its UTF-16 would be in NFC and not ASCII, which no row says.
fn owned(ascii: bool, nfc: bool, utf16: bool, count: u64) -> Option<Object>
    requires ascii_is_nfc { Implies ascii nfc }
    requires count_in { count < 2 ^ COUNT_WIDTH }
    ensures { (IsTrue utf16 → Implies nfc ascii) → result ≡ Some (rows.words_of (rows.owned utf16 ascii nfc count)) }
{
    if utf16 && nfc && !ascii {
        return None;
    }
    Some(Object::owned(ascii, nfc, utf16, count))
}

/// Whether a bit is set.
fn bit(word: u64, place: u32) -> bool
    requires { place < 64 }
    ensures { result ≡ (word / 2 ^ place % 2 == 1) }
{
    (word >> place) % 2 == 1
}

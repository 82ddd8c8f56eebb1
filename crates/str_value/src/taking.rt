//! Values of code units that are handed over in a vector, which an Owned value keeps.
ghost use Rattle.std.specs.Prelude.{◌≡◌, ◌^◌, ◌<◌, ◌≤◌, ℕ, false, true, length, chars, slice_index, IsUtf8};
ghost use Rattle.text_spec.specs.Text.{utf8, repair};
ghost use Rattle.object_words.specs.Rows as rows;
ghost use Rattle.object_words.specs.Rows.{Describes};
ghost use Rattle.slot_accounts.specs.Account.{Did, Keeps};
ghost use Rattle.str_value.specs.Meaning.{OfHeap, credit_of, own};
ghost use Rattle.str_value.specs.Making.{MadeOfUtf8, MadeOfUtf16, making};

use crate::limits::MAX_TEXT_BYTES;
use crate::making_utf8::{is_ascii, publish_utf8, small};
use crate::making_utf16::publish_utf16;
use crate::storage::{Storage, StrPass};
use crate::units::are_ascii;
use crate::value::Str;
use object_words::Object;

impl<'h> Str<'h> {
    /// The value of the text whose UTF-8 is `bytes`, at most `MAX_TEXT_BYTES`: the one that `from_utf8` makes, with its events.
    ///
    /// An Owned one keeps the vector, so no memory is taken.
    pub fn from_vec(pass: &mut StrPass<'h>, bytes: Vec<u8>) -> Str<'h>
        requires utf8 { IsUtf8 bytes.items }
        requires limit { length bytes.items ≤ MAX_TEXT_BYTES }
        ensures text { result.text ≡ chars bytes.items }
        ensures made { MadeOfUtf8 pass.old pass.new bytes.items result.place result.row }
        ensures did { Did (making result.place) pass.old pass.new }
        ensures credits { Keeps pass.old 0 pass.new (credit_of result.place) }
        ensures one_heap { pass.new.heap ≡ pass.old.heap }
        ensures heap { OfHeap pass.new result.place }
    {
        if let Some(value) = small(bytes.as_slice()) {
            return value;
        }
        if let Some(value) = publish_utf8(pass, bytes.as_slice()) {
            return value;
        }
        keep_bytes(bytes)
    }

    /// The value of the text that `units` spell, of at most `MAX_TEXT_BYTES` in UTF-8: the one that `from_utf16` makes, with its events.
    ///
    /// An Owned one keeps the vector, so no memory is taken.
    pub fn from_units(pass: &mut StrPass<'h>, units: Vec<u16>) -> Str<'h>
        requires { length (utf8 (repair units.items)) ≤ MAX_TEXT_BYTES }
        ensures text { result.text ≡ repair units.items }
        ensures made { MadeOfUtf16 pass.old pass.new units.items result.place result.row }
        ensures did { Did (making result.place) pass.old pass.new }
        ensures credits { Keeps pass.old 0 pass.new (credit_of result.place) }
        ensures one_heap { pass.new.heap ≡ pass.old.heap }
        ensures heap { OfHeap pass.new result.place }
    {
        if let Some(value) = publish_utf16(pass, units.as_slice()) {
            return value;
        }
        keep_units(units)
    }
}

// The value of UTF-8 in a vector, which it keeps.
pub(crate) fn keep_bytes<'h>(bytes: Vec<u8>) -> Str<'h>
    requires utf8 { IsUtf8 bytes.items }
    requires limit { length bytes.items ≤ MAX_TEXT_BYTES }
    ensures text { result.text ≡ chars bytes.items }
    ensures row { result.row ≡ rows.owned false (rows.is_ascii bytes.items) (rows.is_ascii bytes.items) (length bytes.items) }
    ensures place { result.place ≡ own }
{
    let object = object_beside_bytes(bytes.as_slice());
    Str {
        object,
        storage: Storage::Bytes(bytes),
    }
}

// The two words of a value that keeps these bytes in a vector.
fn object_beside_bytes(bytes: &[u8]) -> Object
    requires { length bytes.now ≤ MAX_TEXT_BYTES }
    ensures describes { Describes (rows.owned false (rows.is_ascii bytes.now) (rows.is_ascii bytes.now) (length bytes.now)) result }
    ensures bytes { (i : ℕ) → slice_index bytes.now i < 2 ^ 8 }
{
    let ascii = is_ascii(bytes);
    Object::owned(ascii, ascii, false, bytes.len() as u64)
}

// The value of UTF-16 units in a vector, which it keeps.
pub(crate) fn keep_units<'h>(units: Vec<u16>) -> Str<'h>
    requires { length (utf8 (repair units.items)) ≤ MAX_TEXT_BYTES }
    ensures text { result.text ≡ repair units.items }
    ensures row { result.row ≡ rows.owned true (rows.is_ascii units.items) (rows.is_ascii units.items) (length units.items) }
    ensures place { result.place ≡ own }
{
    let object = object_beside_units(units.as_slice());
    Str {
        object,
        storage: Storage::Units(units),
    }
}

// The two words of a value that keeps these units in a vector.
fn object_beside_units(units: &[u16]) -> Object
    requires { length (utf8 (repair units.now)) ≤ MAX_TEXT_BYTES }
    ensures describes { Describes (rows.owned true (rows.is_ascii units.now) (rows.is_ascii units.now) (length units.now)) result }
    ensures units { (i : ℕ) → slice_index units.now i < 2 ^ 16 }
{
    let ascii = are_ascii(units);
    Object::owned(ascii, ascii, true, units.len() as u64)
}

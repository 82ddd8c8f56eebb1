//! Parts of a value's text, between two scalar boundaries: their lengths, their UTF-8, and values of them.
//!
//! All forms are read alike, by content words: eight bytes or four units each, out of the slot, the literal, the vector or the two words.
ghost use Rattle.std.specs.Prelude.{◌≡◌, ◌+◌, ◌-◌, ◌*◌, ◌<◌, ◌≤◌, true, length, map, slice_index, IfOk, IfErr, IsUtf8};
ghost use Rattle.std.specs.List.{range_with_len};
ghost use Rattle.text_spec.specs.declared.encoding.Encoding.TheVariants.{Utf8, Utf16};
ghost use Rattle.text_spec.specs.Boundaries.{IsScalarBoundary};
ghost use Rattle.text_spec.specs.Packed.{byte_of, unit_of, content_words};
ghost use Rattle.text_spec.specs.Text.{utf8, utf16};
ghost use Rattle.text_spec.specs.Offsets.{start};
ghost use Rattle.text_spec.specs.Views.{width_in, other_width, size_in};
ghost use Rattle.object_words.specs.Rows as rows;
ghost use Rattle.word_units.specs.Parts.{IsBoundaryIn, scalars_before};
ghost use Rattle.slot_accounts.specs.Account.{Did, Keeps};
ghost use Rattle.str_value.specs.Meaning.{storage_of, own_part, OfHeap, credit_of, own};
ghost use Rattle.str_value.specs.Meaning as meaning;
ghost use Rattle.str_value.specs.Making.{MadeOfUtf8, making};

use crate::error::MakeError;
use crate::lengths::{Lengths, lengths_of};
use crate::limits::MAX_TEXT_BYTES;
use crate::making_utf8::small;
use crate::storage::{Storage, StrPass};
use crate::text::content_word;
use crate::units::text_between;
use crate::value::Str;
use object_words::SMALL_CAPACITY;
use std::alloc::Global;
use std::marker::Brand;
use std::sync::ledger::{Blank, Ledger};
use text_spec::{Encoding, OutOfMemory};
use word_units::{Steps, Text, fill_forward, pass_run};

impl<'h> Str<'h> {
    /// How many bytes of UTF-8 the text between two scalar boundaries takes, which are places in the storage's code units.
    ///
    /// One pass over the part in UTF-16 storage, and none in UTF-8 storage. No memory.
    pub fn utf8_length(&mut self, low: u64, high: u64) -> u64
        requires low { IsScalarBoundary (width_in (storage_of self.old.row)) self.old.text low }
        requires high { IsScalarBoundary (width_in (storage_of self.old.row)) self.old.text high }
        requires order { low ≤ high }
        ensures value { result ≡ length (utf8 (meaning.text_between self.old low high)) }
        ensures limit { result ≤ MAX_TEXT_BYTES }
        ensures kept { self.new ≡ self.old }
    {
        // What the value keeps to is known where it is looked at.
        let _object = self.object;
        match self.encoding() {
            Encoding::Utf8 => high - low,
            Encoding::Utf16 => measured::<Brand>(self, low, high, Blank::new(1)).0,
        }
    }

    /// The UTF-8 of the text between two scalar boundaries, which are places in the storage's code units.
    ///
    /// One pass over the part. In UTF-8 storage it takes memory for what it copies alone, and in UTF-16 storage for the units besides.
    pub fn copy_utf8(&mut self, alloc: Global, low: u64, high: u64) -> Result<Vec<u8>, OutOfMemory>
        requires low { IsScalarBoundary (width_in (storage_of self.old.row)) self.old.text low }
        requires high { IsScalarBoundary (width_in (storage_of self.old.row)) self.old.text high }
        requires order { low ≤ high }
        ensures value { IfOk result (λ v. v.items ≡ utf8 (meaning.text_between self.old low high)) }
        ensures utf8 { IfOk result (λ v. IsUtf8 v.items) }
        ensures kept { self.new ≡ self.old }
    {
        // What the value keeps to is known where it is looked at.
        let _object = self.object;
        match self.encoding() {
            Encoding::Utf8 => bytes_by_words(alloc, self, low, high),
            Encoding::Utf16 => {
                let units = units_by_words(alloc, self, low, high)?;
                text_between(alloc, units.as_slice(), 0, units.len())
            }
        }
    }

    /// The text's lengths in its three units, in one pass over it. No memory.
    pub fn lengths(&mut self) -> Lengths
        ensures scalars { result.scalars ≡ length self.old.text }
        ensures utf16 { result.utf16 ≡ length (utf16 self.old.text) }
        ensures utf8 { result.utf8 ≡ length (utf8 self.old.text) }
        ensures kept { self.new ≡ self.old }
    {
        if let Storage::Bytes(kept) = &self.storage {
            return lengths_of(kept.as_slice());
        }
        let count = self.count();
        let (other, scalars) = measured::<Brand>(self, 0, count, Blank::new(1));
        match self.encoding() {
            Encoding::Utf8 => Lengths {
                scalars,
                utf16: other,
                utf8: count,
            },
            Encoding::Utf16 => Lengths {
                scalars,
                utf16: count,
                utf8: other,
            },
        }
    }

    /// The value of the text between two scalar boundaries, which are places in the storage's code units.
    ///
    /// It is the value that `from_utf8` makes of that text's UTF-8, with its events. One pass over the part, and memory for its UTF-8
    /// where that is more than 15 bytes. A refusal leaves the pass.
    pub fn copy_part(
        &mut self,
        alloc: Global,
        pass: &mut StrPass<'h>,
        low: u64,
        high: u64,
    ) -> Result<Str<'h>, MakeError>
        requires low { IsScalarBoundary (width_in (storage_of self.old.row)) self.old.text low }
        requires high { IsScalarBoundary (width_in (storage_of self.old.row)) self.old.text high }
        requires order { low ≤ high }
        ensures text { IfOk result (λ s. s.text ≡ meaning.text_between self.old low high) }
        ensures made { IfOk result (λ s. MadeOfUtf8 pass.old pass.new (utf8 (meaning.text_between self.old low high)) s.place s.row) }
        ensures did { IfOk result (λ s. Did (making s.place) pass.old pass.new) }
        ensures credits { IfOk result (λ s. Keeps pass.old 0 pass.new (credit_of s.place)) }
        ensures one_heap { pass.new.heap ≡ pass.old.heap }
        ensures heap { IfOk result (λ s. OfHeap pass.new s.place) }
        ensures memory { IfErr result (λ e. e ≡ MakeError.OutOfMemory) }
        ensures small_is_free { IfErr result (λ e. SMALL_CAPACITY < length (utf8 (meaning.text_between self.old low high))) }
        ensures refused { IfErr result (λ e. pass.new ≡ pass.old) }
        ensures kept { self.new ≡ self.old }
    {
        let _object = self.object;
        if self.utf8_length(low, high) <= SMALL_CAPACITY as u64 {
            return Ok(small_part::<Brand>(self, low, high, Blank::new(1)));
        }
        let text = self.copy_utf8(alloc, low, high)?;
        Ok(Str::from_vec(pass, text))
    }
}

// How many code units of the other encoding the text between two scalar boundaries takes, and how many scalars it has, in one pass over it.
fn measured<L: Ledger>(value: &mut Str, low: u64, high: u64, blank: Blank) -> (u64, u64)
    requires name { blank.name ≡ L.name }
    requires parts { blank.parts ≡ L.parts }
    requires one { blank.parts ≡ 1 }
    requires low { IsBoundaryIn (own_part value.old) low }
    requires high { IsBoundaryIn (own_part value.old) high }
    requires order { low ≤ high }
    ensures other { start (other_width (storage_of value.old.row)) value.old.text (scalars_before (own_part value.old) low) + result.0
        ≡ start (other_width (storage_of value.old.row)) value.old.text (scalars_before (own_part value.old) high) }
    ensures scalars { scalars_before (own_part value.old) low + result.1 ≡ scalars_before (own_part value.old) high }
    ensures kept { value.new ≡ value.old }
{
    // What the value keeps to is known where it is looked at.
    let _object = value.object;
    let mut steps = Steps::<L>::from_blank(blank);
    let mut at = low;
    let mut other = 0;
    let mut scalars = 0;
    'runs: while at < high {
        let (next, units, more) = pass_run(value, at, high - at, &mut steps);
        at = next;
        other += units;
        scalars += more;
    }
    (other, scalars)
}

// Content word `k`, which is `word` already where `read` says so.
fn word_again(value: &mut Str, word: u64, k: u64, read: bool) -> u64
    requires inside { k < content_words (storage_of value.old.row) (size_in (storage_of value.old.row) value.old.text) }
    requires had { read ≡ true → word ≡ slice_index value.old.words k }
    ensures word { result ≡ slice_index value.old.words k }
    ensures kept { value.new ≡ value.old }
{
    if read {
        return word;
    }
    content_word(value, k)
}

// The bytes of UTF-8 storage from place `low` to before place `high`. Each word is read once.
pub(crate) fn bytes_by_words(
    alloc: Global,
    value: &mut Str,
    low: u64,
    high: u64,
) -> Result<Vec<u8>, OutOfMemory>
    requires storage { storage_of value.old.row ≡ Utf8 }
    requires order { low ≤ high }
    requires inside { high ≤ size_in Utf8 value.old.text }
    ensures items { IfOk result (λ v. v.items ≡ map (byte_of value.old.words) (range_with_len low (high - low))) }
    ensures kept { value.new ≡ value.old }
{
    let mut bytes = Vec::with_capacity(alloc, (high - low) as usize)?;
    let mut word = 0;
    for p in low..high {
        word = word_again(value, word, p / 8, (p > low) & (p % 8 > 0));
        bytes.push_reserved(((word >> (8 * (p % 8))) % 256) as u8);
    }
    Ok(bytes)
}

// The units of UTF-16 storage from place `low` to before place `high`. Each word is read once.
pub(crate) fn units_by_words(
    alloc: Global,
    value: &mut Str,
    low: u64,
    high: u64,
) -> Result<Vec<u16>, OutOfMemory>
    requires storage { storage_of value.old.row ≡ Utf16 }
    requires order { low ≤ high }
    requires inside { high ≤ size_in Utf16 value.old.text }
    ensures items { IfOk result (λ v. v.items ≡ map (unit_of value.old.words) (range_with_len low (high - low))) }
    ensures kept { value.new ≡ value.old }
{
    let mut units = Vec::with_capacity(alloc, (high - low) as usize)?;
    let mut word = 0;
    for p in low..high {
        word = word_again(value, word, p / 4, (p > low) & (p % 4 > 0));
        units.push_reserved(((word >> (16 * (p % 4))) % 65536) as u16);
    }
    Ok(units)
}

// The Small value of a part that takes at most 15 bytes of UTF-8.
fn small_part<'h, L: Ledger>(value: &mut Str<'h>, low: u64, high: u64, blank: Blank) -> Str<'h>
    requires name { blank.name ≡ L.name }
    requires parts { blank.parts ≡ L.parts }
    requires one { blank.parts ≡ 1 }
    requires low { IsBoundaryIn (own_part value.old) low }
    requires high { IsBoundaryIn (own_part value.old) high }
    requires order { low ≤ high }
    requires few { length (utf8 (meaning.text_between value.old low high)) ≤ SMALL_CAPACITY }
    ensures text { result.text ≡ meaning.text_between value.old low high }
    ensures row { result.row ≡ rows.small (utf8 (meaning.text_between value.old low high)) }
    ensures place { result.place ≡ own }
    ensures kept { value.new ≡ value.old }
{
    let _object = value.object;
    let length = value.utf8_length(low, high) as usize;
    let mut steps = Steps::<L>::from_blank(blank);
    let mut front = [0; 64];
    let (_size, _end) = fill_forward(value, low, &mut front, &mut steps);
    match small(&front[..length]) {
        Some(part) => part,
        None => unreachable!(),
    }
}

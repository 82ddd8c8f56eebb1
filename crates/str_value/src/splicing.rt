//! Edits of a value: another text in place of a part of its own.
ghost use Rattle.std.specs.Prelude.{◌≡◌, ◌≢◌, ℕ, ◌+◌, ◌*◌, ◌<◌, ◌≤◌, ◌++◌, ◌↔◌, ◌⊎◌, true, length, take, chars, OnOk, OnErr, IfOk, IsUtf8};
ghost use Rattle.std.specs.Str.{all_scalars};
ghost use Rattle.text_spec.specs.declared.encoding.Encoding.TheVariants.{Utf8, Utf16};
ghost use Rattle.text_spec.specs.Boundaries.{IsScalarBoundary};
ghost use Rattle.text_spec.specs.Text.{utf8};
ghost use Rattle.text_spec.specs.Views.{width_in};
ghost use Rattle.object_words.specs.Rows.{form_of};
ghost use Rattle.object_words.specs.Rows as rows;
ghost use Rattle.object_words.specs.declared.form.Form.TheVariants.{Owned};
ghost use Rattle.str_value.specs.Meaning.{spliced, storage_of, byte_place, OfHeap, own};
ghost use Rattle.str_value.specs.Making.{HasRoom};
ghost use Rattle.str_value.specs.Editing.{IsRemade, IsMadeAnew, IsWritten, IsUnwritten, new_bytes};

use crate::error::MakeError;
use crate::limits::MAX_TEXT_BYTES;
use crate::making_utf8::small;
use crate::storage::StrPass;
use crate::value::Str;
use crate::wrote::Wrote;
use object_words::SMALL_CAPACITY;
use slot_edits::Part;
use std::alloc::Global;
use std::sync::ledger::Ledger;
use text_spec::OutOfMemory;
use word_units::{Steps, Text, fill_forward};

impl<'h> Str<'h> {
    /// Puts the text `with` in place of the text between two scalar boundaries, which are places in the storage's code units. The answer
    /// tells where the new text stands, by the first rule that holds:
    ///
    /// - `InPlace`: the value is Native, the new text fits its slot, and the value is the slot's only holder, which is asked unless it is
    ///   known. Breadcrumbs are taken away first. What lies behind the part is moved by words, and nothing before it is touched.
    /// - `Small`: it has at most 15 bytes.
    /// - `Copied`: it fits a slot, and the pass shows a free slot and a credit. The old value is given up behind the Publish.
    /// - `Owned`: in a vector. One that the value has is edited, what lies behind the part being moved.
    ///
    /// Where a Native value whose new text fits its slot isn't written in place, its reference was asked first, in vain. Only Owned takes
    /// memory, and a vector that the value has only where the text grows. Refused: `TooLong` exactly where the new text has more than
    /// `MAX_TEXT_BYTES`, the value and the pass being as they were, and `OutOfMemory`, where the reference may have been asked. At most 260
    /// words of the text are counted.
    pub fn splice<L: Ledger>(
        &mut self,
        alloc: Global,
        pass: &mut StrPass<'h>,
        low: u64,
        high: u64,
        with: &str,
        steps: &mut Steps<L>,
    ) -> Result<Wrote, MakeError>
        requires heap { OfHeap pass.old self.old.place }
        requires low { IsScalarBoundary (width_in (storage_of self.old.row)) self.old.text low }
        requires high { IsScalarBoundary (width_in (storage_of self.old.row)) self.old.text high }
        requires order { low ≤ high }
        ensures text { OnOk result (self.new.text ≡ spliced self.old low high (chars with.now)) }
        ensures written { IfOk result (λ wrote. IsWritten wrote pass.old self.old (byte_place self.old low) (utf8 (spliced self.old low high (chars with.now))) pass.new self.new) }
        ensures one_heap { pass.new.heap ≡ pass.old.heap }
        ensures heap { OfHeap pass.new self.new.place }

        ensures not_utf8 { (valid : ℕ) → result ≢ Err (MakeError.NotUtf8 valid) }
        ensures too_long { (n : ℕ) → (result ≡ Err (MakeError.TooLong n))
            ↔ ((n ≡ length (utf8 (spliced self.old low high (chars with.now)))) × (MAX_TEXT_BYTES < n)) }
        ensures copied_is_free { result ≡ Err MakeError.OutOfMemory → (SMALL_CAPACITY < length (utf8 (spliced self.old low high (chars with.now))))
            × ¬ HasRoom pass.old Utf8 (length (utf8 (spliced self.old low high (chars with.now)))) }
        ensures no_longer_is_free { result ≡ Err MakeError.OutOfMemory → (storage_of self.old.row ≡ Utf16) ⊎ (form_of self.old.row ≢ Owned)
            ⊎ (length (utf8 self.old.text) < length (utf8 (spliced self.old low high (chars with.now)))) }
        ensures kept { (n : ℕ) → result ≡ Err (MakeError.TooLong n) → (self.new ≡ self.old) × (pass.new ≡ pass.old) }
        ensures unwritten { result ≡ Err MakeError.OutOfMemory → IsUnwritten pass.old self.old (length (utf8 (spliced self.old low high (chars with.now)))) pass.new self.new }
        ensures cost { steps.new ≤ steps.old + 4 * 65 }
    {
        let bytes = with.as_bytes();
        let part = self.part_utf8(low, high);
        let length = part.count - (part.high - part.low) + bytes.len() as u64;
        if length > MAX_TEXT_BYTES as u64 {
            return Err(MakeError::TooLong { len: length });
        }
        if self.overwrite(pass, part, bytes) {
            return Ok(Wrote::InPlace);
        }
        Ok(self.remake(alloc, pass, part, high, bytes, steps)?)
    }

    // Makes the value anew of its UTF-8 with bytes in place of a part, which ends at place `high` of the storage.
    fn remake<L: Ledger>(
        &mut self,
        alloc: Global,
        pass: &mut StrPass<'h>,
        part: Part,
        high: u64,
        with: &[u8],
        steps: &mut Steps<L>,
    ) -> Result<Wrote, OutOfMemory>
        requires heap { OfHeap pass.old self.old.place }
        requires order { part.low ≤ part.high }
        requires inside { part.high ≤ part.count }
        requires count { part.count ≡ length (utf8 self.old.text) }
        requires high { IsScalarBoundary (width_in (storage_of self.old.row)) self.old.text high }
        requires high8 { part.high ≡ byte_place self.old high }
        requires utf8 { IsUtf8 (new_bytes self.old part with.now) }
        requires limit { length (new_bytes self.old part with.now) ≤ MAX_TEXT_BYTES }
        ensures text { OnOk result (self.new.text ≡ chars (new_bytes self.old part with.now)) }
        ensures anew { IfOk result (λ wrote. IsMadeAnew wrote pass.old self.old (new_bytes self.old part with.now) pass.new self.new) }
        ensures one_heap { pass.new.heap ≡ pass.old.heap }
        ensures heap { OfHeap pass.new self.new.place }
        ensures refused { OnErr result ((self.new ≡ self.old) × (pass.new ≡ pass.old)) }
        ensures long { OnErr result (SMALL_CAPACITY < length (new_bytes self.old part with.now)) }
        ensures no_slot { OnErr result (¬ HasRoom pass.old Utf8 (length (new_bytes self.old part with.now))) }
        ensures longer { OnErr result ((storage_of self.old.row ≡ Utf16) ⊎ (form_of self.old.row ≢ Owned)
            ⊎ (length (utf8 self.old.text) < length (new_bytes self.old part with.now))) }
        ensures cost { steps.new ≤ steps.old + 4 * 65 }
    {
        let length = part.count - (part.high - part.low) + with.len() as u64;
        if length <= SMALL_CAPACITY as u64 {
            self.hold_spliced(pass, part, high, with, steps);
            return Ok(Wrote::Small);
        }
        if self.move_spliced(pass, part, high, with) {
            return Ok(Wrote::Copied);
        }
        self.own_spliced(alloc, pass, part, with)?;
        Ok(Wrote::Owned)
    }

    // Where the text between two scalar boundaries of the storage stands in the UTF-8 of the text, in one pass over UTF-16.
    fn part_utf8(&mut self, low: u64, high: u64) -> Part
        requires low { IsScalarBoundary (width_in (storage_of self.old.row)) self.old.text low }
        requires high { IsScalarBoundary (width_in (storage_of self.old.row)) self.old.text high }
        requires order { low ≤ high }
        ensures low { result.low ≡ byte_place self.old low }
        ensures high { result.high ≡ byte_place self.old high }
        ensures count { result.count ≡ length (utf8 self.old.text) }
        ensures order { (result.low ≤ result.high) × (result.high ≤ result.count) }
        ensures limit { result.count ≤ MAX_TEXT_BYTES }
        ensures kept { self.new ≡ self.old }
        ensures scalars { all_scalars self.old.text ≡ true }
    {
        let end = self.object.count();
        let before = self.utf8_length(0, low);
        let within = self.utf8_length(low, high);
        let behind = self.utf8_length(high, end);
        Part {
            low: before,
            high: before + within,
            count: before + within + behind,
        }
    }

    // Puts bytes in place of a part of the UTF-8, where the two words then hold all of it. The part ends at place `high` of the storage.
    fn hold_spliced<L: Ledger>(
        &mut self,
        pass: &mut StrPass<'h>,
        part: Part,
        high: u64,
        with: &[u8],
        steps: &mut Steps<L>,
    )
        requires heap { OfHeap pass.old self.old.place }
        requires order { part.low ≤ part.high }
        requires inside { part.high ≤ length (utf8 self.old.text) }
        requires high { IsScalarBoundary (width_in (storage_of self.old.row)) self.old.text high }
        requires high8 { part.high ≡ byte_place self.old high }
        requires utf8 { IsUtf8 (new_bytes self.old part with.now) }
        requires few { length (new_bytes self.old part with.now) ≤ SMALL_CAPACITY }
        ensures text { self.new.text ≡ chars (new_bytes self.old part with.now) }
        ensures remade { IsRemade pass.old self.old (new_bytes self.old part with.now) pass.new self.new }
        ensures one_heap { pass.new.heap ≡ pass.old.heap }
        ensures heap { OfHeap pass.new self.new.place }
        ensures cost { steps.new ≤ steps.old + 4 * 65 }
    {
        let value = self.small_after(part, high, with, steps);
        std::mem::replace(self, value).release(pass);
    }

    // The Small value of these bytes. The text is read a scalar at a time, so that no form needs memory on the way.
    fn small_after<L: Ledger>(
        &mut self,
        part: Part,
        high: u64,
        with: &[u8],
        steps: &mut Steps<L>,
    ) -> Str<'h>
        requires order { part.low ≤ part.high }
        requires inside { part.high ≤ length (utf8 self.old.text) }
        requires high { IsScalarBoundary (width_in (storage_of self.old.row)) self.old.text high }
        requires high8 { part.high ≡ byte_place self.old high }
        requires utf8 { IsUtf8 (new_bytes self.old part with.now) }
        requires few { length (new_bytes self.old part with.now) ≤ SMALL_CAPACITY }
        ensures text { result.text ≡ chars (new_bytes self.old part with.now) }
        ensures row { result.row ≡ rows.small (new_bytes self.old part with.now) }
        ensures place { result.place ≡ own }
        ensures kept { self.new ≡ self.old }
        ensures cost { steps.new ≤ steps.old + 4 * 65 }
    {
        let mut front = [0; 64];
        let mut back = [0; 64];
        let (_size, _at) = fill_forward(self, 0, &mut front, steps);
        let (size, _end) = fill_forward(self, high, &mut back, steps);
        small_of(&front[..part.low as usize], with, &back[..size])
    }
}

// The Small value of three pieces of UTF-8, one behind another.
fn small_of<'h>(front: &[u8], with: &[u8], back: &[u8]) -> Str<'h>
    requires utf8 { IsUtf8 (front.now ++ (with.now ++ back.now)) }
    requires few { length front.now + length with.now + length back.now ≤ SMALL_CAPACITY }
    ensures text { result.text ≡ chars (front.now ++ (with.now ++ back.now)) }
    ensures row { result.row ≡ rows.small (front.now ++ (with.now ++ back.now)) }
    ensures place { result.place ≡ own }
{
    let mut block = [0; SMALL_CAPACITY];
    let low = put(&mut block, 0, front);
    let high = put(&mut block, low, with);
    let end = put(&mut block, high, back);
    match small(&block[..end]) {
        Some(value) => value,
        None => unreachable!(),
    }
}

// Writes bytes behind the first `size` of a block, and answers how many there are then.
fn put(block: &mut [u8; SMALL_CAPACITY], size: usize, bytes: &[u8]) -> usize
    requires { size + length bytes.now ≤ SMALL_CAPACITY }
    ensures bytes { take result block.new ≡ take size block.old ++ bytes.now }
    ensures size { result ≡ size + length bytes.now }
{
    let end = size + bytes.len();
    block[size..end].copy_from_slice(bytes);
    end
}

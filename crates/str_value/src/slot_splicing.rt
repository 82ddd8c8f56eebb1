//! Edits of a text that stands in a slot: over the old text, where nobody else holds the slot, and into a new slot.
ghost use Rattle.std.specs.Prelude.{◌≡◌, ◌+◌, ◌*◌, ◌<◌, ◌≤◌, true, false, length, chars, IsUtf8};
ghost use Rattle.text_spec.specs.declared.encoding.Encoding.TheVariants.{Utf8};
ghost use Rattle.text_spec.specs.Boundaries.{IsScalarBoundary};
ghost use Rattle.text_spec.specs.Text.{utf8};
ghost use Rattle.text_spec.specs.Views.{width_in};
ghost use Rattle.str_value.specs.Meaning.{storage_of, byte_place, OfHeap};
ghost use Rattle.str_value.specs.Making.{HasRoom};
ghost use Rattle.str_value.specs.Editing.{IsWritten, IsUnwritten, IsRemade, new_bytes};
ghost use Rattle.str_value.specs.declared.limits.TheConstants.{MAX_TEXT_BYTES};
ghost use Rattle.str_value.specs.declared.wrote.Wrote.TheVariants as wrote;
ghost use Rattle.object_words.specs.declared.layout.TheConstants.{SMALL_CAPACITY};

use crate::drafting::publish_spliced;
use crate::storage::{Storage, StrPass};
use crate::value::Str;
use slot_edits::{Part, replace_copied, replace_in_place};

impl<'h> Str<'h> {
    // Writes bytes in place of a part of the UTF-8 over the old text, where that is Native, the new one fits its slot and the value is the
    // slot's only holder; whether it is.
    pub(crate) fn overwrite(&mut self, pass: &mut StrPass<'h>, part: Part, with: &[u8]) -> bool
        requires heap { OfHeap pass.old self.old.place }
        requires order { part.low ≤ part.high }
        requires inside { part.high ≤ part.count }
        requires count { part.count ≡ length (utf8 self.old.text) }
        requires utf8 { IsUtf8 (new_bytes self.old part with.now) }
        requires limit { length (new_bytes self.old part with.now) ≤ MAX_TEXT_BYTES }
        ensures text { result ≡ true → self.new.text ≡ chars (new_bytes self.old part with.now) }
        ensures written { result ≡ true → IsWritten wrote.InPlace pass.old self.old part.low (new_bytes self.old part with.now) pass.new self.new }
        ensures unwritten { result ≡ false → IsUnwritten pass.old self.old (length (new_bytes self.old part with.now)) pass.new self.new }
        ensures one_heap { pass.new.heap ≡ pass.old.heap }
        ensures heap { OfHeap pass.new self.new.place }
    {
        let marked = self.object.ascii();
        let length = part.count - (part.high - part.low) + with.len() as u64;
        if length + 8 > 8 * pass.capacity_words() as u64 {
            return false;
        }
        match std::mem::replace(&mut self.storage, Storage::Words) {
            Storage::Native(reference, crumbs) => {
                let (reference, written) = replace_in_place(pass, reference, part, with, marked);
                match written {
                    Some(object) => {
                        self.object = object;
                        self.storage = Storage::Native(reference, 0);
                        true
                    }
                    None => {
                        self.storage = Storage::Native(reference, crumbs);
                        false
                    }
                }
            }
            other => {
                self.storage = other;
                false
            }
        }
    }

    // Puts bytes in place of a part of the UTF-8 in a new slot, where the value is Native, a slot has room and the pass shows it; whether
    // it does. Each word is written straight from the old slot's words.
    pub(crate) fn move_native(&mut self, pass: &mut StrPass<'h>, part: Part, with: &[u8]) -> bool
        requires heap { OfHeap pass.old self.old.place }
        requires order { part.low ≤ part.high }
        requires inside { part.high ≤ part.count }
        requires count { part.count ≡ length (utf8 self.old.text) }
        requires utf8 { IsUtf8 (new_bytes self.old part with.now) }
        requires long { SMALL_CAPACITY < length (new_bytes self.old part with.now) }
        requires limit { length (new_bytes self.old part with.now) ≤ MAX_TEXT_BYTES }
        requires room { length (new_bytes self.old part with.now) + 8 ≤ 8 * pass.old.heap.layout.capacity_words }
        ensures text { result ≡ true → self.new.text ≡ chars (new_bytes self.old part with.now) }
        ensures remade { result ≡ true → IsRemade pass.old self.old (new_bytes self.old part with.now) pass.new self.new }
        ensures shown { result ≡ true → HasRoom pass.old Utf8 (length (new_bytes self.old part with.now)) }
        ensures kept { result ≡ false → (self.new ≡ self.old) × (pass.new ≡ pass.old) }
        ensures one_heap { pass.new.heap ≡ pass.old.heap }
        ensures heap { OfHeap pass.new self.new.place }
    {
        let marked = self.object.ascii();
        let _ = pass.capacity_words();
        match std::mem::replace(&mut self.storage, Storage::Words) {
            Storage::Native(reference, crumbs) => {
                let (reference, copied) = replace_copied(pass, reference, part, with, marked);
                match copied {
                    Some(object) => {
                        self.object = object;
                        self.storage = Storage::Native(reference, 0);
                        true
                    }
                    None => {
                        self.storage = Storage::Native(reference, crumbs);
                        false
                    }
                }
            }
            other => {
                self.storage = other;
                false
            }
        }
    }

    // Puts bytes in place of a part of the UTF-8 in a new slot, where one has room and the pass shows it; whether it does. The part ends at
    // place `high` of the storage.
    pub(crate) fn move_spliced(
        &mut self,
        pass: &mut StrPass<'h>,
        part: Part,
        high: u64,
        with: &[u8],
    ) -> bool
        requires heap { OfHeap pass.old self.old.place }
        requires order { part.low ≤ part.high }
        requires inside { part.high ≤ part.count }
        requires count { part.count ≡ length (utf8 self.old.text) }
        requires high { IsScalarBoundary (width_in (storage_of self.old.row)) self.old.text high }
        requires high8 { part.high ≡ byte_place self.old high }
        requires utf8 { IsUtf8 (new_bytes self.old part with.now) }
        requires long { SMALL_CAPACITY < length (new_bytes self.old part with.now) }
        requires limit { length (new_bytes self.old part with.now) ≤ MAX_TEXT_BYTES }
        ensures text { result ≡ true → self.new.text ≡ chars (new_bytes self.old part with.now) }
        ensures remade { result ≡ true → IsRemade pass.old self.old (new_bytes self.old part with.now) pass.new self.new }
        ensures shown { result ≡ true → HasRoom pass.old Utf8 (length (new_bytes self.old part with.now)) }
        ensures kept { result ≡ false → (self.new ≡ self.old) × (pass.new ≡ pass.old) }
        ensures none { result ≡ false → ¬ HasRoom pass.old Utf8 (length (new_bytes self.old part with.now)) }
        ensures one_heap { pass.new.heap ≡ pass.old.heap }
        ensures heap { OfHeap pass.new self.new.place }
    {
        let length = part.count - (part.high - part.low) + with.len() as u64;
        if length + 8 > 8 * pass.capacity_words() as u64 {
            return false;
        }
        if self.move_native(pass, part, with) {
            return true;
        }
        match publish_spliced(self, pass, part, high, with) {
            Some(value) => {
                std::mem::replace(self, value).release(pass);
                true
            }
            None => false,
        }
    }
}

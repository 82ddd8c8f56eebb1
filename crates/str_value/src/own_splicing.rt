//! Edits of a text in a vector of the value's own.
ghost use Rattle.std.specs.Prelude.{◌≡◌, ◌≢◌, ◌<◌, ◌≤◌, ◌⊎◌, length, chars, OnOk, OnErr, IsUtf8};
ghost use Rattle.std.specs.List.{splice};
ghost use Rattle.text_spec.specs.declared.encoding.Encoding.TheVariants.{Utf8, Utf16};
ghost use Rattle.text_spec.specs.Text.{utf8};
ghost use Rattle.object_words.specs.Rows as rows;
ghost use Rattle.object_words.specs.Rows.{form_of};
ghost use Rattle.object_words.specs.declared.form.Form.TheVariants.{Owned};
ghost use Rattle.str_value.specs.Meaning.{storage_of, OfHeap};
ghost use Rattle.str_value.specs.Making.{HasRoom};
ghost use Rattle.str_value.specs.Editing.{IsRemade, new_bytes};

use crate::limits::MAX_TEXT_BYTES;
use crate::making_utf8::is_ascii;
use crate::replacing::replace_between;
use crate::storage::{Storage, StrPass};
use crate::taking::keep_bytes;
use crate::value::Str;
use object_words::{Object, SMALL_CAPACITY};
use slot_edits::Part;
use std::alloc::Global;
use text_spec::OutOfMemory;
use word_units::Text;

impl<'h> Str<'h> {
    // Puts bytes in place of a part of the UTF-8, where all of it is then too long for the two words and no slot is to be had. A vector of
    // UTF-8 is edited, and any other text is read into one.
    pub(crate) fn own_spliced(
        &mut self,
        alloc: Global,
        pass: &mut StrPass<'h>,
        part: Part,
        with: &[u8],
    ) -> Result<(), OutOfMemory>
        requires heap { OfHeap pass.old self.old.place }
        requires order { part.low ≤ part.high }
        requires inside { part.high ≤ length (utf8 self.old.text) }
        requires utf8 { IsUtf8 (new_bytes self.old part with.now) }
        requires long { SMALL_CAPACITY < length (new_bytes self.old part with.now) }
        requires limit { length (new_bytes self.old part with.now) ≤ MAX_TEXT_BYTES }
        requires no_slot { ¬ HasRoom pass.old Utf8 (length (new_bytes self.old part with.now)) }
        ensures text { OnOk result (self.new.text ≡ chars (new_bytes self.old part with.now)) }
        ensures remade { OnOk result (IsRemade pass.old self.old (new_bytes self.old part with.now) pass.new self.new) }
        ensures one_heap { pass.new.heap ≡ pass.old.heap }
        ensures heap { OfHeap pass.new self.new.place }
        ensures refused { OnErr result ((self.new ≡ self.old) × (pass.new ≡ pass.old)) }
        ensures longer { OnErr result ((storage_of self.old.row ≡ Utf16) ⊎ (form_of self.old.row ≢ Owned)
            ⊎ (length (utf8 self.old.text) < length (new_bytes self.old part with.now))) }
    {
        let marked = self.object.ascii();
        match std::mem::replace(&mut self.storage, Storage::Words) {
            Storage::Bytes(kept) => {
                let mut kept = kept;
                let ascii = ascii_after(marked, kept.as_slice(), part, with);
                if let Err(wanting) = replace_between(
                    &mut kept,
                    part.low as usize,
                    part.high as usize,
                    with,
                ) {
                    self.storage = Storage::Bytes(kept);
                    return Err(wanting.into());
                }
                self.object = Object::owned(ascii, ascii, false, kept.len() as u64);
                self.storage = Storage::Bytes(kept);
                Ok(())
            }
            other => {
                self.storage = other;
                self.own_copy_spliced(alloc, pass, part, with)
            }
        }
    }

    // The same of a value that has no vector of UTF-8: its text is read into one.
    fn own_copy_spliced(
        &mut self,
        alloc: Global,
        pass: &mut StrPass<'h>,
        part: Part,
        with: &[u8],
    ) -> Result<(), OutOfMemory>
        requires heap { OfHeap pass.old self.old.place }
        requires order { part.low ≤ part.high }
        requires inside { part.high ≤ length (utf8 self.old.text) }
        requires utf8 { IsUtf8 (new_bytes self.old part with.now) }
        requires long { SMALL_CAPACITY < length (new_bytes self.old part with.now) }
        requires limit { length (new_bytes self.old part with.now) ≤ MAX_TEXT_BYTES }
        requires no_slot { ¬ HasRoom pass.old Utf8 (length (new_bytes self.old part with.now)) }
        ensures text { OnOk result (self.new.text ≡ chars (new_bytes self.old part with.now)) }
        ensures remade { OnOk result (IsRemade pass.old self.old (new_bytes self.old part with.now) pass.new self.new) }
        ensures one_heap { pass.new.heap ≡ pass.old.heap }
        ensures heap { OfHeap pass.new self.new.place }
        ensures refused { OnErr result ((self.new ≡ self.old) × (pass.new ≡ pass.old)) }
    {
        let end = self.count();
        let mut bytes = self.copy_utf8(alloc, 0, end)?;
        replace_between(&mut bytes, part.low as usize, part.high as usize, with)?;
        std::mem::replace(self, keep_bytes(bytes)).release(pass);
        Ok(())
    }
}

// Whether all bytes are ASCII once a part of them is replaced, where `marked` says whether all are before.
fn ascii_after(marked: bool, bytes: &[u8], part: Part, with: &[u8]) -> bool
    requires marked { marked ≡ rows.is_ascii bytes.now }
    requires order { part.low ≤ part.high }
    requires inside { part.high ≤ length bytes.now }
    ensures { result ≡ rows.is_ascii (splice bytes.now part.low part.high with.now) }
{
    let added = is_ascii(with);
    if marked || !added {
        return added;
    }
    let low = part.low as usize;
    let high = part.high as usize;
    // What isn't ASCII is still there where it doesn't lie in the part alone.
    if is_ascii(&bytes[low..high]) {
        return false;
    }
    is_ascii(&bytes[..low]) && is_ascii(&bytes[high..])
}

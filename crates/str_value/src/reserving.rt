//! A value is readied for edits that are written over its text.
ghost use Rattle.std.specs.Prelude.{◌≡◌, ◌+◌, ◌*◌, true, false, length};
ghost use Rattle.text_spec.specs.Text.{utf8};
ghost use Rattle.slot_table.specs.Owners.{RefSeen};
ghost use Rattle.slot_edits.specs.Parts.{Fits};
ghost use Rattle.str_value.specs.Meaning.{OfHeap};
ghost use Rattle.str_value.specs.Editing.{IsStripped, IsUnwritten, IsReserved, IsNotReserved};

use crate::drafting::publish_spliced;
use crate::storage::{Storage, StrPass};
use crate::value::Str;
use slot_edits::{Part, ready};
use word_units::Text;

impl<'h> Str<'h> {
    /// Makes the value one that an edit writes over in place: Native, its slot's only holder, without breadcrumbs. Whether it is.
    ///
    /// A Native value is asked whether it is its slot's only holder, unless that is known, and its breadcrumbs are taken away. Any other
    /// value, and one whose slot has another holder, is published in a slot of its own, as UTF-8, and the old value is given up then. `false`
    /// exactly where the text's UTF-8 doesn't fit a slot, or the pass shows no free slot or no credit and the value isn't Native or was asked
    /// in vain: it is as it was then. The text stays. No memory.
    pub fn reserve(&mut self, pass: &mut StrPass<'h>) -> bool
        requires { OfHeap pass.old self.old.place }
        ensures text { self.new.text ≡ self.old.text }
        ensures reserved { result ≡ true → IsReserved pass.old self.old pass.new self.new }
        ensures not { result ≡ false → IsNotReserved pass.old self.old pass.new self.new }
        ensures one_heap { pass.new.heap ≡ pass.old.heap }
        ensures heap { OfHeap pass.new self.new.place }
    {
        // What the value keeps to is known where it is looked at.
        let _object = self.object;
        let end = self.count();
        let bytes = self.utf8_length(0, end);
        if bytes + 8 > 8 * pass.capacity_words() as u64 {
            return false;
        }
        if self.strip(pass, bytes) {
            return true;
        }
        let nothing = Part {
            low: 0,
            high: 0,
            count: bytes,
        };
        match publish_spliced(self, pass, nothing, 0, &[]) {
            Some(value) => {
                std::mem::replace(self, value).release(pass);
                true
            }
            None => false,
        }
    }

    // The same of a Native value whose slot has no other holder, whose text has so many bytes; whether it is one.
    fn strip(&mut self, pass: &mut StrPass<'h>, bytes: u64) -> bool
        requires heap { OfHeap pass.old self.old.place }
        requires bytes { bytes ≡ length (utf8 self.old.text) }
        requires fits { Fits bytes pass.old.heap.layout.capacity_words }
        ensures text { self.new.text ≡ self.old.text }
        ensures stripped { result ≡ true → (r : RefSeen) × IsStripped r pass.old self.old pass.new self.new }
        ensures unwritten { result ≡ false → IsUnwritten pass.old self.old bytes pass.new self.new }
        ensures one_heap { pass.new.heap ≡ pass.old.heap }
        ensures heap { OfHeap pass.new self.new.place }
    {
        let _object = self.object;
        match std::mem::replace(&mut self.storage, Storage::Words) {
            Storage::Native(reference, crumbs) => {
                let (reference, alone) = ready(pass, reference);
                if alone {
                    self.storage = Storage::Native(reference, 0);
                    true
                } else {
                    self.storage = Storage::Native(reference, crumbs);
                    false
                }
            }
            other => {
                self.storage = other;
                false
            }
        }
    }
}

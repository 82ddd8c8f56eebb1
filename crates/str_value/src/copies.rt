//! Copies of a value.
ghost use Rattle.std.specs.Prelude.{◌≡◌, ◌+◌, IfOk, IfErr, IfSome, IfNone};
ghost use Rattle.slot_accounts.specs.Account.{Did, Keeps};
ghost use Rattle.str_value.specs.Meaning.{OfHeap, credit_of};
ghost use Rattle.str_value.specs.Copying.{CopiedAt, ApartAt, IsOwned, SharedAt, NeedsMemory, MayNeedMemory, copying};

use crate::parts::{bytes_by_words, units_by_words};
use crate::storage::{Storage, StrPass};
use crate::taking::{keep_bytes, keep_units};
use crate::value::Str;
use slot_accounts::share;
use std::alloc::Global;
use text_spec::{Encoding, OutOfMemory};
use word_units::Text;

impl<'h> Str<'h> {
    /// A value with the same text.
    ///
    /// A Small value is copied with its two words and a Literal one by its number, without memory. One in a slot takes a second reference,
    /// by one event Retain and without memory, where the pass shows a credit; both are not known sole then. Elsewhere its copy is Owned, in
    /// the same encoding. An Owned value is copied with its vector. A refusal leaves the value and the pass.
    pub fn copy(&mut self, alloc: Global, pass: &mut StrPass<'h>) -> Result<Str<'h>, OutOfMemory>
        requires { OfHeap pass.old self.old.place }
        ensures copied { IfOk result (λ c. CopiedAt self.old.place pass.old self.old pass.new self.new c) }
        ensures text { IfOk result (λ c. c.text ≡ self.old.text) }
        ensures same { (self.new.text ≡ self.old.text) × (self.new.row ≡ self.old.row) × (self.new.words ≡ self.old.words) }
        ensures did { IfOk result (λ c. Did (copying self.old.place c.place) pass.old pass.new) }
        ensures credits { IfOk result (λ c. Keeps pass.old (credit_of self.old.place) pass.new (credit_of self.new.place + credit_of c.place)) }
        ensures one_heap { pass.new.heap ≡ pass.old.heap }
        ensures heap { IfOk result (λ c. OfHeap pass.new c.place) }
        ensures still { OfHeap pass.new self.new.place }
        ensures free { IfErr result (λ e. NeedsMemory self.old.place pass.old self.old) }
        ensures refused { IfErr result (λ e. (self.new ≡ self.old) × (pass.new ≡ pass.old)) }
    {
        match self.shared(pass) {
            Some(copy) => Ok(copy),
            None => self.copied_apart(alloc),
        }
    }

    // A value of a second reference, where it stands in a slot and the pass shows a credit.
    fn shared(&mut self, pass: &mut StrPass<'h>) -> Option<Str<'h>>
        requires { OfHeap pass.old self.old.place }
        ensures shared { IfSome result (λ c. SharedAt self.old.place pass.old self.old pass.new self.new c) }
        ensures one_heap { pass.new.heap ≡ pass.old.heap }
        ensures kept { IfNone result ((self.new ≡ self.old) × (pass.new ≡ pass.old)) }
        ensures cause { IfNone result (credit_of self.old.place ≡ 1 → pass.old.credits ≡ 1) }
    {
        let object = self.object;
        match std::mem::replace(&mut self.storage, Storage::Words) {
            Storage::Native(reference, crumbs) => {
                let (reference, second) = share(pass, reference);
                self.storage = Storage::Native(reference, crumbs);
                let second = second?;
                Some(Str {
                    object,
                    storage: Storage::Native(second, crumbs),
                })
            }
            Storage::Foreign(reference) => {
                let (reference, second) = share(pass, reference);
                self.storage = Storage::Foreign(reference);
                let second = second?;
                Some(Str {
                    object,
                    storage: Storage::Foreign(second),
                })
            }
            other => {
                self.storage = other;
                None
            }
        }
    }

    // A value with the same text that shares no slot.
    fn copied_apart(&mut self, alloc: Global) -> Result<Str<'h>, OutOfMemory>
        ensures copied { IfOk result (ApartAt self.old.place self.old) }
        ensures free { IfErr result (λ e. MayNeedMemory self.old.place self.old) }
        ensures kept { self.new ≡ self.old }
    {
        let object = self.object;
        match &mut self.storage {
            Storage::Words => Ok(Str {
                object,
                storage: Storage::Words,
            }),
            Storage::Native(_, _) => self.owned_copy(alloc),
            Storage::Foreign(_) => self.owned_copy(alloc),
            Storage::Literal(literal) => Ok(Str {
                object,
                storage: Storage::Literal(literal.copy()),
            }),
            Storage::Bytes(kept) => {
                let copy = Vec::from_slice(alloc, kept.as_slice())?;
                Ok(Str {
                    object,
                    storage: Storage::Bytes(copy),
                })
            }
            Storage::Units(kept) => {
                let copy = Vec::from_slice(alloc, kept.as_slice())?;
                Ok(Str {
                    object,
                    storage: Storage::Units(copy),
                })
            }
        }
    }

    // A value with the same text in a vector of its own, in the same encoding.
    fn owned_copy(&mut self, alloc: Global) -> Result<Str<'h>, OutOfMemory>
        ensures owned { IfOk result (IsOwned self.old) }
        ensures kept { self.new ≡ self.old }
    {
        let _object = self.object;
        let count = self.count();
        match self.encoding() {
            Encoding::Utf8 => {
                let bytes = bytes_by_words(alloc, self, 0, count)?;
                Ok(keep_bytes(bytes))
            }
            Encoding::Utf16 => {
                let units = units_by_words(alloc, self, 0, count)?;
                Ok(keep_units(units))
            }
        }
    }
}

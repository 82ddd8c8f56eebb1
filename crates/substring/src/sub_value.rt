//! A slice of a value, and its calls.
ghost use Rattle.std.specs.Prelude.{◌≡◌, ℕ, ◌<◌, Bool, true, Option, length, IfOk, IfErr};
ghost use Rattle.text_spec.specs.Text.{utf8};
ghost use Rattle.slot_accounts.specs.Account.{Did, Keeps};
ghost use Rattle.str_value.specs.Meaning.{OfHeap, credit_of, sole_of};
ghost use Rattle.str_value.specs.Making.{MadeOfUtf8, making, letting_go};
ghost use Rattle.substring.specs.Slice.{text_of};

use object_words::SMALL_CAPACITY;
use std::alloc::Global;
use std::marker::Model;
use str_value::{MakeError, Str, StrPass};

/// The scalars of a value between two scalar boundaries.
///
/// It holds a copy of the value, and its places are those of the value's storage.
#[derive(Drop)]
pub struct Sub<'h> {
    pub(crate) base: Str<'h>,
    pub(crate) low: u64,
    pub(crate) high: u64,
}

impl<'h> Model for Sub<'h> {
    ghost use Rattle.substring.specs.Slice.{Slice, IsSlice};

    ghost Value = { Slice };

    ghost view = { λ sub. record { base = sub.base; low = sub.low; high = sub.high } };

    ghost invariant = { λ sub. IsSlice (record { base = sub.base; low = sub.low; high = sub.high }) };
}

impl<'h> Sub<'h> {
    /// The value that this is a slice of. No memory.
    pub fn base(&self) -> &Str<'h>
        ensures { result.now ≡ self.now.base }
    {
        &self.base
    }

    /// The value of this text.
    ///
    /// It is the one that `from_utf8` makes of the text's UTF-8, whatever the base's storage, with its events: Small where that is at most
    /// 15 bytes, else Native where it fits a slot and the pass shows a free slot and a credit, and else Owned. One pass over the text, and
    /// memory for its UTF-8 where that is more than 15 bytes. A refusal leaves the pass.
    pub fn to_str(&mut self, alloc: Global, pass: &mut StrPass<'h>) -> Result<Str<'h>, MakeError>
        ensures text { IfOk result (λ s. s.text ≡ text_of self.old) }
        ensures made { IfOk result (λ s. MadeOfUtf8 pass.old pass.new (utf8 (text_of self.old)) s.place s.row) }
        ensures did { IfOk result (λ s. Did (making s.place) pass.old pass.new) }
        ensures credits { IfOk result (λ s. Keeps pass.old 0 pass.new (credit_of s.place)) }
        ensures one_heap { pass.new.heap ≡ pass.old.heap }
        ensures heap { IfOk result (λ s. OfHeap pass.new s.place) }
        ensures memory { IfErr result (λ e. e ≡ MakeError.OutOfMemory) }
        ensures small_is_free { IfErr result (λ e. SMALL_CAPACITY < length (utf8 (text_of self.old))) }
        ensures refused { IfErr result (λ e. pass.new ≡ pass.old) }
        ensures kept { self.new ≡ self.old }
    {
        self.base.copy_part(alloc, pass, self.low, self.high)
    }

    /// Gives the slice up, with its copy of the base. Its slot is free again where the copy was the last holder. No memory.
    pub fn release(self, pass: &mut StrPass<'h>)
        requires { OfHeap pass.old self.base.place }
        ensures one_heap { pass.new.heap ≡ pass.old.heap }
        ensures did { (last : Bool) × (found : Option ℕ) × (sole_of self.entry.base.place ≡ true → last ≡ true)
            × Did (letting_go self.entry.base.place last found) pass.old pass.new }
        ensures credits { Keeps pass.old (credit_of self.entry.base.place) pass.new 0 }
    {
        let Sub { base, .. } = self;
        base.release(pass);
    }
}

//! The value and its calls.
ghost use Rattle.std.specs.Prelude.{◌≡◌, ◌≢◌, ℕ, ◌<◌, ◌↔◌, Bool, true, Option, length, chars, IfOk, IfErr, IsUtf8};
ghost use Rattle.std.specs.Str.Lossy.{utf8_valid_len};
ghost use Rattle.text_spec.specs.declared.encoding.Encoding.TheVariants.{Utf8, Utf16};
ghost use Rattle.text_spec.specs.Text.{utf8, repair};
ghost use Rattle.object_words.specs.Rows.{Describes, form_of};
ghost use Rattle.slot_accounts.specs.Account.{Did, Keeps};
ghost use Rattle.str_value.specs.Meaning.{OfHeap, credit_of, sole_of};
ghost use Rattle.str_value.specs.Tied.{IsTied};
ghost use Rattle.str_value.specs.Making.{MadeOfUtf8, MadeOfUtf16, HasRoom, making, letting_go};

use crate::error::MakeError;
use crate::limits::MAX_TEXT_BYTES;
use crate::making_utf8::make;
use crate::making_utf16::{own_utf16, publish_utf16};
use crate::storage::{Storage, StrPass};
use crate::units::lengths_of_units;
use object_words::{Form, Object, SMALL_CAPACITY};
use slot_accounts::let_go;
use std::alloc::Global;
use std::marker::Model;

/// A text of Unicode scalars, of at most `MAX_TEXT_BYTES` in UTF-8.
#[derive(Drop)]
pub struct Str<'h> {
    pub(crate) object: Object,
    pub(crate) storage: Storage<'h>,
}

impl<'h> Model for Str<'h> {
    ghost use Rattle.str_value.specs.Meaning.{Meaning};

    ghost Value = { Meaning };

    ghost use Rattle.str_value.specs.Stored.{text_of, row_of, words_of, place_of, IsStored};

    ghost view = { λ s. record { text = text_of s.object s.storage; row = row_of s.object s.storage; words = words_of s.object s.storage; place = place_of s.storage } };

    ghost invariant = { λ s. IsStored s.object s.storage };
}

impl<'h> Str<'h> {
    /// The value of the text whose UTF-8 is `bytes`.
    ///
    /// It is Small where `bytes` are at most 15, Native where they fit a slot and the pass shows a free slot and a credit, and Owned
    /// elsewhere, which alone takes memory. Refused, in this order: `NotUtf8` exactly where no text has these bytes, `TooLong` exactly
    /// where a text has them and they are more than `MAX_TEXT_BYTES`, and `OutOfMemory`. One pass over the bytes to check them, one by
    /// words for the mark of ASCII, and one to copy them.
    pub fn from_utf8(
        alloc: Global,
        pass: &mut StrPass<'h>,
        bytes: &[u8],
    ) -> Result<Str<'h>, MakeError>
        ensures text { IfOk result (λ s. (s.text ≡ chars bytes.now) × IsUtf8 bytes.now) }
        ensures made { IfOk result (λ s. MadeOfUtf8 pass.old pass.new bytes.now s.place s.row) }
        ensures did { IfOk result (λ s. Did (making s.place) pass.old pass.new) }
        ensures credits { IfOk result (λ s. Keeps pass.old 0 pass.new (credit_of s.place)) }
        ensures one_heap { pass.new.heap ≡ pass.old.heap }
        ensures heap { IfOk result (λ s. OfHeap pass.new s.place) }

        ensures not_utf8 { (valid : ℕ) → (result ≡ Err (MakeError.NotUtf8 valid)) ↔ (¬ (IsUtf8 bytes.now) × (valid ≡ utf8_valid_len bytes.now)) }
        ensures too_long { (n : ℕ) → (result ≡ Err (MakeError.TooLong n)) ↔ (IsUtf8 bytes.now × (n ≡ length bytes.now) × (MAX_TEXT_BYTES < n)) }
        ensures free { result ≡ Err MakeError.OutOfMemory → (SMALL_CAPACITY < length bytes.now) × ¬ HasRoom pass.old Utf8 (length bytes.now) }
        ensures refused { IfErr result (λ e. pass.new ≡ pass.old) }
    {
        match simdutf8::compat::from_utf8(bytes) {
            Ok(_) => make(alloc, pass, bytes),
            Err(fault) => Err(MakeError::NotUtf8 {
                valid_up_to: fault.valid_up_to(),
            }),
        }
    }

    /// The value of the text that `units` spell, a surrogate without its other half as U+FFFD (ours, after Swift; pairs: the Unicode
    /// Standard, section 3.8).
    ///
    /// It keeps the units as they are: it is Foreign, whatever their number, where they fit a slot and the pass shows a free slot and a
    /// credit, and Owned elsewhere, which alone takes memory. Refused: `TooLong` exactly where the UTF-8 of the text, with its repairs, is
    /// more than `MAX_TEXT_BYTES`, and `OutOfMemory`. One pass over the units for the lengths, one for the mark of ASCII as far as they are
    /// ASCII, and a copy.
    pub fn from_utf16(
        alloc: Global,
        pass: &mut StrPass<'h>,
        units: &[u16],
    ) -> Result<Str<'h>, MakeError>
        ensures text { IfOk result (λ s. s.text ≡ repair units.now) }
        ensures made { IfOk result (λ s. MadeOfUtf16 pass.old pass.new units.now s.place s.row) }
        ensures did { IfOk result (λ s. Did (making s.place) pass.old pass.new) }
        ensures credits { IfOk result (λ s. Keeps pass.old 0 pass.new (credit_of s.place)) }
        ensures one_heap { pass.new.heap ≡ pass.old.heap }
        ensures heap { IfOk result (λ s. OfHeap pass.new s.place) }

        ensures not_utf8 { (valid : ℕ) → result ≢ Err (MakeError.NotUtf8 valid) }
        ensures too_long { (n : ℕ) → (result ≡ Err (MakeError.TooLong n)) ↔ ((n ≡ length (utf8 (repair units.now))) × (MAX_TEXT_BYTES < n)) }
        ensures free { result ≡ Err MakeError.OutOfMemory → ¬ HasRoom pass.old Utf16 (length units.now) }
        ensures refused { IfErr result (λ e. pass.new ≡ pass.old) }
    {
        let length = lengths_of_units(units).utf8;
        if length > MAX_TEXT_BYTES as u64 {
            return Err(MakeError::TooLong { len: length });
        }
        if let Some(value) = publish_utf16(pass, units) {
            return Ok(value);
        }
        own_utf16(alloc, units)
    }

    /// The value's two words. No memory.
    pub fn object(&self) -> Object
        ensures { Describes self.now.row result }
    {
        self.object
    }

    /// Where the value's code units stand. No memory.
    pub fn form(&self) -> Form
        ensures form { result ≡ form_of self.now.row }
        ensures tied { IsTied self.now.row self.now.place }
    {
        self.object.form()
    }

    /// Whether it is known to be the only holder of its slot. No memory.
    pub fn known_sole(&self) -> bool
        ensures { result ≡ sole_of self.now.place }
    {
        match &self.storage {
            Storage::Native(reference, _) => reference.known_sole(),
            Storage::Foreign(reference) => reference.known_sole(),
            _ => false,
        }
    }

    /// Gives the value up. Its slot is free again where it was the last holder. No memory.
    pub fn release(self, pass: &mut StrPass<'h>)
        requires { OfHeap pass.old self.place }
        ensures one_heap { pass.new.heap ≡ pass.old.heap }
        ensures did { (last : Bool) × (found : Option ℕ) × (sole_of self.entry.place ≡ true → last ≡ true) × Did (letting_go self.entry.place last found) pass.old pass.new }
        ensures credits { Keeps pass.old (credit_of self.entry.place) pass.new 0 }
    {
        let Str { object: _, storage } = self;
        match storage {
            Storage::Native(reference, _) => {
                let_go(pass, reference);
            }
            Storage::Foreign(reference) => {
                let_go(pass, reference);
            }
            Storage::Literal(literal) => literal.release(),
            _ => {}
        }
    }
}

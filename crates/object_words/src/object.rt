//! The object of a value: made by form, and read.
ghost use Rattle.std.specs.Prelude.{◌≡◌, ℕ, ◌^◌, ◌<◌, ◌≤◌, ◌↔◌, true, false, IsSome, IfSome, IsTrue, Some, length};
ghost use Rattle.std.specs.Str.{IsUtf8};
ghost use Rattle.object_words.specs.Rows.{Row, small, native, literal, foreign, owned, Implies, Describes, IsObject, form_of, count_of, ascii_of, slot_of};

use crate::count_word::{ASCII_BIT, COUNT_WIDTH, count_word, unit_count};
use crate::form::Form;
use crate::form_word::form_word;
use crate::layout::{
    FOREIGN_TOP, LITERAL_TOP, NATIVE_TOP, OWNED_TOP, SLOT_WIDTH, SMALL_ASCII_TOP, SMALL_CAPACITY,
    SMALL_COUNTS, SMALL_TOP, TOP_SHIFT, WORD_BYTES,
};
use crate::said::said_by;
use crate::small::{small_bytes, word_of};
use std::marker::Model;

/// The two words of a value, as the head of this crate lays them out. Contracts see the pair of words, which is always
/// that of a row.
#[derive(Clone, Copy, Debug)]
pub struct Object {
    w0: u64,
    w1: u64,
}

impl Model for Object {
    ghost use Rattle.std.specs.Prelude.{ℕ};

    ghost Value = { ℕ × ℕ };

    ghost use Rattle.object_words.specs.Rows.{IsObject};

    ghost view = { λ object. (object.w0, object.w1) };

    ghost invariant = { λ object. IsObject (object.w0, object.w1) };

    ghost inverse = { λ words. record { w0 = words.0; w1 = words.1 } };
}

impl Object {
    /// The object that holds the text with these UTF-8 bytes itself; `None` exactly where they are more than 15.
    pub fn small(bytes: &[u8]) -> Option<Object>
        requires { IsUtf8 bytes.now }
        ensures found { IsSome result ↔ (length bytes.now ≤ SMALL_CAPACITY) }
        ensures row { IfSome result (Describes (small bytes.now)) }
    {
        if bytes.len() > SMALL_CAPACITY {
            return None;
        }
        let block = small_bytes(bytes);
        let (low, high) = block.split_at(WORD_BYTES);
        Some(Object {
            w0: word_of(low),
            w1: word_of(high),
        })
    }

    /// The object of a text of `count` bytes of UTF-8 in slot `slot`.
    ///
    /// `count` is below 2^48. `ascii` says that each byte is below 0x80, and `nfc`, which it implies, that the text is
    /// in Normalization Form C.
    pub fn native(ascii: bool, nfc: bool, count: u64, slot: u32) -> Object
        requires ascii_is_nfc { Implies ascii nfc }
        requires count_in { count < 2 ^ COUNT_WIDTH }
        ensures { Describes (native ascii nfc count slot) result }
    {
        Object {
            w0: count_word(ascii, nfc, true, true, false, count),
            w1: form_word(NATIVE_TOP, slot),
        }
    }

    /// The object of literal `number`, of `count` bytes of UTF-8. The rest as for `native`.
    pub fn literal(ascii: bool, nfc: bool, count: u64, number: u32) -> Object
        requires ascii_is_nfc { Implies ascii nfc }
        requires count_in { count < 2 ^ COUNT_WIDTH }
        ensures { Describes (literal ascii nfc count number) result }
    {
        Object {
            w0: count_word(ascii, nfc, false, true, false, count),
            w1: form_word(LITERAL_TOP, number),
        }
    }

    /// The object of a text of `count` UTF-16 units in slot `slot`.
    ///
    /// `count` is below 2^48. `ascii` says that each unit is below 0x80. Only ASCII counts as known to be in NFC.
    pub fn foreign(ascii: bool, count: u64, slot: u32) -> Object
        requires { count < 2 ^ COUNT_WIDTH }
        ensures { Describes (foreign ascii count slot) result }
    {
        Object {
            w0: count_word(ascii, ascii, false, false, true, count),
            w1: form_word(FOREIGN_TOP, slot),
        }
    }

    /// The object of a text of `count` code units in a vector of the value's own, which are UTF-16 where `utf16` says so.
    ///
    /// `count` is below 2^48. `ascii` and `nfc` are as for `native`; of UTF-16 only ASCII counts as known to be in NFC.
    pub fn owned(ascii: bool, nfc: bool, utf16: bool, count: u64) -> Object
        requires ascii_is_nfc { Implies ascii nfc }
        requires nfc_is_ascii { IsTrue utf16 → Implies nfc ascii }
        requires count_in { count < 2 ^ COUNT_WIDTH }
        ensures { Describes (owned utf16 ascii nfc count) result }
    {
        Object {
            w0: count_word(ascii, nfc, false, false, utf16, count),
            w1: form_word(OWNED_TOP, 0),
        }
    }

    /// The form of the value.
    pub fn form(&self) -> Form
        ensures { (row : Row) → Describes row self.now → result ≡ form_of row }
    {
        match self.w1 >> TOP_SHIFT {
            NATIVE_TOP => Form::Native,
            FOREIGN_TOP => Form::Foreign,
            OWNED_TOP => Form::Owned,
            LITERAL_TOP => Form::Literal,
            _ => Form::Small,
        }
    }

    /// The number of code units, below 2^48: bytes of UTF-8 or 16-bit units of UTF-16.
    pub fn count(&self) -> u64
        ensures { (row : Row) → Describes row self.now → result ≡ count_of row }
    {
        let top = self.w1 >> TOP_SHIFT;
        if top < SMALL_TOP {
            unit_count(self.w0)
        } else {
            top % SMALL_COUNTS
        }
    }

    /// Whether the value is marked ASCII: each code unit is below 0x80.
    pub fn ascii(&self) -> bool
        ensures { (row : Row) → Describes row self.now → result ≡ ascii_of row }
    {
        let top = self.w1 >> TOP_SHIFT;
        if top < SMALL_TOP {
            self.w0 >> ASCII_BIT == 1
        } else {
            top >= SMALL_ASCII_TOP
        }
    }

    /// The number of the slot of a Native or Foreign value, or of the literal of a Literal one.
    ///
    /// Of the other forms the answer says nothing.
    pub fn slot(&self) -> u32
        ensures { (row : Row) (slot : ℕ) → Describes row self.now → slot_of row ≡ Some slot → result ≡ slot }
    {
        (self.w1 % (1 << SLOT_WIDTH)) as u32
    }

    /// The whole first word.
    pub fn w0(&self) -> u64
        ensures { result ≡ self.now.0 }
    {
        self.w0
    }

    /// The whole second word.
    pub fn w1(&self) -> u64
        ensures { result ≡ self.now.1 }
    {
        self.w1
    }

    /// The object of two words from outside; `None` exactly where no row has them.
    pub fn check(w0: u64, w1: u64) -> Option<Object>
        ensures found { IsSome result ↔ IsObject (w0, w1) }
        ensures same { IfSome result (λ object. object ≡ (w0, w1)) }
    {
        let object = said_by(w0, w1)?;
        if object.w0 == w0 && object.w1 == w1 {
            Some(object)
        } else {
            None
        }
    }
}

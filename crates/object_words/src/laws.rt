//! Laws of object words: their bits and bytes are those of the tables, words and rows are one to one, and a Small value's
//! words hold its bytes.
ghost use Rattle.std.specs.Prelude.{◌≡◌, ℕ, ◌^◌, ◌<◌, List, [], ◌∷◌, length};
ghost use Rattle.text_spec.specs.Packed.{bytes_of};
ghost use Rattle.object_words.specs.Rows.{Row, small, Describes};

use crate::count_word::{ASCII_BIT, COUNT_WIDTH, NATIVE_BIT, NFC_BIT, TABLE_BIT, UTF16_BIT};
use crate::layout::{
    FOREIGN_TOP, LITERAL_TOP, NATIVE_TOP, OWNED_TOP, SLOT_WIDTH, SMALL_ASCII_TOP, SMALL_CAPACITY,
    SMALL_TOP, TOP_SHIFT,
};

/// The flags of word 0 and the width of its count, as the format has them.
pub fn count_words_are_laid_out_so()
    ensures ascii { ASCII_BIT ≡ 63 }
    ensures nfc { NFC_BIT ≡ 62 }
    ensures native { NATIVE_BIT ≡ 61 }
    ensures table { TABLE_BIT ≡ 60 }
    ensures utf16 { UTF16_BIT ≡ 59 }
    ensures count { COUNT_WIDTH ≡ 48 }
{}

/// The byte of word 1 that tells each form, where it stands, and how wide a slot's number is, as the format has them.
pub fn forms_are_laid_out_so()
    ensures small_ascii { SMALL_ASCII_TOP ≡ 0xE0 }
    ensures small { SMALL_TOP ≡ 0xA0 }
    ensures capacity { SMALL_CAPACITY ≡ 15 }
    ensures native { NATIVE_TOP ≡ 0x00 }
    ensures foreign { FOREIGN_TOP ≡ 0x10 }
    ensures owned { OWNED_TOP ≡ 0x20 }
    ensures literal { LITERAL_TOP ≡ 0x80 }
    ensures top { TOP_SHIFT ≡ 56 }
    ensures slot { SLOT_WIDTH ≡ 32 }
{}

/// No two rows share their words, so the fields of a value are read back from its words and from nothing else.
pub fn rows_are_apart()
    ensures { (one other : Row) (w0 w1 : ℕ) → w1 < 2 ^ 64 → Describes one (w0, w1) → Describes other (w0, w1) → one ≡ other }
{}

/// The two words of a Small value are content words of its text: eight bytes each, least first.
pub fn small_words_hold_the_text()
    ensures { (bytes : List ℕ) (w0 w1 : ℕ) → w1 < 2 ^ 64 → Describes (small bytes) (w0, w1) → bytes_of (w0 ∷ w1 ∷ []) (length bytes) ≡ bytes }
{}

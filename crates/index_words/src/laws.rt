//! Laws of index words: words and fields are one to one.
ghost use Rattle.std.specs.Prelude.{◌≡◌, ℕ, ◌+◌, ◌^◌, ◌<◌};
ghost use Rattle.index_words.specs.Crumbs.{index_word8};
ghost use Rattle.index_words.specs.Fields.{IsIndexWord, Fields, Fit, fields_of, word_of};

use crate::layout::{
    CHARACTER_ALIGNED_BIT, POSITION_SHIFT, POSITION_WIDTH, SCALAR_ALIGNED_BIT, STRIDE_SHIFT,
    STRIDE_WIDTH, TRANSCODED_SHIFT, TRANSCODED_WIDTH, UTF8_BIT, UTF16_BIT, ZERO_SHIFT, ZERO_WIDTH,
};

/// The numbers of the format: exchanging two of the layout's constants breaks this law.
pub fn numbers_are_the_formats()
    ensures scalar { SCALAR_ALIGNED_BIT ≡ 0 }
    ensures character { CHARACTER_ALIGNED_BIT ≡ 1 }
    ensures utf8 { UTF8_BIT ≡ 2 }
    ensures utf16 { UTF16_BIT ≡ 3 }
    ensures zero { (ZERO_SHIFT ≡ 4) × (ZERO_SHIFT + ZERO_WIDTH ≡ 8) }
    ensures stride { (STRIDE_SHIFT ≡ 8) × (STRIDE_SHIFT + STRIDE_WIDTH ≡ 14) }
    ensures transcoded { (TRANSCODED_SHIFT ≡ 14) × (TRANSCODED_SHIFT + TRANSCODED_WIDTH ≡ 16) }
    ensures position { (POSITION_SHIFT ≡ 16) × (POSITION_SHIFT + POSITION_WIDTH ≡ 64) }
{}

/// What is written into a word is read back, so no two lists of fields share a word.
pub fn fields_are_read_back()
    ensures word { (fields : Fields) → Fit fields → IsIndexWord (word_of fields) }
    ensures fields { (fields : Fields) → Fit fields → fields_of (word_of fields) ≡ fields }
{}

/// Each index word is the word of its fields, and they fit: no word says anything else.
pub fn words_are_their_fields()
    ensures fit { (word : ℕ) → word < 2 ^ 64 → Fit (fields_of word) }
    ensures word { (word : ℕ) → IsIndexWord word → word_of (fields_of word) ≡ word }
{}

/// The entries of a list of breadcrumbs are index words.
pub fn crumbs_are_index_words()
    ensures zero { (position transcoded : ℕ) → transcoded < 4 → IsIndexWord (index_word8 position transcoded) }
{}

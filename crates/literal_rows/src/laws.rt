//! Laws of rows of literals: a row says which text it holds.
ghost use Rattle.std.specs.Prelude.{◌≡◌, ℕ, false, List, Some, length, drop, get_or, chars, IsUtf8};
ghost use Rattle.object_words.specs.CountWord.{IsCount, marks_utf16, unit_count};
ghost use Rattle.text_spec.specs.Packed.{denoted_text};
ghost use Rattle.text_spec.specs.declared.encoding.Encoding.TheVariants.{Utf8};
ghost use Rattle.literal_rows.specs.Rows.{literal_row};

/// The count word of a row says UTF-8 and how many bytes there are, and the content words behind it denote the literal's text.
pub fn a_row_is_its_text()
    ensures storage { (bytes : List ℕ) → IsCount (length bytes) → marks_utf16 (get_or (literal_row bytes) 0 0) ≡ false }
    ensures count { (bytes : List ℕ) → IsCount (length bytes) → unit_count (get_or (literal_row bytes) 0 0) ≡ length bytes }
    ensures text { (bytes : List ℕ) → IsUtf8 bytes → denoted_text Utf8 (drop 1 (literal_row bytes)) (length bytes) ≡ Some (chars bytes) }
{}

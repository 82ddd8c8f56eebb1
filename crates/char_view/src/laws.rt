//! What readers look for in the definition of Characters, each law a function with an empty body whose contract is the law.
ghost use Rattle.std.specs.Prelude.{◌≡◌, ◌≢◌, ◌≤◌, ◌<◌, ◌+◌, ℕ, List, length, map, true};
ghost use Rattle.std.specs.Str.{all_scalars};
ghost use Rattle.text_spec.specs.Text.{utf8};
ghost use Rattle.index_words.specs.Fields.{position_of, stride_of};
ghost use Rattle.word_units.specs.Parts.{Part};
ghost use Rattle.unicode_segmentation.specs.Grapheme.{graphemes};
ghost use Rattle.char_view.specs.Characters.{characters, character_count, character_start, character_of, is_character_boundary};
ghost use Rattle.char_view.specs.Answers.{character_index, offset_at, IsTrueAt};
ghost use Rattle.char_view.specs.Places.{IsText};

use index_words::laws::fields_are_read_back;

/// The UTF-8 of the Characters of a text is what `unicode_segmentation` gives as the extended grapheme clusters of its UTF-8.
pub fn characters_are_graphemes()
    ensures pieces { (text : List ℕ) → all_scalars text ≡ true → map utf8 (characters text) ≡ graphemes true (utf8 text) }
{}

/// The first Character begins with the text, each other one where the one before ends, and the last one ends with the text.
pub fn characters_make_up_the_text()
    ensures first { (text : List ℕ) → character_start text 0 ≡ 0 }
    ensures increase { (text : List ℕ) (n : ℕ) → n < character_count text → character_start text n < character_start text (n + 1) }
    ensures last { (text : List ℕ) → character_start text (character_count text) ≡ length text }
{}

/// Characters begin and end at the boundaries, and nowhere else.
pub fn characters_end_at_boundaries()
    ensures boundary { (text : List ℕ) (n : ℕ) → is_character_boundary text (character_start text n) ≡ true }
    ensures each { (text : List ℕ) (k : ℕ) → k ≤ length text → is_character_boundary text k ≡ true → character_start text (character_of text k) ≡ k }
{}

/// The index of a Character is true of its text wherever it keeps a stride, so that `after_true` takes what the calls answer.
pub fn kept_strides_are_true()
    ensures { (t : Part) (n : ℕ) → IsText t → stride_of (character_index t n) ≢ 0
        → IsTrueAt t (character_index t n) (offset_at t (position_of (character_index t n))) }
{
    fields_are_read_back();
}

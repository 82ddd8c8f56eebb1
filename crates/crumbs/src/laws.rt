//! What readers look for in a list of breadcrumbs, each law a function with an empty body whose contract is the law.
ghost use Rattle.std.specs.Prelude.{◌≡◌, ℕ, ◌+◌, ◌*◌, ◌/◌, ◌<◌, ◌≤◌, List, length, slice_index};
ghost use Rattle.std.specs.Char.{len_utf8};
ghost use Rattle.text_spec.specs.declared.encoding.Encoding.TheVariants.{Utf8};
ghost use Rattle.index_words.specs.Crumbs.{size16, index16, crumbs};
ghost use Rattle.text_spec.specs.Offsets.{len_utf16};
ghost use Rattle.text_spec.specs.Rounding.{other_index};
ghost use Rattle.index_words.specs.Fields.{place_of};
ghost use Rattle.word_units.specs.Parts.{all_of};
ghost use Rattle.rounding.specs.Resolving.{index_at};

/// A list has a word for the length, one for each stride, and one for offset 0.
pub fn lists_have_a_word_for_each_stride()
    ensures words { (text : List ℕ) (n : ℕ) → length (crumbs text n) ≡ size16 text / n + 2 }
{}

/// Word `j + 1` is the one index, marked for UTF-8 alone, that the view of UTF-16 units has at offset `j * n`.
pub fn crumbs_are_indices_of_their_offsets()
    ensures index { (text : List ℕ) (n j : ℕ) → j ≤ size16 text / n
        → slice_index (crumbs text n) (j + 1) ≡ index_at (all_of Utf8 text) (other_index len_utf8 len_utf16 text 0 (j * n)) }
{}

/// The place of a later offset is later: no two offsets of a text have one index.
pub fn places_increase()
    ensures later { (text : List ℕ) (m o : ℕ) → m < o → o ≤ size16 text → place_of (index16 text m) < place_of (index16 text o) }
{}

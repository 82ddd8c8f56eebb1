//! What readers look for in the definitions, each law a function with an empty body whose contract is the law.
ghost use Rattle.std.specs.Prelude.{◌≡◌, ◌+◌, ◌-◌, ◌<◌, ◌≤◌, ℕ, List, length, take, slice_index, Some, true};
ghost use Rattle.std.specs.Char.{len_utf8};
ghost use Rattle.std.specs.List.{splice};
ghost use Rattle.std.specs.Str.{all_scalars};
ghost use Rattle.text_spec.specs.Boundaries.{IsScalarBoundary};
ghost use Rattle.text_spec.specs.Editing.{replaced};
ghost use Rattle.text_spec.specs.Rounding.{Place, scalar_floor, other_floor, scalar_offset, other_offset, scalar_index, other_index};
ghost use Rattle.text_spec.specs.Text.{utf8, utf16, decode_utf8, repair};
ghost use Rattle.text_spec.specs.Offsets.{len_utf16, start, down, IsGreatestStart};

/// `down` gives the greatest scalar that begins at the offset or before it.
pub fn down_is_greatest()
    ensures greatest { (width : ℕ → ℕ) (text : List ℕ) (offset : ℕ) → IsGreatestStart width text offset (down width text offset) }
{}

/// A scalar's UTF-8 offset is the length of the UTF-8 of the scalars before it.
pub fn start_is_length8()
    ensures length8 { (text : List ℕ) (k : ℕ) → start len_utf8 text k ≡ length (utf8 (take k text)) }
{}

/// A scalar's UTF-16 offset is the length of the UTF-16 of the scalars before it.
pub fn start_is_length16()
    ensures length16 { (text : List ℕ) (k : ℕ) → start len_utf16 text k ≡ length (utf16 (take k text)) }
{}

/// Decoding the UTF-8 of a text gives the text back, and bytes that decode to a text are its UTF-8.
pub fn utf8_is_inverse()
    ensures decoded { (text : List ℕ) → all_scalars text ≡ true → decode_utf8 (utf8 text) ≡ Some text }
    ensures encoded { (bytes text : List ℕ) → decode_utf8 bytes ≡ Some text → utf8 text ≡ bytes }
{}

/// Repairing the UTF-16 of a text gives the text back.
pub fn utf16_is_inverse()
    ensures decoded { (text : List ℕ) → all_scalars text ≡ true → repair (utf16 text) ≡ text }
{}

/// Where each scalar takes a unit or more, each boundary lies behind those of the scalars before.
pub fn boundaries_increase()
    ensures strictly { (width : ℕ → ℕ) → ((scalar : ℕ) → 0 < width scalar) → (text : List ℕ) (j k : ℕ) → j < k → k ≤ length text
        → start width text j < start width text k }
{}

/// The scalar floor of a place is a scalar boundary, not after the place, and the greatest of these.
pub fn floor_is_greatest_boundary()
    ensures boundary { (width : ℕ → ℕ) → ((scalar : ℕ) → 0 < width scalar) → (text : List ℕ) (i : Place)
        → IsScalarBoundary width text ((scalar_floor width text i).0) }
    ensures before { (width : ℕ → ℕ) (text : List ℕ) (i : Place) → (scalar_floor width text i).0 ≤ i.0 }
    ensures greatest { (width : ℕ → ℕ) (text : List ℕ) (i : Place) (p : ℕ) → IsScalarBoundary width text p → p ≤ i.0
        → p ≤ (scalar_floor width text i).0 }
{}

/// In the view of scalars, the element at an offset has that offset, and a floor is the element at its own offset.
///
/// The text is that from scalar `first` of the whole one on.
pub fn scalar_index_is_inverse()
    ensures offset { (own : ℕ → ℕ) → ((scalar : ℕ) → 0 < own scalar) → (whole : List ℕ) (first offset : ℕ) → first + offset ≤ length whole
        → scalar_offset own whole first (scalar_index own whole first offset) ≡ offset }
    ensures index { (own : ℕ → ℕ) → ((scalar : ℕ) → 0 < own scalar) → (whole : List ℕ) (first : ℕ) (i : Place) → first ≤ length whole
        → start own whole first ≤ i.0
        → scalar_index own whole first (scalar_offset own whole first (scalar_floor own whole i)) ≡ scalar_floor own whole i }
{}

/// The same in the view of the encoding that the storage hasn't: UTF-16 over UTF-8 storage, or UTF-8 over UTF-16 storage.
pub fn other_index_is_inverse()
    ensures offset { (own other : ℕ → ℕ) → ((scalar : ℕ) → 0 < own scalar) → ((scalar : ℕ) → 0 < other scalar)
        → (whole : List ℕ) (first offset : ℕ) → first ≤ length whole → start other whole first + offset ≤ start other whole (length whole)
        → other_offset own other whole first (other_index own other whole first offset) ≡ offset }
    ensures index { (own other : ℕ → ℕ) → ((scalar : ℕ) → 0 < own scalar) → ((scalar : ℕ) → 0 < other scalar)
        → (whole : List ℕ) (first high : ℕ) (i : Place) → first ≤ length whole → start own whole first ≤ i.0 → high ≤ start own whole (length whole)
        → other_index own other whole first (other_offset own other whole first (other_floor own other whole high i)) ≡ other_floor own other whole high i }
{}

/// A text with another one in place of its scalars from number `i` to before number `j` has the scalars before them first, then the
/// new ones, and then those behind them.
pub fn replaced_keeps_the_rest()
    ensures length { (text with : List ℕ) (i j : ℕ) → i ≤ j → j ≤ length text → length (replaced text i j with) + (j - i) ≡ length text + length with }
    ensures before { (text with : List ℕ) (i j k : ℕ) → i ≤ length text → k < i → slice_index (replaced text i j with) k ≡ slice_index text k }
    ensures within { (text with : List ℕ) (i j k : ℕ) → i ≤ length text → k < length with
        → slice_index (replaced text i j with) (i + k) ≡ slice_index with k }
    ensures behind { (text with : List ℕ) (i j k : ℕ) → i ≤ length text
        → slice_index (replaced text i j with) (i + length with + k) ≡ slice_index text (j + k) }
{}

/// Its UTF-8 is that of the old text with the UTF-8 of the new scalars in place of that of the old ones.
pub fn replaced_is_spliced_in_utf8()
    ensures bytes { (text with : List ℕ) (i j : ℕ) → utf8 (replaced text i j with)
        ≡ splice (utf8 text) (start len_utf8 text i) (start len_utf8 text j) (utf8 with) }
{}

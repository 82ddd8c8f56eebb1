//! What readers look for in the definitions, each law a function with an empty body whose contract is the law.
ghost use Rattle.std.specs.Prelude.{◌≡◌, ◌↔◌, ◌<◌, ℕ, List, length, slice_index};
ghost use Rattle.std.specs.Cmp.{IsTotalOrder};
ghost use Rattle.std.specs.Cmp.Lexicographic.{slice_cmp};
ghost use Rattle.std.specs.Ordering.{nat_cmp};
ghost use Rattle.std.specs.declared.cmp.Ordering.TheVariants.{Equal};
ghost use Rattle.unicode_normalization.specs.Forms.{nfd, nfc};
ghost use Rattle.canon_order.specs.Equivalence.{IsEquivalent, order_of, sort_key};

/// Texts are canonically equivalent where their full canonical decompositions are the same, which is the definition of
/// The Unicode Standard, section 3.7, D70.
pub fn one_form_is_one_decomposition()
    ensures { (a b : List ℕ) → IsEquivalent a b ↔ (nfd a ≡ nfd b) }
{}

/// Texts compare equal exactly where they are canonically equivalent.
pub fn equal_is_equivalent()
    ensures { (a b : List ℕ) → (order_of a b ≡ Equal) ↔ IsEquivalent a b }
{}

/// The order is total: the two ways round are opposite, less is transitive, and what compares equal compares alike with every other text.
pub fn order_is_total()
    ensures { IsTotalOrder order_of }
{}

/// Keys compare byte by byte as the texts do: the order of UTF-8 by bytes is that of scalars (The Unicode Standard, section 3.9, D92).
pub fn keys_compare_as_texts()
    ensures { (a b : List ℕ) → slice_cmp nat_cmp (sort_key a) (sort_key b) ≡ order_of a b }
{}

/// A text of ASCII alone is its own form.
pub fn ascii_is_its_own_form()
    ensures { (text : List ℕ) → ((k : ℕ) → k < length text → slice_index text k < 0x80) → nfc text ≡ text }
{}

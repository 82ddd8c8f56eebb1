//! Equality, order and sort keys.
ghost use Rattle.std.specs.Prelude.{◌≡◌, ◌≢◌, ◌↔◌, ◌+◌, ◌*◌, ◌≤◌, length, min, true, IsTrue, IsOk, IfOk};
ghost use Rattle.text_spec.specs.declared.encoding.Encoding.TheVariants.{Utf8};
ghost use Rattle.text_spec.specs.Packed.{content_words};
ghost use Rattle.text_spec.specs.Views.{size_in};
ghost use Rattle.object_words.specs.Rows.{ascii_of};
ghost use Rattle.str_value.specs.Meaning.{storage_of};
ghost use Rattle.canon_order.specs.Codes.{wider};
ghost use Rattle.canon_order.specs.Equivalence.{IsEquivalent, order_of, sort_key};

use crate::ascii::{compare_ascii, equal_ascii};
use crate::form::{key_of_bytes, key_of_units};
use std::alloc::Global;
use std::cmp::Ordering;
use std::sync::ledger::Ledger;
use str_value::Str;
use text_spec::{Encoding, OutOfMemory};
use word_units::{Steps, Text};

/// Whether two values are canonically equivalent.
///
/// Where both are marked ASCII no memory is taken, and no word is read where they have different lengths; else at most one word of
/// each for each word that the shorter one takes in the wider of their encodings. Otherwise both keys are made and compared: each word
/// of UTF-8 storage is read once, and of UTF-16 storage at most two a scalar.
pub fn equal<'h, L: Ledger>(
    alloc: Global,
    a: &mut Str<'h>,
    b: &mut Str<'h>,
    steps: &mut Steps<L>,
) -> Result<bool, OutOfMemory>
    ensures answer { IfOk result (λ same. IsTrue same ↔ IsEquivalent a.old.text b.old.text) }

    // No memory is wanting where both are marked ASCII.
    ensures ascii_is_free { ascii_of a.old.row ≡ true → ascii_of b.old.row ≡ true → IsOk result }

    ensures kept { a.new ≡ a.old }
    ensures other_kept { b.new ≡ b.old }
    ensures cost { steps.new ≤ steps.old + 2 * length a.old.text + 2 * length b.old.text }
    ensures byte_cost { storage_of a.old.row ≡ Utf8 → storage_of b.old.row ≡ Utf8
        → steps.new ≤ steps.old + content_words Utf8 (size_in Utf8 a.old.text) + content_words Utf8 (size_in Utf8 b.old.text) }
    ensures ascii_cost { ascii_of a.old.row ≡ true → ascii_of b.old.row ≡ true
        → steps.new ≤ steps.old + 2 * content_words (wider (storage_of a.old.row) (storage_of b.old.row)) (min (length a.old.text) (length b.old.text)) }
    ensures unread { ascii_of a.old.row ≡ true → ascii_of b.old.row ≡ true → length a.old.text ≢ length b.old.text → steps.new ≡ steps.old }
{
    if a.ascii() && b.ascii() {
        return Ok(equal_ascii(a, b, steps));
    }
    let left = key(alloc, a, steps)?;
    let right = key(alloc, b, steps)?;
    Ok(left.as_slice() == right.as_slice())
}

/// How two values compare: as the lists of scalars of their normalization forms C.
///
/// Where both are marked ASCII no memory is taken, and at most one word of each is read for each word that the shorter one takes in
/// the wider of their encodings. Otherwise both keys are made and compared: each word of UTF-8 storage is read once, and of UTF-16
/// storage at most two a scalar.
pub fn compare<'h, L: Ledger>(
    alloc: Global,
    a: &mut Str<'h>,
    b: &mut Str<'h>,
    steps: &mut Steps<L>,
) -> Result<Ordering, OutOfMemory>
    ensures answer { IfOk result (λ order. order ≡ order_of a.old.text b.old.text) }

    // No memory is wanting where both are marked ASCII.
    ensures ascii_is_free { ascii_of a.old.row ≡ true → ascii_of b.old.row ≡ true → IsOk result }

    ensures kept { a.new ≡ a.old }
    ensures other_kept { b.new ≡ b.old }
    ensures cost { steps.new ≤ steps.old + 2 * length a.old.text + 2 * length b.old.text }
    ensures byte_cost { storage_of a.old.row ≡ Utf8 → storage_of b.old.row ≡ Utf8
        → steps.new ≤ steps.old + content_words Utf8 (size_in Utf8 a.old.text) + content_words Utf8 (size_in Utf8 b.old.text) }
    ensures ascii_cost { ascii_of a.old.row ≡ true → ascii_of b.old.row ≡ true
        → steps.new ≤ steps.old + 2 * content_words (wider (storage_of a.old.row) (storage_of b.old.row)) (min (length a.old.text) (length b.old.text)) }
{
    if a.ascii() && b.ascii() {
        return Ok(compare_ascii(a, b, steps));
    }
    let left = key(alloc, a, steps)?;
    let right = key(alloc, b, steps)?;
    Ok(left.as_slice().cmp(right.as_slice()))
}

/// The sort key of a value: the UTF-8 of its normalization form C, which compares with other keys byte by byte as the values do.
///
/// It takes memory for the bytes and for their form. Each word of UTF-8 storage is read once, and of UTF-16 storage at most two a scalar.
pub fn key<L: Ledger>(
    alloc: Global,
    a: &mut Str,
    steps: &mut Steps<L>,
) -> Result<Vec<u8>, OutOfMemory>
    ensures answer { IfOk result (λ bytes. bytes.items ≡ sort_key a.old.text) }
    ensures kept { a.new ≡ a.old }
    ensures cost { steps.new ≤ steps.old + 2 * length a.old.text }

    // Each word of UTF-8 storage is read once.
    ensures byte_cost { storage_of a.old.row ≡ Utf8 → steps.new ≤ steps.old + content_words Utf8 (size_in Utf8 a.old.text) }
{
    match a.encoding() {
        Encoding::Utf8 => key_of_bytes(alloc, a, steps),
        Encoding::Utf16 => key_of_units(alloc, a, steps),
    }
}

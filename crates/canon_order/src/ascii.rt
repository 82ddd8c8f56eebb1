//! Texts that are marked ASCII, compared a word of each at a time.
ghost use Rattle.std.specs.Prelude.{◌≡◌, ◌≢◌, ◌↔◌, ℕ, ◌+◌, ◌*◌, ◌%◌, ◌<◌, ◌≤◌, List, length, drop, min, true, IsTrue};
ghost use Rattle.std.specs.Cmp.Lexicographic.{slice_cmp};
ghost use Rattle.std.specs.Ordering.{nat_cmp, ordering_then};
ghost use Rattle.text_spec.specs.Packed.{content_words};
ghost use Rattle.canon_order.specs.Codes as codes;
ghost use Rattle.canon_order.specs.Codes.{HoldsCodes};

use std::cmp::Ordering;
use std::sync::ledger::Ledger;
use text_spec::Encoding;
use word_units::{Steps, Text};

/// The code unit at place `p` of a storage, out of the word that holds it.
fn code_in(encoding: Encoding, word: u64, p: u64) -> u64
    ensures { result ≡ codes.code_in encoding word p }
{
    match encoding {
        Encoding::Utf8 => (word >> (8 * (p % 8))) % 256,
        Encoding::Utf16 => (word >> (16 * (p % 4))) % 65536,
    }
}

/// How many code units of an encoding a word holds.
fn in_a_word(encoding: Encoding) -> u64
    ensures { result ≡ codes.in_a_word encoding }
{
    match encoding {
        Encoding::Utf8 => 8,
        Encoding::Utf16 => 4,
    }
}

/// The encoding of two that has the fewer code units in a word.
fn wider(encoding: Encoding, other: Encoding) -> Encoding
    ensures { result ≡ codes.wider encoding other }
{
    match encoding {
        Encoding::Utf8 => other,
        Encoding::Utf16 => Encoding::Utf16,
    }
}

/// Whether two words hold the same code units of one encoding.
fn same_words(encodings: (Encoding, Encoding), left: u64, right: u64) -> bool
    ensures { result ≡ true → (encodings.0 ≡ encodings.1) × (left ≡ right) }
{
    match encodings {
        (Encoding::Utf8, Encoding::Utf8) => left == right,
        (Encoding::Utf16, Encoding::Utf16) => left == right,
        _ => false,
    }
}

/// How two texts compare from place `from` on, as far as the words that hold their places up to `to` tell.
///
/// Where these are the same words of one encoding, nothing else is looked at.
fn compare_words(
    encodings: (Encoding, Encoding),
    left: u64,
    right: u64,
    from: u64,
    to: u64,
) -> Ordering
    requires { from ≤ to }
    ensures { (a b : List ℕ) → HoldsCodes encodings.0 left a from to → HoldsCodes encodings.1 right b from to
        → slice_cmp nat_cmp (drop from a) (drop from b) ≡ ordering_then result (slice_cmp nat_cmp (drop to a) (drop to b)) }
{
    if same_words(encodings, left, right) {
        return Ordering::Equal;
    }
    'places: for p in from..to {
        let code = code_in(encodings.0, left, p);
        let other = code_in(encodings.1, right, p);
        if code != other {
            return code.cmp(&other);
        }
    }
    Ordering::Equal
}

/// How two texts compare from place `from` on, as far as their places up to `to` tell, which lie in one word of each.
///
/// One word of each is read.
fn compare_block<T: Text, L: Ledger>(
    a: &mut T,
    b: &mut T,
    from: u64,
    to: u64,
    steps: &mut Steps<L>,
) -> Ordering
    requires ascii { T.marked_ascii a.old ≡ true }
    requires other_ascii { T.marked_ascii b.old ≡ true }
    requires some { from < to }
    requires inside { to ≤ length (T.part a.old).whole }
    requires other_inside { to ≤ length (T.part b.old).whole }
    requires aligned { from % codes.in_a_word (codes.wider (T.part a.old).storage (T.part b.old).storage) ≡ 0 }
    requires near { to ≤ from + codes.in_a_word (codes.wider (T.part a.old).storage (T.part b.old).storage) }
    ensures order { slice_cmp nat_cmp (drop from (T.part a.old).whole) (drop from (T.part b.old).whole)
        ≡ ordering_then result (slice_cmp nat_cmp (drop to (T.part a.old).whole) (drop to (T.part b.old).whole)) }
    ensures kept { a.new ≡ a.old }
    ensures other_kept { b.new ≡ b.old }
    ensures cost { steps.new ≡ steps.old + 2 }
{
    let _ascii = a.ascii();
    let _count = a.count();
    let _other_ascii = b.ascii();
    let _other_count = b.count();
    let encodings = (a.encoding(), b.encoding());
    let left = a.word(from / in_a_word(encodings.0), steps);
    let right = b.word(from / in_a_word(encodings.1), steps);
    compare_words(encodings, left, right, from, to)
}

/// How two texts compare that are marked ASCII, in all of their storage.
///
/// At most one word of each is read for each word that the shorter text takes in the wider of the two encodings. No memory.
pub(crate) fn compare_ascii<T: Text, L: Ledger>(
    a: &mut T,
    b: &mut T,
    steps: &mut Steps<L>,
) -> Ordering
    requires ascii { T.marked_ascii a.old ≡ true }
    requires other_ascii { T.marked_ascii b.old ≡ true }
    ensures order { result ≡ slice_cmp nat_cmp (T.part a.old).whole (T.part b.old).whole }
    ensures kept { a.new ≡ a.old }
    ensures other_kept { b.new ≡ b.old }
    ensures cost { steps.new ≤ steps.old + 2 * content_words (codes.wider (T.part a.old).storage (T.part b.old).storage) (min (length (T.part a.old).whole) (length (T.part b.old).whole)) }
{
    let _ascii = a.ascii();
    let _other_ascii = b.ascii();
    let count = a.count();
    let other = b.count();
    let shared = count.min(other);
    let size = in_a_word(wider(a.encoding(), b.encoding()));
    let mut at = 0;
    'parts: while at < shared {
        let to = shared.min(at + size);
        let order = compare_block(a, b, at, to, steps);
        if order.is_ne() {
            return order;
        }
        at = to;
    }
    count.cmp(&other)
}

/// Whether two texts that are marked ASCII are the same, in all of their storage.
///
/// No word is read where they have different lengths, and else as many as `compare_ascii` reads. No memory.
pub(crate) fn equal_ascii<T: Text, L: Ledger>(a: &mut T, b: &mut T, steps: &mut Steps<L>) -> bool
    requires ascii { T.marked_ascii a.old ≡ true }
    requires other_ascii { T.marked_ascii b.old ≡ true }
    ensures answer { IsTrue result ↔ ((T.part a.old).whole ≡ (T.part b.old).whole) }
    ensures kept { a.new ≡ a.old }
    ensures other_kept { b.new ≡ b.old }
    ensures cost { steps.new ≤ steps.old + 2 * content_words (codes.wider (T.part a.old).storage (T.part b.old).storage) (min (length (T.part a.old).whole) (length (T.part b.old).whole)) }
    ensures unread { length (T.part a.old).whole ≢ length (T.part b.old).whole → steps.new ≡ steps.old }
{
    let _ascii = a.ascii();
    let _other_ascii = b.ascii();
    if a.count() != b.count() {
        return false;
    }
    compare_ascii(a, b, steps).is_eq()
}

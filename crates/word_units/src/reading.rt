ghost use Rattle.std.specs.Prelude.{◌≡◌, ◌+◌, ◌-◌, ◌/◌, ◌^◌, ◌<◌, ◌≤◌, slice_index};
ghost use Rattle.text_spec.specs.declared.encoding.Encoding.TheVariants.{Utf8, Utf16};
ghost use Rattle.text_spec.specs.Packed.{unit_of, units_of, content_words};
ghost use Rattle.text_spec.specs.Text.{utf8, utf16};
ghost use Rattle.text_spec.specs.Views.{size_in};
ghost use Rattle.word_units.specs.Parts.{storage_size};

use crate::packing::{byte_in, is_high_half, is_low_half, repaired_unit, unit_in};
use crate::steps::Steps;
use crate::text::Text;
use std::sync::ledger::Ledger;

/// Byte `p` of a text in UTF-8 storage. `p` is below the storage's number of bytes. One word is read.
pub fn byte_at<T: Text, L: Ledger>(t: &mut T, p: u64, steps: &mut Steps<L>) -> u8
    requires encoding { (T.part t.old).storage ≡ Utf8 }
    requires inside { p < size_in Utf8 (T.part t.old).whole }
    ensures value { result ≡ slice_index (utf8 (T.part t.old).whole) p }
    ensures kept { t.new ≡ t.old }
    ensures cost { steps.new ≡ steps.old + 1 }
{
    let _count = t.count();
    let word = t.word(p / 8, steps);
    byte_in(word, p)
}

/// Word `q / 8` of the bytes, where that of `p` is at hand.
pub(crate) fn byte_word_behind<T: Text, L: Ledger>(
    t: &mut T,
    near: u64,
    p: u64,
    q: u64,
    steps: &mut Steps<L>,
) -> u64
    requires inside { q / 8 < content_words (T.part t.old).storage (storage_size (T.part t.old)) }
    requires near { near ≡ slice_index (T.words t.old) (p / 8) }
    ensures value { result ≡ slice_index (T.words t.old) (q / 8) }
    ensures kept { t.new ≡ t.old }
    ensures cost { steps.new ≤ steps.old + 1 }
    ensures counted { steps.old ≤ steps.new }
{
    if q / 8 == p / 8 {
        near
    } else {
        t.word(q / 8, steps)
    }
}

/// Unit `p` as the storage holds it, unpaired or not. One word is read.
pub(crate) fn raw_unit_at<T: Text, L: Ledger>(t: &mut T, p: u64, steps: &mut Steps<L>) -> u16
    requires encoding { (T.part t.old).storage ≡ Utf16 }
    requires inside { p < size_in Utf16 (T.part t.old).whole }
    ensures value { result ≡ unit_of (T.words t.old) p }
    ensures kept { t.new ≡ t.old }
    ensures cost { steps.new ≡ steps.old + 1 }
{
    let word = t.word(p / 4, steps);
    unit_in(word, p)
}

/// Unit `q` as the storage holds it, or 0 where it ends before that; the word of unit `p` is at hand.
fn raw_unit_or_zero<T: Text, L: Ledger>(
    t: &mut T,
    near: u64,
    p: u64,
    q: u64,
    steps: &mut Steps<L>,
) -> u16
    requires encoding { (T.part t.old).storage ≡ Utf16 }
    requires near { near ≡ slice_index (T.words t.old) (p / 4) }
    ensures value { result ≡ slice_index (units_of (T.words t.old) (size_in Utf16 (T.part t.old).whole)) q }
    ensures kept { t.new ≡ t.old }
    ensures cost { steps.new ≤ steps.old + 1 }
    ensures counted { steps.old ≤ steps.new }
{
    if q >= t.count() {
        return 0;
    }
    if q / 4 == p / 4 {
        return unit_in(near, q);
    }
    raw_unit_at(t, q, steps)
}

/// The unit beside unit `p` that would make a pair with it: the next one of a first half, the one before of a second half.
///
/// 0 where there is none, or where `unit`, which is unit `p`, is no half; the word of `p` is at hand. At most one word is read.
pub(crate) fn other_half<T: Text, L: Ledger>(
    t: &mut T,
    near: u64,
    unit: u16,
    p: u64,
    steps: &mut Steps<L>,
) -> u16
    requires encoding { (T.part t.old).storage ≡ Utf16 }
    requires small { p < 2 ^ 48 }
    requires near { near ≡ slice_index (T.words t.old) (p / 4) }
    ensures next { 0xD800 ≤ unit → unit < 0xDC00 → result ≡ slice_index (units_of (T.words t.old) (size_in Utf16 (T.part t.old).whole)) (p + 1) }
    ensures before { 0xDC00 ≤ unit → unit < 0xE000 → 0 < p → result ≡ slice_index (units_of (T.words t.old) (size_in Utf16 (T.part t.old).whole)) (p - 1) }
    ensures none { 0xDC00 ≤ unit → unit < 0xE000 → p ≡ 0 → result ≡ 0 }
    ensures kept { t.new ≡ t.old }
    ensures cost { steps.new ≤ steps.old + 1 }
    ensures counted { steps.old ≤ steps.new }
{
    if is_high_half(unit) {
        return raw_unit_or_zero(t, near, p, p + 1, steps);
    }
    if is_low_half(unit) && p > 0 {
        return raw_unit_or_zero(t, near, p, p - 1, steps);
    }
    0
}

/// Unit `p` of a text in UTF-16 storage, where a surrogate without its other half reads as U+FFFD.
///
/// `p` is below the storage's number of units. At most two words are read.
pub fn unit_at<T: Text, L: Ledger>(t: &mut T, p: u64, steps: &mut Steps<L>) -> u16
    requires encoding { (T.part t.old).storage ≡ Utf16 }
    requires inside { p < size_in Utf16 (T.part t.old).whole }
    ensures value { result ≡ slice_index (utf16 (T.part t.old).whole) p }
    ensures kept { t.new ≡ t.old }
    ensures cost { steps.new ≤ steps.old + 2 }
{
    let _count = t.count();
    let word = t.word(p / 4, steps);
    let unit = unit_in(word, p);
    let beside = other_half(t, word, unit, p, steps);
    repaired_unit(unit, beside)
}

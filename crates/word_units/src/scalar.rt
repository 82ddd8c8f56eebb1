ghost use Rattle.std.specs.Prelude.{◌≡◌, ◌+◌, ◌/◌, ◌<◌, ◌≤◌, slice_index};
ghost use Rattle.std.specs.Char.{len_utf8, IsScalar};
ghost use Rattle.text_spec.specs.declared.encoding.Encoding.TheVariants.{Utf8, Utf16};
ghost use Rattle.text_spec.specs.Offsets.{len_utf16, down};
ghost use Rattle.text_spec.specs.Views.{width_in, size_in};
ghost use Rattle.text_spec.specs.Boundaries.{IsScalarBoundary};
ghost use Rattle.word_units.specs.Parts.{storage_size, IsBoundaryIn, scalars_before};

use crate::packing::{byte_in, byte_of_two, code_of_bytes, code_of_units, unit_in, width_of_lead};
use crate::reading::{byte_word_behind, other_half};
use crate::steps::Steps;
use crate::text::Text;
use std::sync::ledger::Ledger;
use text_spec::Encoding;

/// The code of the scalar that begins at byte `p`, and how many bytes it takes.
fn code8_at<T: Text, L: Ledger>(t: &mut T, p: u64, steps: &mut Steps<L>) -> (u32, u32)
    requires encoding { (T.part t.old).storage ≡ Utf8 }
    requires inside { p < size_in Utf8 (T.part t.old).whole }
    requires boundary { IsScalarBoundary len_utf8 (T.part t.old).whole p }
    ensures code { result.0 ≡ slice_index (T.part t.old).whole (down len_utf8 (T.part t.old).whole p) }
    ensures width { result.1 ≡ len_utf8 (slice_index (T.part t.old).whole (down len_utf8 (T.part t.old).whole p)) }
    ensures scalar { IsScalar result.0 }
    ensures kept { t.new ≡ t.old }
    ensures cost { steps.new ≤ steps.old + 2 }
    ensures counted { steps.old < steps.new }
{
    let _count = t.count();
    let near = t.word(p / 8, steps);
    let lead = byte_in(near, p);
    let width = width_of_lead(lead);
    let last = p + width as u64 - 1;
    let far = byte_word_behind(t, near, p, last, steps);
    let second = byte_of_two(near, far, p, p + 1);
    let third = byte_of_two(near, far, p, p + 2);
    let fourth = byte_of_two(near, far, p, p + 3);
    (code_of_bytes(lead, second, third, fourth), width)
}

/// The code of the scalar that begins at unit `p`, and how many units it takes. The word of `p` is at hand, and at most one more is read.
pub(crate) fn code16_beside<T: Text, L: Ledger>(
    t: &mut T,
    word: u64,
    p: u64,
    steps: &mut Steps<L>,
) -> (u32, u32)
    requires encoding { (T.part t.old).storage ≡ Utf16 }
    requires inside { p < size_in Utf16 (T.part t.old).whole }
    requires boundary { IsScalarBoundary len_utf16 (T.part t.old).whole p }
    requires here { word ≡ slice_index (T.words t.old) (p / 4) }
    ensures code { result.0 ≡ slice_index (T.part t.old).whole (down len_utf16 (T.part t.old).whole p) }
    ensures width { result.1 ≡ len_utf16 (slice_index (T.part t.old).whole (down len_utf16 (T.part t.old).whole p)) }
    ensures scalar { IsScalar result.0 }
    ensures kept { t.new ≡ t.old }
    ensures cost { steps.new ≤ steps.old + 1 }
    ensures counted { steps.old ≤ steps.new }
{
    let _count = t.count();
    let unit = unit_in(word, p);
    let beside = other_half(t, word, unit, p, steps);
    code_of_units(unit, beside)
}

/// The code of the scalar that begins at unit `p`, and how many units it takes.
fn code16_at<T: Text, L: Ledger>(t: &mut T, p: u64, steps: &mut Steps<L>) -> (u32, u32)
    requires encoding { (T.part t.old).storage ≡ Utf16 }
    requires inside { p < size_in Utf16 (T.part t.old).whole }
    requires boundary { IsScalarBoundary len_utf16 (T.part t.old).whole p }
    ensures code { result.0 ≡ slice_index (T.part t.old).whole (down len_utf16 (T.part t.old).whole p) }
    ensures width { result.1 ≡ len_utf16 (slice_index (T.part t.old).whole (down len_utf16 (T.part t.old).whole p)) }
    ensures scalar { IsScalar result.0 }
    ensures kept { t.new ≡ t.old }
    ensures cost { steps.new ≤ steps.old + 2 }
    ensures counted { steps.old < steps.new }
{
    let _count = t.count();
    let word = t.word(p / 4, steps);
    code16_beside(t, word, p, steps)
}

/// The code of the scalar that begins at `p`, and how many code units of the storage it takes.
fn code_at<T: Text, L: Ledger>(t: &mut T, p: u64, steps: &mut Steps<L>) -> (u32, u32)
    requires inside { p < storage_size (T.part t.old) }
    requires boundary { IsBoundaryIn (T.part t.old) p }
    ensures code { result.0 ≡ slice_index (T.part t.old).whole (scalars_before (T.part t.old) p) }
    ensures width { result.1 ≡ width_in (T.part t.old).storage (slice_index (T.part t.old).whole (scalars_before (T.part t.old) p)) }
    ensures scalar { IsScalar result.0 }
    ensures kept { t.new ≡ t.old }
    ensures cost { steps.new ≤ steps.old + 2 }
    ensures counted { steps.old < steps.new }
{
    match t.encoding() {
        Encoding::Utf8 => code8_at(t, p, steps),
        Encoding::Utf16 => code16_at(t, p, steps),
    }
}

/// The scalar that begins at `p`, and how many code units of the storage it takes: 1 to 4 in UTF-8, 1 or 2 in UTF-16.
///
/// `p` is a scalar boundary of the storage below its end, in code units. One or two words are read.
pub fn scalar_at<T: Text, L: Ledger>(t: &mut T, p: u64, steps: &mut Steps<L>) -> (char, u32)
    requires inside { p < storage_size (T.part t.old) }
    requires boundary { IsBoundaryIn (T.part t.old) p }
    ensures scalar { result.0 ≡ slice_index (T.part t.old).whole (scalars_before (T.part t.old) p) }
    ensures width { result.1 ≡ width_in (T.part t.old).storage (slice_index (T.part t.old).whole (scalars_before (T.part t.old) p)) }
    ensures kept { t.new ≡ t.old }
    ensures cost { steps.new ≤ steps.old + 2 }
    ensures counted { steps.old < steps.new }
{
    let (code, width) = code_at(t, p, steps);
    match char::from_u32(code) {
        Some(scalar) => (scalar, width),
        None => unreachable!(),
    }
}

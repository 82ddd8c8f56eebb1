//! A text as code units of UTF-16 (The Unicode Standard, section 3.9, D91).
//!
//! A call reads an index as `rounding::resolve` does, rounds it down to an element, and goes on from there. It refuses what `resolve`
//! refuses, with its numbers, and nothing else but what its own line names: a walk that would leave the text, with the place where it
//! begins and the text's bounds. Resolving reads two words for each scalar of the storage where the index is an offset in the other
//! encoding and the text isn't marked ASCII, and none elsewhere; the words that a call's line tells are those beside it. A text that is
//! marked ASCII is read for its elements alone.
ghost use Rattle.std.specs.Char.Escape.{encode_utf16};
ghost use Rattle.index_words.specs.Crumbs.{crumbs};
ghost use Rattle.crumbs.specs.Searching.{words_to_unit, FewFromCrumb, MostFromCrumb, LeastFromCrumb};
ghost use Rattle.text_spec.specs.Offsets.{start, len_utf16};
ghost use Rattle.text_spec.specs.Views.{part};
ghost use Rattle.unit_views.specs.Spots.{IsSpot, spot_offset};
ghost use Rattle.std.specs.Prelude.{◌-◌, slice_index, ◌≡◌, ◌*◌, ◌+◌, ◌<◌, ◌≤◌, true, false, Some, IfOk, IfErr, length};
ghost use Rattle.std.specs.Int.RustNames.{unsigned_abs};
ghost use Rattle.rounding.specs.Resolving.{reads_other};
ghost use Rattle.unit_views.specs.declared.kind.ElementKind.TheVariants.{Units};
ghost use Rattle.text_spec.specs.declared.encoding.Encoding.TheVariants.{Utf8, Utf16};
ghost use Rattle.word_units.specs.Parts.{high_of, scalars_in, text_in};
ghost use Rattle.rounding.specs.Elements.{IsElement, IsAfter, IsBefore, IsMoved, IsDistance, IsStopped, IsMoveOut, IsIndexOf, IsPastCount};
ghost use Rattle.rounding.specs.Refusals.{IsOutOfRange, IsEitherOut};
ghost use Rattle.unit_views.specs.Elements.{elements, element_count, element_offset, element_index, elements_of};

use crate::from_crumbs::{has_crumbs, index_from_crumb, is_offset, offset_from_crumb};
use index_words::Index;
use rounding::bounds;
use std::sync::ledger::Ledger;
use text_spec::Encoding;
use unit_views::{ElementKind, Spot, calls, leaving, spot_of};
use word_units::{OutOfBounds, Steps, Text, scalar_at, unit_at};

/// The index of the first code unit, or of the end where there is none. No word is read.
pub fn start<T: Text>(t: &T) -> Index
    ensures { result ≡ element_index (Units Utf16) (T.part t.now) 0 }
{
    calls::start(t, ElementKind::Units(Encoding::Utf16))
}

/// The index past the last code unit. No word is read.
pub fn end<T: Text>(t: &T) -> Index
    ensures { result ≡ element_index (Units Utf16) (T.part t.now) (element_count (Units Utf16) (T.part t.now)) }
{
    calls::end(t, ElementKind::Units(Encoding::Utf16))
}

/// The number of code units. No word is read in UTF-16 storage; elsewhere: At most two words a scalar are read, in one pass.
pub fn count<T: Text, L: Ledger>(t: &mut T, steps: &mut Steps<L>) -> u64
    ensures value { result ≡ element_count (Units Utf16) (T.part t.old) }
    ensures kept { t.new ≡ t.old }
    ensures cost { steps.new ≤ steps.old + 2 * scalars_in (T.part t.old) }
    ensures own { (T.part t.old).storage ≡ Utf16 → steps.new ≡ steps.old }
    ensures unread { T.marked_ascii t.old ≡ true → steps.new ≡ steps.old }
{
    calls::count(t, ElementKind::Units(Encoding::Utf16), steps)
}

/// The code unit that an index is rounded down to. Refused at the end. At most six words are read.
pub fn element<T: Text, L: Ledger>(
    t: &mut T,
    i: Index,
    steps: &mut Steps<L>,
) -> Result<u16, OutOfBounds>
    ensures element { IfOk result (IsElement (elements_of (Units Utf16) (T.part t.old)) i) }
    ensures refused { IfErr result (IsStopped (elements_of (Units Utf16) (T.part t.old)) i (element_count (Units Utf16) (T.part t.old))) }
    ensures kept { t.new ≡ t.old }
    ensures cost { steps.new ≤ steps.old + 2 * length (T.part t.old).whole + 6 }
    ensures near { reads_other (T.part t.old).storage i ≡ false → steps.new ≤ steps.old + 6 }
{
    let (_low, high) = bounds(t);
    let spot = spot_of(t, ElementKind::Units(Encoding::Utf16), i, steps)?;
    if spot.at == high {
        return Err(leaving(t, ElementKind::Units(Encoding::Utf16), spot));
    }
    Ok(unit_here(t, spot, steps))
}

/// The code unit at an element that isn't the end.
fn unit_here<T: Text, L: Ledger>(t: &mut T, spot: Spot, steps: &mut Steps<L>) -> u16
    requires spot { IsSpot (Units Utf16) (T.part t.old) spot.at spot.past }
    requires inside { spot.at < high_of (T.part t.old) }
    ensures value { result ≡ slice_index (elements (Units Utf16) (text_in (T.part t.old)))
        (spot_offset (Units Utf16) (T.part t.old) spot.at spot.past) }
    ensures kept { t.new ≡ t.old }
    ensures cost { steps.new ≤ steps.old + 2 }
{
    let (_low, _high) = bounds(t);
    match t.encoding() {
        Encoding::Utf16 => unit_at(t, spot.at, steps),
        Encoding::Utf8 => {
            let (scalar, _width) = scalar_at(t, spot.at, steps);
            unit_of_scalar(scalar, spot.past)
        }
    }
}

/// Unit `past` of the UTF-16 of a scalar.
fn unit_of_scalar(scalar: char, past: u64) -> u16
    requires { past < len_utf16 scalar }
    ensures { result ≡ slice_index (encode_utf16 scalar) past }
{
    let mut units = [0; 2];
    scalar.encode_utf16(&mut units)[past as usize]
}

/// The index of the code unit after the one that an index is rounded down to, or of the end. Refused at the end. At most 14 words are read.
pub fn after<T: Text, L: Ledger>(
    t: &mut T,
    i: Index,
    steps: &mut Steps<L>,
) -> Result<Index, OutOfBounds>
    ensures next { IfOk result (IsAfter (elements_of (Units Utf16) (T.part t.old)) i) }
    ensures refused { IfErr result (IsStopped (elements_of (Units Utf16) (T.part t.old)) i (element_count (Units Utf16) (T.part t.old))) }
    ensures kept { t.new ≡ t.old }
    ensures cost { steps.new ≤ steps.old + 2 * length (T.part t.old).whole + 14 }
    ensures near { reads_other (T.part t.old).storage i ≡ false → steps.new ≤ steps.old + 14 }
    ensures unread { T.marked_ascii t.old ≡ true → steps.new ≡ steps.old }
{
    calls::after(t, ElementKind::Units(Encoding::Utf16), i, steps)
}

/// The index of the code unit before the one that an index is rounded down to. Refused at the start. At most ten words are read.
pub fn before<T: Text, L: Ledger>(
    t: &mut T,
    i: Index,
    steps: &mut Steps<L>,
) -> Result<Index, OutOfBounds>
    ensures previous { IfOk result (IsBefore (elements_of (Units Utf16) (T.part t.old)) i) }
    ensures refused { IfErr result (IsStopped (elements_of (Units Utf16) (T.part t.old)) i 0) }
    ensures kept { t.new ≡ t.old }
    ensures cost { steps.new ≤ steps.old + 2 * length (T.part t.old).whole + 10 }
    ensures near { reads_other (T.part t.old).storage i ≡ false → steps.new ≤ steps.old + 10 }
    ensures unread { T.marked_ascii t.old ≡ true → steps.new ≡ steps.old }
{
    calls::before(t, ElementKind::Units(Encoding::Utf16), i, steps)
}

/// The index of the code unit `n` code units after the one that an index is rounded down to, or before it where `n` is negative.
///
/// Refused where that is before the first code unit or past the end. One pass from the index, at most four words a scalar, and six.
pub fn offset_by<T: Text, L: Ledger>(
    t: &mut T,
    i: Index,
    n: i64,
    steps: &mut Steps<L>,
) -> Result<Index, OutOfBounds>
    ensures there { IfOk result (IsMoved (elements_of (Units Utf16) (T.part t.old)) i n) }
    ensures refused { IfErr result (IsMoveOut (elements_of (Units Utf16) (T.part t.old)) i n) }
    ensures kept { t.new ≡ t.old }
    ensures cost { steps.new ≤ steps.old + 2 * length (T.part t.old).whole + 4 * scalars_in (T.part t.old) + 6 }
    ensures pass { reads_other (T.part t.old).storage i ≡ false → steps.new ≤ steps.old + 4 * scalars_in (T.part t.old) + 6 }
    ensures near { reads_other (T.part t.old).storage i ≡ false → steps.new ≤ steps.old + 4 * unsigned_abs n + 12 }
    ensures unread { T.marked_ascii t.old ≡ true → steps.new ≡ steps.old }
{
    calls::offset_by(t, ElementKind::Units(Encoding::Utf16), i, n, steps)
}

/// How many code units lie from the one that an index is rounded down to, to another: below 0 where that is before it.
///
/// The first index is refused before the second. No word is read in UTF-16 storage; elsewhere: One pass from the earlier of the two, at most two words a scalar.
pub fn distance<T: Text, L: Ledger>(
    t: &mut T,
    from: Index,
    to: Index,
    steps: &mut Steps<L>,
) -> Result<i64, OutOfBounds>
    ensures units { IfOk result (IsDistance (elements_of (Units Utf16) (T.part t.old)) from to) }
    ensures refused { IfErr result (IsEitherOut (T.part t.old) from to) }
    ensures kept { t.new ≡ t.old }
    ensures cost { steps.new ≤ steps.old + 4 * length (T.part t.old).whole + 2 * scalars_in (T.part t.old) + 8 }
    ensures near { reads_other (T.part t.old).storage from ≡ false → reads_other (T.part t.old).storage to ≡ false
        → steps.new ≤ steps.old + 2 * scalars_in (T.part t.old) + 8 }
    ensures unread { T.marked_ascii t.old ≡ true → steps.new ≡ steps.old }
{
    calls::distance(t, ElementKind::Units(Encoding::Utf16), from, to, steps)
}

/// The index of the code unit with an offset, or of the end. Refused exactly where the offset is above their number.
///
/// Where breadcrumbs are known, the length, the breadcrumb before the offset and once each word in which a scalar begins from there to the
/// offset are read, at most two words more than the distance of breadcrumbs; else in UTF-8 storage at most two a scalar in one pass up to
/// the code unit, and in UTF-16 storage the two beside it.
pub fn index_of_offset<T: Text, L: Ledger>(
    t: &mut T,
    offset: u64,
    steps: &mut Steps<L>,
) -> Result<Index, OutOfBounds>
    ensures index { IfOk result (IsIndexOf (elements_of (Units Utf16) (T.part t.old)) offset) }
    ensures refused { IfErr result (IsPastCount (elements_of (Units Utf16) (T.part t.old)) offset) }
    ensures kept { t.new ≡ t.old }
    ensures crumbs { T.knows_crumbs t.old ≡ true → 1 ≤ T.STRIDE → steps.new ≤ steps.old + T.STRIDE + 2 }
    ensures counted { T.knows_crumbs t.old ≡ true → 1 ≤ T.STRIDE → T.marked_ascii t.old ≡ false
        → IfOk result (λ r. steps.new ≡ steps.old + words_to_unit (T.part t.old).whole T.STRIDE offset) }
    ensures short { T.knows_crumbs t.old ≡ true → 1 ≤ T.STRIDE → T.marked_ascii t.old ≡ false → IfErr result (λ out. steps.new ≡ steps.old + 1) }
    ensures pass { (T.part t.old).storage ≡ Utf8 → T.knows_crumbs t.old ≡ false → steps.new ≤ steps.old + 2 * scalars_in (T.part t.old) }
    ensures near { (T.part t.old).storage ≡ Utf8 → T.knows_crumbs t.old ≡ false → steps.new ≤ steps.old + 2 * offset }
    ensures own { (T.part t.old).storage ≡ Utf16 → steps.new ≤ steps.old + 2 }
    ensures unread { T.marked_ascii t.old ≡ true → steps.new ≡ steps.old }
{
    if has_crumbs(t) {
        return index_from_crumb(t, offset, steps);
    }
    calls::index_of_offset(t, ElementKind::Units(Encoding::Utf16), offset, steps)
}

/// The offset of the code unit that an index is rounded down to.
///
/// Where breadcrumbs are known and the index is read in bytes, the length and the breadcrumb before the index are read, at most one word for
/// each binary digit of the number of the last breadcrumb to find it, and once each word in which a scalar begins from there to the index,
/// at most as many as the distance of breadcrumbs; else at most two a scalar in one pass up to the code unit, and four beside it.
pub fn offset_of_index<T: Text, L: Ledger>(
    t: &mut T,
    i: Index,
    steps: &mut Steps<L>,
) -> Result<u64, OutOfBounds>
    ensures offset { IfOk result (λ offset. element_offset (Units Utf16) (T.part t.old) i ≡ Some offset) }
    ensures refused { IfErr result (IsOutOfRange (T.part t.old) i) }
    ensures kept { t.new ≡ t.old }
    ensures crumbs { T.knows_crumbs t.old ≡ true → 1 ≤ T.STRIDE → reads_other (T.part t.old).storage i ≡ false → FewFromCrumb (T.part t.old).whole T.STRIDE steps.old steps.new }
    ensures walked { T.knows_crumbs t.old ≡ true → 1 ≤ T.STRIDE → reads_other (T.part t.old).storage i ≡ false → MostFromCrumb (T.part t.old).whole T.STRIDE i steps.old steps.new }
    ensures counted { T.knows_crumbs t.old ≡ true → 1 ≤ T.STRIDE → T.marked_ascii t.old ≡ false → reads_other (T.part t.old).storage i ≡ false
        → IfOk result (λ offset. LeastFromCrumb (T.part t.old).whole T.STRIDE i steps.old steps.new) }
    ensures cost { T.knows_crumbs t.old ≡ false → steps.new ≤ steps.old + 2 * length (T.part t.old).whole + 2 * scalars_in (T.part t.old) + 4 }
    ensures across { reads_other (T.part t.old).storage i ≡ true → steps.new ≤ steps.old + 2 * length (T.part t.old).whole + 2 * scalars_in (T.part t.old) + 4 }
    ensures near { T.knows_crumbs t.old ≡ false → reads_other (T.part t.old).storage i ≡ false → steps.new ≤ steps.old + 2 * scalars_in (T.part t.old) + 4 }
    ensures unread { T.marked_ascii t.old ≡ true → steps.new ≡ steps.old }
{
    let _known = t.crumbs_known();
    if has_crumbs(t) && !is_offset(i) {
        return offset_from_crumb(t, i, steps);
    }
    calls::offset_of_index(t, ElementKind::Units(Encoding::Utf16), i, steps)
}

//! A text as code units of UTF-8 (The Unicode Standard, section 3.9, D92).
//!
//! A call reads an index as `rounding::resolve` does, rounds it down to an element, and goes on from there. It refuses what `resolve`
//! refuses, with its numbers, and nothing else but what its own line names: a walk that would leave the text, with the place where it
//! begins and the text's bounds. Resolving reads two words for each scalar of the storage where the index is an offset in the other
//! encoding and the text isn't marked ASCII, and none elsewhere; the words that a call's line tells are those beside it. A text that is
//! marked ASCII is read for its elements alone.
ghost use Rattle.std.specs.Char.{encode_utf8, len_utf8};
ghost use Rattle.text_spec.specs.Offsets.{start};
ghost use Rattle.text_spec.specs.Views.{part};
ghost use Rattle.unit_views.specs.Spots.{IsSpot, spot_offset};
ghost use Rattle.std.specs.Prelude.{◌-◌, slice_index, ◌≡◌, ◌*◌, ◌+◌, ◌<◌, ◌≤◌, true, false, IfOk, IfErr, length};
ghost use Rattle.std.specs.Int.RustNames.{unsigned_abs};
ghost use Rattle.rounding.specs.Resolving.{reads_other};
ghost use Rattle.unit_views.specs.declared.kind.ElementKind.TheVariants.{Units};
ghost use Rattle.text_spec.specs.declared.encoding.Encoding.TheVariants.{Utf8};
ghost use Rattle.word_units.specs.Parts.{high_of, scalars_in, text_in};
ghost use Rattle.rounding.specs.Elements.{IsElement, IsAfter, IsBefore, IsMoved, IsDistance, IsStopped, IsMoveOut};
ghost use Rattle.rounding.specs.Refusals.{IsEitherOut};
ghost use Rattle.unit_views.specs.Elements.{elements, element_count, element_index, elements_of};

use crate::calls;
use crate::kind::ElementKind;
use crate::spot::{Spot, leaving, spot_of};
use index_words::Index;
use rounding::bounds;
use std::sync::ledger::Ledger;
use text_spec::Encoding;
use word_units::{OutOfBounds, Steps, Text, byte_at, scalar_at};

/// The index of the first code unit, or of the end where there is none. No word is read.
pub fn start<T: Text>(t: &T) -> Index
    ensures { result ≡ element_index (Units Utf8) (T.part t.now) 0 }
{
    calls::start(t, ElementKind::Units(Encoding::Utf8))
}

/// The index past the last code unit. No word is read.
pub fn end<T: Text>(t: &T) -> Index
    ensures { result ≡ element_index (Units Utf8) (T.part t.now) (element_count (Units Utf8) (T.part t.now)) }
{
    calls::end(t, ElementKind::Units(Encoding::Utf8))
}

/// The number of code units. No word is read in UTF-8 storage; elsewhere: At most two words a scalar are read, in one pass.
pub fn count<T: Text, L: Ledger>(t: &mut T, steps: &mut Steps<L>) -> u64
    ensures value { result ≡ element_count (Units Utf8) (T.part t.old) }
    ensures kept { t.new ≡ t.old }
    ensures cost { steps.new ≤ steps.old + 2 * scalars_in (T.part t.old) }
    ensures own { (T.part t.old).storage ≡ Utf8 → steps.new ≡ steps.old }
    ensures unread { T.marked_ascii t.old ≡ true → steps.new ≡ steps.old }
{
    calls::count(t, ElementKind::Units(Encoding::Utf8), steps)
}

/// The code unit that an index is rounded down to. Refused at the end. At most six words are read.
pub fn element<T: Text, L: Ledger>(
    t: &mut T,
    i: Index,
    steps: &mut Steps<L>,
) -> Result<u8, OutOfBounds>
    ensures element { IfOk result (IsElement (elements_of (Units Utf8) (T.part t.old)) i) }
    ensures refused { IfErr result (IsStopped (elements_of (Units Utf8) (T.part t.old)) i (element_count (Units Utf8) (T.part t.old))) }
    ensures kept { t.new ≡ t.old }
    ensures cost { steps.new ≤ steps.old + 2 * length (T.part t.old).whole + 6 }
    ensures near { reads_other (T.part t.old).storage i ≡ false → steps.new ≤ steps.old + 6 }
{
    let (_low, high) = bounds(t);
    let spot = spot_of(t, ElementKind::Units(Encoding::Utf8), i, steps)?;
    if spot.at == high {
        return Err(leaving(t, ElementKind::Units(Encoding::Utf8), spot));
    }
    Ok(byte_here(t, spot, steps))
}

/// The code unit at an element that isn't the end.
fn byte_here<T: Text, L: Ledger>(t: &mut T, spot: Spot, steps: &mut Steps<L>) -> u8
    requires spot { IsSpot (Units Utf8) (T.part t.old) spot.at spot.past }
    requires inside { spot.at < high_of (T.part t.old) }
    ensures value { result ≡ slice_index (elements (Units Utf8) (text_in (T.part t.old)))
        (spot_offset (Units Utf8) (T.part t.old) spot.at spot.past) }
    ensures kept { t.new ≡ t.old }
    ensures cost { steps.new ≤ steps.old + 2 }
{
    let (_low, _high) = bounds(t);
    match t.encoding() {
        Encoding::Utf8 => byte_at(t, spot.at, steps),
        Encoding::Utf16 => {
            let (scalar, _width) = scalar_at(t, spot.at, steps);
            byte_of_scalar(scalar, spot.past)
        }
    }
}

/// Byte `past` of the UTF-8 of a scalar.
fn byte_of_scalar(scalar: char, past: u64) -> u8
    requires { past < len_utf8 scalar }
    ensures { result ≡ slice_index (encode_utf8 scalar) past }
{
    let mut bytes = [0; 4];
    scalar.encode_utf8(&mut bytes).as_bytes()[past as usize]
}

/// The index of the code unit after the one that an index is rounded down to, or of the end. Refused at the end. At most 14 words are read.
pub fn after<T: Text, L: Ledger>(
    t: &mut T,
    i: Index,
    steps: &mut Steps<L>,
) -> Result<Index, OutOfBounds>
    ensures next { IfOk result (IsAfter (elements_of (Units Utf8) (T.part t.old)) i) }
    ensures refused { IfErr result (IsStopped (elements_of (Units Utf8) (T.part t.old)) i (element_count (Units Utf8) (T.part t.old))) }
    ensures kept { t.new ≡ t.old }
    ensures cost { steps.new ≤ steps.old + 2 * length (T.part t.old).whole + 14 }
    ensures near { reads_other (T.part t.old).storage i ≡ false → steps.new ≤ steps.old + 14 }
    ensures unread { T.marked_ascii t.old ≡ true → steps.new ≡ steps.old }
{
    calls::after(t, ElementKind::Units(Encoding::Utf8), i, steps)
}

/// The index of the code unit before the one that an index is rounded down to. Refused at the start. At most ten words are read.
pub fn before<T: Text, L: Ledger>(
    t: &mut T,
    i: Index,
    steps: &mut Steps<L>,
) -> Result<Index, OutOfBounds>
    ensures previous { IfOk result (IsBefore (elements_of (Units Utf8) (T.part t.old)) i) }
    ensures refused { IfErr result (IsStopped (elements_of (Units Utf8) (T.part t.old)) i 0) }
    ensures kept { t.new ≡ t.old }
    ensures cost { steps.new ≤ steps.old + 2 * length (T.part t.old).whole + 10 }
    ensures near { reads_other (T.part t.old).storage i ≡ false → steps.new ≤ steps.old + 10 }
    ensures unread { T.marked_ascii t.old ≡ true → steps.new ≡ steps.old }
{
    calls::before(t, ElementKind::Units(Encoding::Utf8), i, steps)
}

/// The index of the code unit `n` code units after the one that an index is rounded down to, or before it where `n` is negative.
///
/// Refused where that is before the first code unit or past the end. One pass from the index, at most four words a scalar, and six.
pub fn offset_by<T: Text, L: Ledger>(
    t: &mut T,
    i: Index,
    n: i64,
    steps: &mut Steps<L>,
) -> Result<Index, OutOfBounds>
    ensures there { IfOk result (IsMoved (elements_of (Units Utf8) (T.part t.old)) i n) }
    ensures refused { IfErr result (IsMoveOut (elements_of (Units Utf8) (T.part t.old)) i n) }
    ensures kept { t.new ≡ t.old }
    ensures cost { steps.new ≤ steps.old + 2 * length (T.part t.old).whole + 4 * scalars_in (T.part t.old) + 6 }
    ensures pass { reads_other (T.part t.old).storage i ≡ false → steps.new ≤ steps.old + 4 * scalars_in (T.part t.old) + 6 }
    ensures near { reads_other (T.part t.old).storage i ≡ false → steps.new ≤ steps.old + 4 * unsigned_abs n + 12 }
    ensures unread { T.marked_ascii t.old ≡ true → steps.new ≡ steps.old }
{
    calls::offset_by(t, ElementKind::Units(Encoding::Utf8), i, n, steps)
}

/// How many code units lie from the one that an index is rounded down to, to another: below 0 where that is before it.
///
/// The first index is refused before the second. No word is read in UTF-8 storage; elsewhere: One pass from the earlier of the two, at most two words a scalar.
pub fn distance<T: Text, L: Ledger>(
    t: &mut T,
    from: Index,
    to: Index,
    steps: &mut Steps<L>,
) -> Result<i64, OutOfBounds>
    ensures bytes { IfOk result (IsDistance (elements_of (Units Utf8) (T.part t.old)) from to) }
    ensures refused { IfErr result (IsEitherOut (T.part t.old) from to) }
    ensures kept { t.new ≡ t.old }
    ensures cost { steps.new ≤ steps.old + 4 * length (T.part t.old).whole + 2 * scalars_in (T.part t.old) + 8 }
    ensures near { reads_other (T.part t.old).storage from ≡ false → reads_other (T.part t.old).storage to ≡ false
        → steps.new ≤ steps.old + 2 * scalars_in (T.part t.old) + 8 }
    ensures unread { T.marked_ascii t.old ≡ true → steps.new ≡ steps.old }
{
    calls::distance(t, ElementKind::Units(Encoding::Utf8), from, to, steps)
}

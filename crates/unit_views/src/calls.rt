//! The calls that every view has, by the view.
ghost use Rattle.std.specs.Prelude.{◌-◌, ◌≡◌, ◌*◌, ◌+◌, ◌<◌, ◌≤◌, true, false, IfOk, IfErr, length, Some};
ghost use Rattle.std.specs.Int.RustNames.{unsigned_abs};
ghost use Rattle.rounding.specs.Resolving.{reads_other};
ghost use Rattle.unit_views.specs.declared.kind.ElementKind.TheVariants.{Scalars};
ghost use Rattle.unit_views.specs.Elements.{is_own, element_count, element_index, element_offset, elements_of};
ghost use Rattle.text_spec.specs.Offsets.{start};
ghost use Rattle.word_units.specs.Parts.{low_of, scalars_before, scalars_in};
ghost use Rattle.rounding.specs.Elements.{IsAfter, IsBefore, IsMoved, IsDistance, IsStopped, IsMoveOut, IsIndexOf, IsPastCount};
ghost use Rattle.rounding.specs.Refusals.{IsOutOfRange, IsEitherOut};
ghost use Rattle.unit_views.specs.Spots.{IsSpot, spot_offset};

use crate::kind::{ElementKind, is_own};
use crate::spot::{Spot, index_of, leaving, spot_of};
use crate::turns::{apart, back, forward, turn};
use crate::walk::elements_between;
use index_words::Index;
use rounding::{bounds, index_from};
use std::sync::ledger::Ledger;
use word_units::{OutOfBounds, Steps, Text};

/// The index of the first element, or of the end where there is none. No word is read.
pub fn start<T: Text>(t: &T, view: ElementKind) -> Index
    ensures { result ≡ element_index view (T.part t.now) 0 }
{
    let (low, _high) = bounds(t);
    index_from(t.encoding(), low, 0)
}

/// The index past the last element. No word is read.
pub fn end<T: Text>(t: &T, view: ElementKind) -> Index
    ensures { result ≡ element_index view (T.part t.now) (element_count view (T.part t.now)) }
{
    let (_low, high) = bounds(t);
    index_from(t.encoding(), high, 0)
}

/// The number of elements.
///
/// Where the text is marked ASCII, or the elements are the storage's code units, no word is read; else at most two a scalar, in one pass.
pub fn count<T: Text, L: Ledger>(t: &mut T, view: ElementKind, steps: &mut Steps<L>) -> u64
    ensures value { result ≡ element_count view (T.part t.old) }
    ensures kept { t.new ≡ t.old }
    ensures cost { steps.new ≤ steps.old + 2 * scalars_in (T.part t.old) }
    ensures own { is_own view (T.part t.old).storage ≡ true → steps.new ≡ steps.old }
    ensures unread { T.marked_ascii t.old ≡ true → steps.new ≡ steps.old }
{
    let (low, high) = bounds(t);
    if is_own(view, t.encoding()) {
        return high - low;
    }
    elements_between(t, view, low, high, steps)
}

/// The index of the element after the one that an index is rounded down to, or of the end. Refused at the end.
pub fn after<T: Text, L: Ledger>(
    t: &mut T,
    view: ElementKind,
    i: Index,
    steps: &mut Steps<L>,
) -> Result<Index, OutOfBounds>
    ensures next { IfOk result (IsAfter (elements_of view (T.part t.old)) i) }
    ensures refused { IfErr result (IsStopped (elements_of view (T.part t.old)) i (element_count view (T.part t.old))) }
    ensures kept { t.new ≡ t.old }
    ensures cost { steps.new ≤ steps.old + 2 * length (T.part t.old).whole + 14 }
    ensures near { reads_other (T.part t.old).storage i ≡ false → steps.new ≤ steps.old + 14 }
    ensures scalars { view ≡ Scalars → reads_other (T.part t.old).storage i ≡ false → steps.new ≤ steps.old + 4 }
    ensures unread { T.marked_ascii t.old ≡ true → steps.new ≡ steps.old }
{
    let spot = spot_of(t, view, i, steps)?;
    match forward(t, view, spot, 1, steps) {
        Ok(next) => Ok(index_of(t, view, next, steps)),
        Err(_) => Err(leaving(t, view, spot)),
    }
}

/// The index of the element before the one that an index is rounded down to. Refused at the start.
pub fn before<T: Text, L: Ledger>(
    t: &mut T,
    view: ElementKind,
    i: Index,
    steps: &mut Steps<L>,
) -> Result<Index, OutOfBounds>
    ensures previous { IfOk result (IsBefore (elements_of view (T.part t.old)) i) }
    ensures refused { IfErr result (IsStopped (elements_of view (T.part t.old)) i 0) }
    ensures kept { t.new ≡ t.old }
    ensures cost { steps.new ≤ steps.old + 2 * length (T.part t.old).whole + 10 }
    ensures near { reads_other (T.part t.old).storage i ≡ false → steps.new ≤ steps.old + 10 }
    ensures scalars { view ≡ Scalars → reads_other (T.part t.old).storage i ≡ false → steps.new ≤ steps.old + 4 }
    ensures unread { T.marked_ascii t.old ≡ true → steps.new ≡ steps.old }
{
    let spot = spot_of(t, view, i, steps)?;
    match back(t, view, spot, 1, steps) {
        Some(previous) => Ok(index_of(t, view, previous, steps)),
        None => Err(leaving(t, view, spot)),
    }
}

/// The index of the element `n` elements after the one that an index is rounded down to, or before it where `n` is negative.
/// Refused where that is before the first element or past the end.
pub fn offset_by<T: Text, L: Ledger>(
    t: &mut T,
    view: ElementKind,
    i: Index,
    n: i64,
    steps: &mut Steps<L>,
) -> Result<Index, OutOfBounds>
    ensures there { IfOk result (IsMoved (elements_of view (T.part t.old)) i n) }
    ensures refused { IfErr result (IsMoveOut (elements_of view (T.part t.old)) i n) }
    ensures kept { t.new ≡ t.old }
    ensures cost { steps.new ≤ steps.old + 2 * length (T.part t.old).whole + 4 * scalars_in (T.part t.old) + 6 }
    ensures pass { reads_other (T.part t.old).storage i ≡ false → steps.new ≤ steps.old + 4 * scalars_in (T.part t.old) + 6 }
    ensures near { reads_other (T.part t.old).storage i ≡ false → steps.new ≤ steps.old + 4 * unsigned_abs n + 12 }
    ensures unread { T.marked_ascii t.old ≡ true → steps.new ≡ steps.old }
{
    let spot = spot_of(t, view, i, steps)?;
    match turn(t, view, spot, n, steps) {
        Some(there) => Ok(index_of(t, view, there, steps)),
        None => Err(leaving(t, view, spot)),
    }
}

/// How many elements lie from the one that an index is rounded down to, to another: below 0 where that is before it.
pub fn distance<T: Text, L: Ledger>(
    t: &mut T,
    view: ElementKind,
    from: Index,
    to: Index,
    steps: &mut Steps<L>,
) -> Result<i64, OutOfBounds>
    ensures elements { IfOk result (IsDistance (elements_of view (T.part t.old)) from to) }
    ensures refused { IfErr result (IsEitherOut (T.part t.old) from to) }
    ensures kept { t.new ≡ t.old }
    ensures cost { steps.new ≤ steps.old + 4 * length (T.part t.old).whole + 2 * scalars_in (T.part t.old) + 8 }
    ensures near { reads_other (T.part t.old).storage from ≡ false → reads_other (T.part t.old).storage to ≡ false
        → steps.new ≤ steps.old + 2 * scalars_in (T.part t.old) + 8 }
    ensures unread { T.marked_ascii t.old ≡ true → steps.new ≡ steps.old }
{
    let start = spot_of(t, view, from, steps)?;
    match spot_of(t, view, to, steps) {
        Ok(there) => Ok(apart(t, view, start, there, steps)),
        Err(out) => Err(out),
    }
}

/// The text's first element, or its end where there is none.
fn start_spot<T: Text>(t: &T, view: ElementKind) -> Spot
    ensures spot { IsSpot view (T.part t.now) result.at result.past }
    ensures offset { spot_offset view (T.part t.now) result.at result.past ≡ 0 }
    ensures place { (result.at ≡ low_of (T.part t.now)) × (result.past ≡ 0) }
{
    let (low, _high) = bounds(t);
    Spot { at: low, past: 0 }
}

/// The element with an offset, or the end, as a place in the storage. Refused exactly where the offset is above their number.
///
/// Where the text is marked ASCII, or the elements are the storage's code units, no word is read; else at most two a scalar, in one
/// pass up to the element.
pub fn spot_at<T: Text, L: Ledger>(
    t: &mut T,
    view: ElementKind,
    offset: u64,
    steps: &mut Steps<L>,
) -> Result<Spot, OutOfBounds>
    ensures spot { IfOk result (λ s. IsSpot view (T.part t.old) s.at s.past) }
    ensures offset { IfOk result (λ s. spot_offset view (T.part t.old) s.at s.past ≡ offset) }
    ensures refused { IfErr result (IsPastCount (elements_of view (T.part t.old)) offset) }
    ensures kept { t.new ≡ t.old }
    ensures pass { steps.new ≤ steps.old + 2 * scalars_in (T.part t.old) }
    ensures near { steps.new ≤ steps.old + 2 * offset }
    ensures own { is_own view (T.part t.old).storage ≡ true → steps.new ≡ steps.old }
    ensures unread { T.marked_ascii t.old ≡ true → steps.new ≡ steps.old }
{
    let start = start_spot(t, view);
    match forward(t, view, start, offset, steps) {
        Ok(spot) => Ok(spot),
        Err(count) => Err(OutOfBounds {
            position: offset,
            low: 0,
            high: count,
        }),
    }
}

/// The index of the element with an offset, or of the end. Refused exactly where the offset is above their number.
///
/// Where the text is marked ASCII no word is read; else at most two a scalar, in one pass up to the element, or, where the elements are
/// the storage's code units, the two beside it.
pub fn index_of_offset<T: Text, L: Ledger>(
    t: &mut T,
    view: ElementKind,
    offset: u64,
    steps: &mut Steps<L>,
) -> Result<Index, OutOfBounds>
    ensures index { IfOk result (IsIndexOf (elements_of view (T.part t.old)) offset) }
    ensures refused { IfErr result (IsPastCount (elements_of view (T.part t.old)) offset) }
    ensures kept { t.new ≡ t.old }
    ensures across { is_own view (T.part t.old).storage ≡ false → steps.new ≤ steps.old + 2 * scalars_in (T.part t.old) }
    ensures near { is_own view (T.part t.old).storage ≡ false → steps.new ≤ steps.old + 2 * offset }
    ensures own { is_own view (T.part t.old).storage ≡ true → steps.new ≤ steps.old + 2 }
    ensures unread { T.marked_ascii t.old ≡ true → steps.new ≡ steps.old }
{
    let spot = spot_at(t, view, offset, steps)?;
    Ok(index_of(t, view, spot, steps))
}

/// How many elements lie before an element, from a boundary on that isn't after it.
fn elements_from<T: Text, L: Ledger>(
    t: &mut T,
    view: ElementKind,
    from: Spot,
    to: Spot,
    steps: &mut Steps<L>,
) -> u64
    requires from { IsSpot view (T.part t.old) from.at from.past }
    requires begins { from.past ≡ 0 }
    requires to { IsSpot view (T.part t.old) to.at to.past }
    requires order { from.at ≤ to.at }
    ensures value { spot_offset view (T.part t.old) from.at from.past + result
        ≡ spot_offset view (T.part t.old) to.at to.past }
    ensures kept { t.new ≡ t.old }
    ensures cost { steps.new ≤ steps.old + 2 * scalars_in (T.part t.old) }
    ensures pass { steps.new ≤ steps.old + 2 * (scalars_before (T.part t.old) to.at - scalars_before (T.part t.old) from.at) }
    ensures unread { T.marked_ascii t.old ≡ true → steps.new ≡ steps.old }
{
    let (_low, _high) = bounds(t);
    if is_own(view, t.encoding()) {
        return to.at - from.at;
    }
    elements_between(t, view, from.at, to.at, steps) + to.past
}

/// The offset of the element that an index is rounded down to.
///
/// Where the text is marked ASCII no word is read; else at most two a scalar in one pass up to the element, and four beside it.
pub fn offset_of_index<T: Text, L: Ledger>(
    t: &mut T,
    view: ElementKind,
    i: Index,
    steps: &mut Steps<L>,
) -> Result<u64, OutOfBounds>
    ensures offset { IfOk result (λ offset. element_offset view (T.part t.old) i ≡ Some offset) }
    ensures refused { IfErr result (IsOutOfRange (T.part t.old) i) }
    ensures kept { t.new ≡ t.old }
    ensures cost { steps.new ≤ steps.old + 2 * length (T.part t.old).whole + 2 * scalars_in (T.part t.old) + 4 }
    ensures near { reads_other (T.part t.old).storage i ≡ false → steps.new ≤ steps.old + 2 * scalars_in (T.part t.old) + 4 }
    ensures unread { T.marked_ascii t.old ≡ true → steps.new ≡ steps.old }
{
    let start = start_spot(t, view);
    let spot = spot_of(t, view, i, steps)?;
    Ok(elements_from(t, view, start, spot, steps))
}

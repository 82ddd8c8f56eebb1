//! From one element of a text to another.
ghost use Rattle.std.specs.Prelude.{◌-◌, ◌≡◌, ◌*◌, ◌+◌, ◌<◌, ◌≤◌, ◌^◌, ◌↔◌, ◌⊎◌, true, false, None, IfSome, IfOk, IfErr, pos, ◌+ℤ◌, ◌<ℤ◌};
ghost use Rattle.std.specs.Int.RustNames.{unsigned_abs};
ghost use Rattle.word_units.specs.Parts.{scalars_in};
ghost use Rattle.unit_views.specs.declared.kind.ElementKind.TheVariants.{Scalars};
ghost use Rattle.unit_views.specs.Elements.{is_own, element_count};
ghost use Rattle.unit_views.specs.Spots.{IsSpot, spot_offset};

use crate::back::walk_back;
use crate::kind::{ElementKind, is_own};
use crate::signs::signed_gap;
use crate::spot::Spot;
use crate::walk::{elements_between, walk_on};
use rounding::bounds;
use std::sync::ledger::Ledger;
use word_units::{Steps, Text};

/// The element `n` elements on, where the elements aren't the storage's code units.
fn forward_across<T: Text, L: Ledger>(
    t: &mut T,
    view: ElementKind,
    spot: Spot,
    n: u64,
    steps: &mut Steps<L>,
) -> Result<Spot, u64>
    requires across { is_own view (T.part t.old).storage ≡ false }
    requires spot { IsSpot view (T.part t.old) spot.at spot.past }
    requires fits { spot.past + n < 2 ^ 64 }
    ensures spot { IfOk result (λ s. IsSpot view (T.part t.old) s.at s.past) }
    ensures moved { IfOk result (λ s. spot_offset view (T.part t.old) s.at s.past
        ≡ spot_offset view (T.part t.old) spot.at spot.past + n) }
    ensures left { IfErr result (λ left. (spot_offset view (T.part t.old) spot.at spot.past + left
        ≡ element_count view (T.part t.old)) × (left < n)) }
    ensures kept { t.new ≡ t.old }
    ensures cost { steps.new ≤ steps.old + 2 * scalars_in (T.part t.old) }
    ensures near { steps.new ≤ steps.old + 2 * (spot.past + n) }
    ensures unread { T.marked_ascii t.old ≡ true → steps.new ≡ steps.old }
{
    let (_low, high) = bounds(t);
    let room = spot.past + n;
    let (at, reached) = walk_on(t, view, spot.at, high, room, steps);
    let past = room - reached;
    if at == high && past > 0 {
        return Err(reached - spot.past);
    }
    Ok(Spot { at, past })
}

/// The element `n` elements on, or, where that is past the text's end, how many lie on from this one.
///
/// Where the text is marked ASCII, or the elements are the storage's code units, no word is read; else at most two a scalar, in one pass.
pub(crate) fn forward<T: Text, L: Ledger>(
    t: &mut T,
    view: ElementKind,
    spot: Spot,
    n: u64,
    steps: &mut Steps<L>,
) -> Result<Spot, u64>
    requires spot { IsSpot view (T.part t.old) spot.at spot.past }
    requires fits { spot.past + n < 2 ^ 64 }
    ensures spot { IfOk result (λ s. IsSpot view (T.part t.old) s.at s.past) }
    ensures moved { IfOk result (λ s. spot_offset view (T.part t.old) s.at s.past
        ≡ spot_offset view (T.part t.old) spot.at spot.past + n) }
    ensures left { IfErr result (λ left. (spot_offset view (T.part t.old) spot.at spot.past + left
        ≡ element_count view (T.part t.old)) × (left < n)) }
    ensures kept { t.new ≡ t.old }
    ensures cost { steps.new ≤ steps.old + 2 * scalars_in (T.part t.old) }
    ensures near { steps.new ≤ steps.old + 2 * (spot.past + n) }
    ensures own { is_own view (T.part t.old).storage ≡ true → steps.new ≡ steps.old }
    ensures unread { T.marked_ascii t.old ≡ true → steps.new ≡ steps.old }
{
    let (_low, high) = bounds(t);
    if !is_own(view, t.encoding()) {
        return forward_across(t, view, spot, n, steps);
    }
    let left = high - spot.at;
    if n > left {
        return Err(left);
    }
    Ok(Spot {
        at: spot.at + n,
        past: 0,
    })
}

/// The element `n` elements back, where the elements aren't the storage's code units.
fn back_across<T: Text, L: Ledger>(
    t: &mut T,
    view: ElementKind,
    spot: Spot,
    n: u64,
    steps: &mut Steps<L>,
) -> Option<Spot>
    requires across { is_own view (T.part t.old).storage ≡ false }
    requires spot { IsSpot view (T.part t.old) spot.at spot.past }
    ensures spot { IfSome result (λ s. IsSpot view (T.part t.old) s.at s.past) }
    ensures moved { IfSome result (λ s. spot_offset view (T.part t.old) s.at s.past + n
        ≡ spot_offset view (T.part t.old) spot.at spot.past) }
    ensures cause { result ≡ None ↔ (spot_offset view (T.part t.old) spot.at spot.past < n) }
    ensures kept { t.new ≡ t.old }
    ensures cost { steps.new ≤ steps.old + 4 * scalars_in (T.part t.old) }
    ensures near { steps.new ≤ steps.old + 4 * n }
    ensures scalars { view ≡ Scalars → steps.new ≤ steps.old + 2 * n }
    ensures unread { T.marked_ascii t.old ≡ true → steps.new ≡ steps.old }
{
    let (low, _high) = bounds(t);
    if n <= spot.past {
        return Some(Spot {
            at: spot.at,
            past: spot.past - n,
        });
    }
    match walk_back(t, view, spot.at, low, n - spot.past, steps) {
        Some((at, past)) => Some(Spot { at, past }),
        None => None,
    }
}

/// The element `n` elements back; none where that is before the text.
///
/// Where the text is marked ASCII, or the elements are the storage's code units, no word is read; else at most four a scalar,
/// and two where the elements are scalars, in one pass.
pub(crate) fn back<T: Text, L: Ledger>(
    t: &mut T,
    view: ElementKind,
    spot: Spot,
    n: u64,
    steps: &mut Steps<L>,
) -> Option<Spot>
    requires spot { IsSpot view (T.part t.old) spot.at spot.past }
    ensures spot { IfSome result (λ s. IsSpot view (T.part t.old) s.at s.past) }
    ensures moved { IfSome result (λ s. spot_offset view (T.part t.old) s.at s.past + n
        ≡ spot_offset view (T.part t.old) spot.at spot.past) }
    ensures cause { result ≡ None ↔ (spot_offset view (T.part t.old) spot.at spot.past < n) }
    ensures kept { t.new ≡ t.old }
    ensures cost { steps.new ≤ steps.old + 4 * scalars_in (T.part t.old) }
    ensures near { steps.new ≤ steps.old + 4 * n }
    ensures scalars { view ≡ Scalars → steps.new ≤ steps.old + 2 * n }
    ensures unread { T.marked_ascii t.old ≡ true → steps.new ≡ steps.old }
{
    let (low, _high) = bounds(t);
    if !is_own(view, t.encoding()) {
        return back_across(t, view, spot, n, steps);
    }
    if n > spot.at - low {
        return None;
    }
    Some(Spot {
        at: spot.at - n,
        past: 0,
    })
}

/// The element `n` elements on, or back where `n` is negative; none where that is outside the text.
pub(crate) fn turn<T: Text, L: Ledger>(
    t: &mut T,
    view: ElementKind,
    spot: Spot,
    n: i64,
    steps: &mut Steps<L>,
) -> Option<Spot>
    requires spot { IsSpot view (T.part t.old) spot.at spot.past }
    ensures spot { IfSome result (λ s. IsSpot view (T.part t.old) s.at s.past) }
    ensures moved { IfSome result (λ s. pos (spot_offset view (T.part t.old) spot.at spot.past) +ℤ n
        ≡ pos (spot_offset view (T.part t.old) s.at s.past)) }
    ensures cause { result ≡ None ↔ (((pos (spot_offset view (T.part t.old) spot.at spot.past) +ℤ n) <ℤ pos 0)
        ⊎ (pos (element_count view (T.part t.old))
        <ℤ (pos (spot_offset view (T.part t.old) spot.at spot.past) +ℤ n))) }
    ensures kept { t.new ≡ t.old }
    ensures cost { steps.new ≤ steps.old + 4 * scalars_in (T.part t.old) }
    ensures near { steps.new ≤ steps.old + 4 * unsigned_abs n + 6 }
    ensures unread { T.marked_ascii t.old ≡ true → steps.new ≡ steps.old }
{
    let (_low, _high) = bounds(t);
    if n < 0 {
        return back(t, view, spot, n.unsigned_abs(), steps);
    }
    match forward(t, view, spot, n.unsigned_abs(), steps) {
        Ok(there) => Some(there),
        Err(_) => None,
    }
}

/// How many elements lie from one element to another: below 0 where `to` is before `from`.
///
/// Where the text is marked ASCII, or the elements are the storage's code units, no word is read; else at most two a scalar, in one
/// pass from the earlier of the two.
pub(crate) fn apart<T: Text, L: Ledger>(
    t: &mut T,
    view: ElementKind,
    from: Spot,
    to: Spot,
    steps: &mut Steps<L>,
) -> i64
    requires from { IsSpot view (T.part t.old) from.at from.past }
    requires to { IsSpot view (T.part t.old) to.at to.past }
    ensures value { pos (spot_offset view (T.part t.old) from.at from.past) +ℤ result
        ≡ pos (spot_offset view (T.part t.old) to.at to.past) }
    ensures kept { t.new ≡ t.old }
    ensures cost { steps.new ≤ steps.old + 2 * scalars_in (T.part t.old) }
    ensures unread { T.marked_ascii t.old ≡ true → steps.new ≡ steps.old }
{
    let (_low, _high) = bounds(t);
    if is_own(view, t.encoding()) {
        return signed_gap(from.at, to.at);
    }
    if from.at <= to.at {
        let between = elements_between(t, view, from.at, to.at, steps);
        return signed_gap(from.past, between + to.past);
    }
    let between = elements_between(t, view, to.at, from.at, steps);
    signed_gap(between + from.past, to.past)
}

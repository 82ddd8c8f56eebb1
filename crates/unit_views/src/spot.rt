//! An element of a view as a place in the storage: what an index is rounded down to, and its index.
ghost use Rattle.std.specs.Prelude.{◌≡◌, ◌+◌, ◌*◌, ◌<◌, ◌≤◌, true, false, Some, IfOk, IfErr, length};
ghost use Rattle.text_spec.specs.Rounding.{Place};
ghost use Rattle.word_units.specs.Parts.{high_of};
ghost use Rattle.rounding.specs.Resolving.{IsResolved, reads_other, index_place, index_at};
ghost use Rattle.rounding.specs.Elements.{leaves_text};
ghost use Rattle.rounding.specs.Refusals.{IsOutOfRange};
ghost use Rattle.unit_views.specs.declared.kind.ElementKind.TheVariants.{Scalars};
ghost use Rattle.unit_views.specs.Elements.{is_own, element_offset, element_index, floor_of, elements_of};
ghost use Rattle.unit_views.specs.Spots.{IsSpot, spot_offset};

use crate::kind::{ElementKind, is_own};
use index_words::Index;
use rounding::{bounds, index_from, resolve, scalar_floor, utf8_floor, utf16_floor};
use std::sync::ledger::Ledger;
use text_spec::Encoding;
use word_units::{OutOfBounds, Steps, Text, boundary_at_or_before};

/// An element of a view, or a text's end: `past` elements into the scalar at the boundary `at`, in code units of the storage.
/// Where the elements are the storage's code units, `at` is the element's and `past` 0.
#[derive(Clone, Copy, Debug)]
pub struct Spot {
    /// A position in code units of the storage.
    pub at: u64,
    /// How many elements lie between it and this one: 0 to 3.
    pub past: u64,
}

/// The element that a resolved index is rounded down to, as a place.
fn floor_spot<T: Text, L: Ledger>(
    t: &mut T,
    view: ElementKind,
    i: Index,
    steps: &mut Steps<L>,
) -> Spot
    requires { IsResolved (T.part t.old) i }
    ensures place { ◌≡◌ {A = Place} (result.at, result.past) (floor_of view (T.part t.old) (index_place i)) }
    ensures kept { t.new ≡ t.old }
    ensures cost { steps.new ≤ steps.old + 4 }
    ensures scalars { view ≡ Scalars → steps.new ≤ steps.old + 2 }
    ensures unread { T.marked_ascii t.old ≡ true → steps.new ≡ steps.old }
{
    let (_low, _high) = bounds(t);
    if t.ascii() {
        return Spot {
            at: i.position(),
            past: 0,
        };
    }
    let floor = match view {
        ElementKind::Scalars => scalar_floor(t, i, steps),
        ElementKind::Units(Encoding::Utf8) => utf8_floor(t, i, steps),
        ElementKind::Units(Encoding::Utf16) => utf16_floor(t, i, steps),
    };
    Spot {
        at: floor.position(),
        past: floor.transcoded() as u64,
    }
}

/// The element that an index is rounded down to, as a place.
///
/// Refused exactly where `resolve` refuses the index, with its numbers.
pub fn spot_of<T: Text, L: Ledger>(
    t: &mut T,
    view: ElementKind,
    i: Index,
    steps: &mut Steps<L>,
) -> Result<Spot, OutOfBounds>
    ensures offset { IfOk result (λ s. element_offset view (T.part t.old) i
        ≡ Some (spot_offset view (T.part t.old) s.at s.past)) }
    ensures spot { IfOk result (λ s. IsSpot view (T.part t.old) s.at s.past) }
    ensures refused { IfErr result (IsOutOfRange (T.part t.old) i) }
    ensures kept { t.new ≡ t.old }
    ensures cost { steps.new ≤ steps.old + 2 * length (T.part t.old).whole + 4 }
    ensures near { reads_other (T.part t.old).storage i ≡ false → steps.new ≤ steps.old + 4 }
    ensures scalars { view ≡ Scalars → reads_other (T.part t.old).storage i ≡ false → steps.new ≤ steps.old + 2 }
    ensures unread { T.marked_ascii t.old ≡ true → steps.new ≡ steps.old }
{
    let (_low, _high) = bounds(t);
    let index = resolve(t, i, steps)?;
    Ok(floor_spot(t, view, index, steps))
}

/// The index of a code unit of the storage, or of the text's end: scalar aligned where a scalar begins there.
fn unit_index<T: Text, L: Ledger>(t: &mut T, at: u64, steps: &mut Steps<L>) -> Index
    requires inside { at ≤ high_of (T.part t.old) }
    ensures index { result ≡ index_at (T.part t.old) (at, 0) }
    ensures kept { t.new ≡ t.old }
    ensures cost { steps.new ≤ steps.old + 2 }
    ensures unread { T.marked_ascii t.old ≡ true → steps.new ≡ steps.old }
{
    let (_low, _high) = bounds(t);
    let encoding = t.encoding();
    if t.ascii() {
        return index_from(encoding, at, 0);
    }
    let boundary = boundary_at_or_before(t, at, steps);
    if boundary == at {
        return index_from(encoding, at, 0);
    }
    Index::new(at, 0, encoding)
}

/// The index of an element, marked for the storage's encoding alone; scalar aligned where it begins a scalar.
pub fn index_of<T: Text, L: Ledger>(
    t: &mut T,
    view: ElementKind,
    spot: Spot,
    steps: &mut Steps<L>,
) -> Index
    requires { IsSpot view (T.part t.old) spot.at spot.past }
    ensures index { result ≡ element_index view (T.part t.old)
        (spot_offset view (T.part t.old) spot.at spot.past) }
    ensures kept { t.new ≡ t.old }
    ensures cost { steps.new ≤ steps.old + 2 }
    ensures across { is_own view (T.part t.old).storage ≡ false → steps.new ≡ steps.old }
    ensures unread { T.marked_ascii t.old ≡ true → steps.new ≡ steps.old }
{
    let encoding = t.encoding();
    if is_own(view, encoding) {
        return unit_index(t, spot.at, steps);
    }
    index_from(encoding, spot.at, spot.past as u32)
}

/// What a walk from an element that leaves the text is refused with.
pub fn leaving<T: Text>(t: &T, view: ElementKind, spot: Spot) -> OutOfBounds
    requires { IsSpot view (T.part t.now) spot.at spot.past }
    ensures { result ≡ leaves_text (elements_of view (T.part t.now))
        (spot_offset view (T.part t.now) spot.at spot.past) }
{
    OutOfBounds {
        position: spot.at,
        low: t.low(),
        high: t.high(),
    }
}

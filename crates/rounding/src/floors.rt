//! Resolved indices rounded down to an element of a view.
ghost use Rattle.std.specs.Prelude.{◌≡◌, ◌+◌, ◌≤◌};
ghost use Rattle.text_spec.specs.Rounding as rounding;
ghost use Rattle.text_spec.specs.declared.encoding.Encoding.TheVariants.{Utf8, Utf16};
ghost use Rattle.text_spec.specs.Views.{width_in};
ghost use Rattle.rounding.specs.Resolving.{IsResolved, IsFloor, index_place, index_at, floor_across, floor_in};

use crate::place::{bounds, index_from};
use index_words::Index;
use std::sync::ledger::Ledger;
use text_spec::Encoding;
use word_units::{Steps, Text, boundary_at_or_before, pass_scalar};

/// The greatest scalar boundary that isn't after the index, in code units of the storage.
fn boundary_before<T: Text, L: Ledger>(t: &mut T, i: Index, steps: &mut Steps<L>) -> u64
    requires { IsResolved (T.part t.old) i }
    ensures floor { IsFloor (T.part t.old) i result }
    ensures kept { t.new ≡ t.old }
    ensures cost { steps.new ≤ steps.old + 2 }
{
    let (_low, _high) = bounds(t);
    boundary_at_or_before(t, i.position(), steps)
}

/// The greatest scalar boundary that isn't after the index.
///
/// `i` is marked for the storage's encoding alone and in range, as `resolve` answers it. At most two words are read.
pub fn scalar_floor<T: Text, L: Ledger>(t: &mut T, i: Index, steps: &mut Steps<L>) -> Index
    requires { IsResolved (T.part t.old) i }
    ensures floor { result ≡ index_at (T.part t.old) (rounding.scalar_floor (width_in (T.part t.old).storage) (T.part t.old).whole (index_place i)) }
    ensures kept { t.new ≡ t.old }
    ensures cost { steps.new ≤ steps.old + 2 }
{
    let encoding = t.encoding();
    let at = boundary_before(t, i, steps);
    index_from(encoding, at, 0)
}

/// The floor among the storage's own code units: the position stays, and the transcoded offset is dropped.
fn unit_floor<T: Text, L: Ledger>(t: &mut T, i: Index, steps: &mut Steps<L>) -> Index
    requires { IsResolved (T.part t.old) i }
    ensures floor { result ≡ index_at (T.part t.old) (rounding.unit_floor (index_place i)) }
    ensures kept { t.new ≡ t.old }
    ensures cost { steps.new ≤ steps.old + 2 }
{
    let encoding = t.encoding();
    let position = i.position();
    let at = boundary_before(t, i, steps);
    if at == position {
        return index_from(encoding, at, 0);
    }
    Index::new(position, 0, encoding)
}

/// The floor among the code units of the encoding that isn't the storage's.
fn other_floor<T: Text, L: Ledger>(t: &mut T, i: Index, steps: &mut Steps<L>) -> Index
    requires { IsResolved (T.part t.old) i }
    ensures floor { result ≡ index_at (T.part t.old) (floor_across (T.part t.old) (index_place i)) }
    ensures kept { t.new ≡ t.old }
    ensures cost { steps.new ≤ steps.old + 4 }
{
    let (_, high) = bounds(t);
    let encoding = t.encoding();
    let position = i.position();
    let at = boundary_before(t, i, steps);
    if at < position {
        return index_from(encoding, at, 0);
    }
    if at == high {
        return index_from(encoding, at, 0);
    }
    let (_, units) = pass_scalar(t, at, steps);
    let past = i.transcoded();
    if (past as u64) < units {
        return index_from(encoding, at, past);
    }
    index_from(encoding, at, 0)
}

/// The floor in the view of UTF-16: in UTF-8 storage a trailing surrogate is kept where a scalar of two units begins.
///
/// `i` is marked for the storage's encoding alone and in range, as `resolve` answers it. At most four words are read.
pub fn utf16_floor<T: Text, L: Ledger>(t: &mut T, i: Index, steps: &mut Steps<L>) -> Index
    requires { IsResolved (T.part t.old) i }
    ensures floor { result ≡ index_at (T.part t.old) (floor_in Utf16 (T.part t.old) (index_place i)) }
    ensures kept { t.new ≡ t.old }
    ensures cost { steps.new ≤ steps.old + 4 }
{
    match t.encoding() {
        Encoding::Utf8 => other_floor(t, i, steps),
        Encoding::Utf16 => unit_floor(t, i, steps),
    }
}

/// The floor in the view of UTF-8: in UTF-16 storage byte t is kept where a scalar of more than t bytes begins.
///
/// `i` is marked for the storage's encoding alone and in range, as `resolve` answers it. At most four words are read.
pub fn utf8_floor<T: Text, L: Ledger>(t: &mut T, i: Index, steps: &mut Steps<L>) -> Index
    requires { IsResolved (T.part t.old) i }
    ensures floor { result ≡ index_at (T.part t.old) (floor_in Utf8 (T.part t.old) (index_place i)) }
    ensures kept { t.new ≡ t.old }
    ensures cost { steps.new ≤ steps.old + 4 }
{
    match t.encoding() {
        Encoding::Utf8 => unit_floor(t, i, steps),
        Encoding::Utf16 => other_floor(t, i, steps),
    }
}

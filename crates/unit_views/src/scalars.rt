//! A text as Unicode scalars (The Unicode Standard, section 3.9, D76).
//!
//! A call reads an index as `rounding::resolve` does, rounds it down to an element, and goes on from there. It refuses what `resolve`
//! refuses, with its numbers, and nothing else but what its own line names: a walk that would leave the text, with the place where it
//! begins and the text's bounds. Resolving reads two words for each scalar of the storage where the index is an offset in the other
//! encoding and the text isn't marked ASCII, and none elsewhere; the words that a call's line tells are those beside it. A text that is
//! marked ASCII is read for its elements alone.
ghost use Rattle.std.specs.Prelude.{◌-◌, ◌≡◌, ◌*◌, ◌+◌, ◌<◌, ◌≤◌, true, false, IfOk, IfErr, length};
ghost use Rattle.std.specs.Int.RustNames.{unsigned_abs};
ghost use Rattle.word_units.specs.Parts.{scalars_in};
ghost use Rattle.rounding.specs.Resolving.{reads_other};
ghost use Rattle.rounding.specs.Elements.{IsElement, IsAfter, IsBefore, IsMoved, IsDistance, IsStopped, IsMoveOut};
ghost use Rattle.rounding.specs.Refusals.{IsEitherOut};
ghost use Rattle.unit_views.specs.declared.kind.ElementKind.TheVariants.{Scalars};
ghost use Rattle.unit_views.specs.Elements.{element_count, element_index, elements_of};

use crate::calls;
use crate::kind::ElementKind;
use crate::spot::{leaving, spot_of};
use index_words::Index;
use rounding::bounds;
use std::sync::ledger::Ledger;
use word_units::{OutOfBounds, Steps, Text, scalar_at};

/// The index of the first scalar, or of the end where there is none. No word is read.
pub fn start<T: Text>(t: &T) -> Index
    ensures { result ≡ element_index Scalars (T.part t.now) 0 }
{
    calls::start(t, ElementKind::Scalars)
}

/// The index past the last scalar. No word is read.
pub fn end<T: Text>(t: &T) -> Index
    ensures { result ≡ element_index Scalars (T.part t.now) (element_count Scalars (T.part t.now)) }
{
    calls::end(t, ElementKind::Scalars)
}

/// The number of scalars. At most two words a scalar are read, in one pass.
pub fn count<T: Text, L: Ledger>(t: &mut T, steps: &mut Steps<L>) -> u64
    ensures value { result ≡ element_count Scalars (T.part t.old) }
    ensures kept { t.new ≡ t.old }
    ensures cost { steps.new ≤ steps.old + 2 * scalars_in (T.part t.old) }
    ensures unread { T.marked_ascii t.old ≡ true → steps.new ≡ steps.old }
{
    calls::count(t, ElementKind::Scalars, steps)
}

/// The scalar that an index is rounded down to. Refused at the end. At most four words are read.
pub fn element<T: Text, L: Ledger>(
    t: &mut T,
    i: Index,
    steps: &mut Steps<L>,
) -> Result<char, OutOfBounds>
    ensures element { IfOk result (IsElement (elements_of Scalars (T.part t.old)) i) }
    ensures refused { IfErr result (IsStopped (elements_of Scalars (T.part t.old)) i (element_count Scalars (T.part t.old))) }
    ensures kept { t.new ≡ t.old }
    ensures cost { steps.new ≤ steps.old + 2 * length (T.part t.old).whole + 6 }
    ensures near { reads_other (T.part t.old).storage i ≡ false → steps.new ≤ steps.old + 4 }
{
    let (_low, high) = bounds(t);
    let spot = spot_of(t, ElementKind::Scalars, i, steps)?;
    if spot.at == high {
        return Err(leaving(t, ElementKind::Scalars, spot));
    }
    let (scalar, _width) = scalar_at(t, spot.at, steps);
    Ok(scalar)
}

/// The index of the scalar after the one that an index is rounded down to, or of the end. Refused at the end. At most four words are read.
pub fn after<T: Text, L: Ledger>(
    t: &mut T,
    i: Index,
    steps: &mut Steps<L>,
) -> Result<Index, OutOfBounds>
    ensures next { IfOk result (IsAfter (elements_of Scalars (T.part t.old)) i) }
    ensures refused { IfErr result (IsStopped (elements_of Scalars (T.part t.old)) i (element_count Scalars (T.part t.old))) }
    ensures kept { t.new ≡ t.old }
    ensures cost { steps.new ≤ steps.old + 2 * length (T.part t.old).whole + 14 }
    ensures near { reads_other (T.part t.old).storage i ≡ false → steps.new ≤ steps.old + 4 }
    ensures unread { T.marked_ascii t.old ≡ true → steps.new ≡ steps.old }
{
    calls::after(t, ElementKind::Scalars, i, steps)
}

/// The index of the scalar before the one that an index is rounded down to. Refused at the start. At most four words are read.
pub fn before<T: Text, L: Ledger>(
    t: &mut T,
    i: Index,
    steps: &mut Steps<L>,
) -> Result<Index, OutOfBounds>
    ensures previous { IfOk result (IsBefore (elements_of Scalars (T.part t.old)) i) }
    ensures refused { IfErr result (IsStopped (elements_of Scalars (T.part t.old)) i 0) }
    ensures kept { t.new ≡ t.old }
    ensures cost { steps.new ≤ steps.old + 2 * length (T.part t.old).whole + 10 }
    ensures near { reads_other (T.part t.old).storage i ≡ false → steps.new ≤ steps.old + 4 }
    ensures unread { T.marked_ascii t.old ≡ true → steps.new ≡ steps.old }
{
    calls::before(t, ElementKind::Scalars, i, steps)
}

/// The index of the scalar `n` scalars after the one that an index is rounded down to, or before it where `n` is negative.
///
/// Refused where that is before the first scalar or past the end. One pass from the index, at most four words a scalar, and six.
pub fn offset_by<T: Text, L: Ledger>(
    t: &mut T,
    i: Index,
    n: i64,
    steps: &mut Steps<L>,
) -> Result<Index, OutOfBounds>
    ensures there { IfOk result (IsMoved (elements_of Scalars (T.part t.old)) i n) }
    ensures refused { IfErr result (IsMoveOut (elements_of Scalars (T.part t.old)) i n) }
    ensures kept { t.new ≡ t.old }
    ensures cost { steps.new ≤ steps.old + 2 * length (T.part t.old).whole + 4 * scalars_in (T.part t.old) + 6 }
    ensures pass { reads_other (T.part t.old).storage i ≡ false → steps.new ≤ steps.old + 4 * scalars_in (T.part t.old) + 6 }
    ensures near { reads_other (T.part t.old).storage i ≡ false → steps.new ≤ steps.old + 4 * unsigned_abs n + 12 }
    ensures unread { T.marked_ascii t.old ≡ true → steps.new ≡ steps.old }
{
    calls::offset_by(t, ElementKind::Scalars, i, n, steps)
}

/// How many scalars lie from the one that an index is rounded down to, to another: below 0 where that is before it.
///
/// The first index is refused before the second. One pass from the earlier of the two, at most two words a scalar.
pub fn distance<T: Text, L: Ledger>(
    t: &mut T,
    from: Index,
    to: Index,
    steps: &mut Steps<L>,
) -> Result<i64, OutOfBounds>
    ensures scalars { IfOk result (IsDistance (elements_of Scalars (T.part t.old)) from to) }
    ensures refused { IfErr result (IsEitherOut (T.part t.old) from to) }
    ensures kept { t.new ≡ t.old }
    ensures cost { steps.new ≤ steps.old + 4 * length (T.part t.old).whole + 2 * scalars_in (T.part t.old) + 8 }
    ensures near { reads_other (T.part t.old).storage from ≡ false → reads_other (T.part t.old).storage to ≡ false
        → steps.new ≤ steps.old + 2 * scalars_in (T.part t.old) + 8 }
    ensures unread { T.marked_ascii t.old ≡ true → steps.new ≡ steps.old }
{
    calls::distance(t, ElementKind::Scalars, from, to, steps)
}

//! Walks onwards between scalar boundaries that count elements.
ghost use Rattle.std.specs.Prelude.{◌≡◌, ◌+◌, ◌*◌, ◌<◌, ◌≤◌, ◌^◌, true, false};
ghost use Rattle.text_spec.specs.Offsets.{start};
ghost use Rattle.text_spec.specs.Views.{width_in};
ghost use Rattle.word_units.specs.Parts.{storage_size, IsBoundaryIn, scalars_before};
ghost use Rattle.unit_views.specs.Elements.{is_own, view_width};
ghost use Rattle.unit_views.specs.Spots.{Walked};

use crate::kind::ElementKind;
use crate::steps::pass_elements;
use std::sync::ledger::Ledger;
use word_units::{Steps, Text};

/// The last scalar boundary that has at most `room` elements between it and `from`, and how many those are.
///
/// It isn't after `to`. `from` and `to` are scalar boundaries, in code units of the storage, and the elements aren't the storage's
/// code units. Where the text is marked ASCII no word is read; else at most two a scalar, in one pass.
pub fn walk_on<T: Text, L: Ledger>(
    t: &mut T,
    view: ElementKind,
    from: u64,
    to: u64,
    room: u64,
    steps: &mut Steps<L>,
) -> (u64, u64)
    requires across { is_own view (T.part t.old).storage ≡ false }
    requires order { from ≤ to }
    requires inside { to ≤ storage_size (T.part t.old) }
    requires begun { IsBoundaryIn (T.part t.old) from }
    requires ends { IsBoundaryIn (T.part t.old) to }
    ensures walked { Walked (width_in (T.part t.old).storage) (view_width view) (T.part t.old).whole from to room result.0 result.1 }
    ensures kept { t.new ≡ t.old }
    ensures pass { steps.new + 2 * scalars_before (T.part t.old) from
        ≤ steps.old + 2 * scalars_before (T.part t.old) to }
    ensures near { steps.new ≤ steps.old + 2 * room }
    ensures unread { T.marked_ascii t.old ≡ true → steps.new ≡ steps.old }
{
    let _count = t.count();
    if t.ascii() {
        let at = if room < to - from { from + room } else { to };
        return (at, at - from);
    }
    let mut at = from;
    let mut reached = 0;
    'elements: while at < to {
        if reached == room {
            return (at, reached);
        }
        let (next, more) = pass_elements(t, view, at, to, room - reached, steps);
        if room - reached < more {
            return (at, reached);
        }
        at = next;
        reached += more;
    }
    (at, reached)
}

/// How many elements lie between two scalar boundaries, of which `from` isn't after `to`; the elements aren't the storage's code units.
///
/// Where the text is marked ASCII no word is read; else at most two a scalar, in one pass.
pub(crate) fn elements_between<T: Text, L: Ledger>(
    t: &mut T,
    view: ElementKind,
    from: u64,
    to: u64,
    steps: &mut Steps<L>,
) -> u64
    requires across { is_own view (T.part t.old).storage ≡ false }
    requires order { from ≤ to }
    requires inside { to ≤ storage_size (T.part t.old) }
    requires begun { IsBoundaryIn (T.part t.old) from }
    requires ends { IsBoundaryIn (T.part t.old) to }
    ensures value { start (view_width view) (T.part t.old).whole (scalars_before (T.part t.old) from) + result
        ≡ start (view_width view) (T.part t.old).whole (scalars_before (T.part t.old) to) }
    ensures small { result < 2 ^ 51 }
    ensures kept { t.new ≡ t.old }
    ensures pass { steps.new + 2 * scalars_before (T.part t.old) from
        ≤ steps.old + 2 * scalars_before (T.part t.old) to }
    ensures unread { T.marked_ascii t.old ≡ true → steps.new ≡ steps.old }
{
    let _count = t.count();
    let (_at, reached) = walk_on(t, view, from, to, u64::MAX, steps);
    reached
}

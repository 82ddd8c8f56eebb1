//! One scalar on, or one back, and how many elements it has.
ghost use Rattle.std.specs.Prelude.{◌≡◌, ◌+◌, ◌<◌, ◌≤◌, false};
ghost use Rattle.text_spec.specs.Views.{width_in};
ghost use Rattle.word_units.specs.Parts.{storage_size, IsBoundaryIn};
ghost use Rattle.unit_views.specs.declared.kind.ElementKind.TheVariants.{Scalars};
ghost use Rattle.unit_views.specs.Elements.{is_own, view_width};
ghost use Rattle.unit_views.specs.Spots.{Passing, Backing};

use crate::kind::ElementKind;
use std::sync::ledger::Ledger;
use word_units::{Steps, Text, boundary_at_or_before, pass_run, pass_scalar};

/// How much may be passed at once: no more than lies before `to`, and no more than there is room for.
fn run_limit(at: u64, to: u64, room: u64) -> u64
    requires { at < to }
    ensures ends { at + result ≤ to }
    ensures fits { result ≤ room }
{
    if room < to - at { room } else { to - at }
}

/// Where what is passed from the boundary `at` on ends, and how many elements that is: a scalar's, or those of several of one word
/// that end no later than `to` and for which there is room. At most two words are read.
pub(crate) fn pass_elements<T: Text, L: Ledger>(
    t: &mut T,
    view: ElementKind,
    at: u64,
    to: u64,
    room: u64,
    steps: &mut Steps<L>,
) -> (u64, u64)
    requires across { is_own view (T.part t.old).storage ≡ false }
    requires order { at < to }
    requires inside { to ≤ storage_size (T.part t.old) }
    requires begun { IsBoundaryIn (T.part t.old) at }
    requires ends { IsBoundaryIn (T.part t.old) to }
    ensures passes { Passing (width_in (T.part t.old).storage) (view_width view) (T.part t.old).whole at to room result.0 result.1 }
    ensures kept { t.new ≡ t.old }
    ensures cost { steps.new ≤ steps.old + 2 }
{
    let (next, units, scalars) = pass_run(t, at, run_limit(at, to, room), steps);
    match view {
        ElementKind::Scalars => (next, scalars),
        ElementKind::Units(_) => (next, units),
    }
}

/// Where the scalar before the boundary `at` begins, and how many elements it has.
///
/// At most four words are read, and at most two where the elements are scalars.
pub(crate) fn back_elements<T: Text, L: Ledger>(
    t: &mut T,
    view: ElementKind,
    at: u64,
    to: u64,
    steps: &mut Steps<L>,
) -> (u64, u64)
    requires across { is_own view (T.part t.old).storage ≡ false }
    requires order { to < at }
    requires inside { at ≤ storage_size (T.part t.old) }
    requires begun { IsBoundaryIn (T.part t.old) at }
    requires ends { IsBoundaryIn (T.part t.old) to }
    ensures backs { Backing (width_in (T.part t.old).storage) (view_width view) (T.part t.old).whole at to result.0 result.1 }
    ensures kept { t.new ≡ t.old }
    ensures cost { steps.new ≤ steps.old + 4 }
    ensures scalars { view ≡ Scalars → steps.new ≤ steps.old + 2 }
{
    let previous = boundary_at_or_before(t, at - 1, steps);
    match view {
        ElementKind::Scalars => (previous, 1),
        ElementKind::Units(_) => {
            let (_next, units) = pass_scalar(t, previous, steps);
            (previous, units)
        }
    }
}

//! Walks back between scalar boundaries that count elements.
ghost use Rattle.std.specs.Prelude.{◌≡◌, ◌+◌, ◌*◌, ◌<◌, ◌≤◌, ◌↔◌, true, false, None, IfSome};
ghost use Rattle.text_spec.specs.Offsets.{start};
ghost use Rattle.text_spec.specs.Views.{width_in};
ghost use Rattle.word_units.specs.Parts.{storage_size, IsBoundaryIn, scalars_before};
ghost use Rattle.unit_views.specs.declared.kind.ElementKind.TheVariants.{Scalars};
ghost use Rattle.unit_views.specs.Elements.{is_own, view_width};
ghost use Rattle.unit_views.specs.Spots.{WalkedBack};

use crate::kind::ElementKind;
use crate::steps::back_elements;
use std::sync::ledger::Ledger;
use word_units::{Steps, Text};

/// The place `room` elements before `from`: the boundary of its scalar, and how many elements of it lie before. None where that is before `to`.
///
/// `from` and `to` are scalar boundaries, in code units of the storage, and the elements aren't the storage's code units.
/// Where the text is marked ASCII no word is read; else at most four a scalar, and two where the elements are scalars, in one pass.
pub(crate) fn walk_back<T: Text, L: Ledger>(
    t: &mut T,
    view: ElementKind,
    from: u64,
    to: u64,
    room: u64,
    steps: &mut Steps<L>,
) -> Option<(u64, u64)>
    requires across { is_own view (T.part t.old).storage ≡ false }
    requires order { to ≤ from }
    requires inside { from ≤ storage_size (T.part t.old) }
    requires begun { IsBoundaryIn (T.part t.old) from }
    requires ends { IsBoundaryIn (T.part t.old) to }
    ensures walked { IfSome result (λ place. WalkedBack (width_in (T.part t.old).storage) (view_width view) (T.part t.old).whole from to room place.0 place.1) }
    ensures cause { result ≡ None ↔ (start (view_width view) (T.part t.old).whole (scalars_before (T.part t.old) from)
        < start (view_width view) (T.part t.old).whole (scalars_before (T.part t.old) to) + room) }
    ensures kept { t.new ≡ t.old }
    ensures pass { steps.new + 4 * scalars_before (T.part t.old) to
        ≤ steps.old + 4 * scalars_before (T.part t.old) from }
    ensures near { steps.new ≤ steps.old + 4 * room }
    ensures scalars { view ≡ Scalars → steps.new ≤ steps.old + 2 * room }
    ensures unread { T.marked_ascii t.old ≡ true → steps.new ≡ steps.old }
{
    let _count = t.count();
    if t.ascii() {
        return if room > from - to {
            None
        } else {
            Some((from - room, 0))
        };
    }
    let mut at = from;
    let mut reached = 0;
    'elements: while reached < room {
        if at == to {
            return None;
        }
        let (previous, more) = back_elements(t, view, at, to, steps);
        at = previous;
        reached += more;
    }
    Some((at, reached - room))
}

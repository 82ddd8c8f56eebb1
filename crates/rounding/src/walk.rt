//! Walks over scalars, a word at once, that count the units of both encodings.
ghost use Rattle.std.specs.Prelude.{◌≡◌, ◌+◌, ◌*◌, ◌<◌, ◌≤◌, ◌⊎◌, suc};
ghost use Rattle.text_spec.specs.Offsets.{start};
ghost use Rattle.text_spec.specs.Views.{other_width};
ghost use Rattle.word_units.specs.Parts.{storage_size, IsBoundaryIn, scalars_before};
ghost use Rattle.rounding.specs.Resolving.{Reaches};

use std::sync::ledger::Ledger;
use word_units::{Steps, Text, pass_run};

/// How many units of the other encoding lie before `to`, of which `units` lie before `from`.
///
/// Both are scalar boundaries, in code units of the storage. At most two words a scalar between them are read.
pub fn units_before<T: Text, L: Ledger>(
    t: &mut T,
    from: u64,
    units: u64,
    to: u64,
    steps: &mut Steps<L>,
) -> u64
    requires begun { Reaches (T.part t.old) from units }
    requires order { from ≤ to }
    requires inside { to ≤ storage_size (T.part t.old) }
    requires boundary { IsBoundaryIn (T.part t.old) to }
    ensures units { Reaches (T.part t.old) to result }
    ensures kept { t.new ≡ t.old }
    ensures cost { steps.new + 2 * scalars_before (T.part t.old) from ≤ steps.old + 2 * scalars_before (T.part t.old) to }
{
    let _count = t.count();
    let mut at = from;
    let mut reached = units;
    'scalars: while at < to {
        let (next, more, _scalars) = pass_run(t, at, to - at, steps);
        at = next;
        reached += more;
    }
    reached
}

/// The last scalar boundary that has at most `offset` units of the other encoding before it, and how many those are.
///
/// It isn't after `to`. The walk starts at the boundary `from`, which has `units`, at most `offset`, before it. All but
/// `offset` and `units` are in code units of the storage. At most two words a scalar are read, and those of one more.
pub fn boundary_of<T: Text, L: Ledger>(
    t: &mut T,
    from: u64,
    units: u64,
    to: u64,
    offset: u64,
    steps: &mut Steps<L>,
) -> (u64, u64)
    requires begun { Reaches (T.part t.old) from units }
    requires order { from ≤ to }
    requires inside { to ≤ storage_size (T.part t.old) }
    requires boundary { IsBoundaryIn (T.part t.old) to }
    requires before { units ≤ offset }
    ensures reached { Reaches (T.part t.old) result.0 result.1 }
    ensures ahead { from ≤ result.0 }
    ensures not_after { (result.0 ≤ to) × (result.1 ≤ offset) }
    ensures last { (result.0 ≡ to) ⊎ ((result.0 < to)
        × (offset < start (other_width (T.part t.old).storage) (T.part t.old).whole (suc (scalars_before (T.part t.old) (result.0))))) }
    ensures kept { t.new ≡ t.old }
    ensures cost { steps.new + 2 * scalars_before (T.part t.old) from
        ≤ steps.old + 2 * scalars_before (T.part t.old) to }
{
    let _count = t.count();
    let mut at = from;
    let mut reached = units;
    'scalars: while at < to {
        let most = (to - at).min(offset - reached);
        let (next, more, _scalars) = pass_run(t, at, most, steps);
        if offset - reached < more {
            return (at, reached);
        }
        at = next;
        reached += more;
    }
    (at, reached)
}

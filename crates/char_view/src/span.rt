//! Characters found by a walk from the text's start.
ghost use Rattle.std.specs.Prelude.{◌≡◌, ◌+◌, ◌-◌, ◌<◌, ◌≤◌, ◌↔◌, true, false, IsTrue};
ghost use Rattle.word_units.specs.Parts.{low_of, high_of, IsBoundaryIn};
ghost use Rattle.char_view.specs.Answers.{character_position, characters_in, offset_at};
ghost use Rattle.char_view.specs.Walks.{IsWalk, IsSpan};

use crate::walk::{Walk, begin, pass};
use std::sync::ledger::Ledger;
use word_units::{Steps, Text};

/// A Character, or the text's end: its number, where it begins and ends, and where the one before it begins, in code units of the storage.
#[derive(Clone, Copy, Debug)]
pub(crate) struct Span {
    pub(crate) number: u64,
    /// Where the Character before begins, and at the first one where that begins itself.
    pub(crate) previous: u64,
    pub(crate) from: u64,
    pub(crate) to: u64,
}

/// Passes a Character, where the walk doesn't stand at the end.
pub(crate) fn pass_any<T: Text, L: Ledger>(t: &mut T, walk: &mut Walk, steps: &mut Steps<L>)
    requires walk { IsWalk (T.part t.old) walk.old }
    ensures walk { IsWalk (T.part t.old) walk.new }
    ensures position { walk.new.at.position ≡ character_position (T.part t.old) (walk.old.number + 1) }
    ensures here { walk.old.at.position ≡ character_position (T.part t.old) walk.old.number }
    ensures order { walk.old.at.position ≤ walk.new.at.position }
    ensures number { walk.old.at.position < walk.new.at.position → walk.new.number ≡ walk.old.number + 1 }
    ensures last { walk.old.at.position ≡ walk.new.at.position → (walk.old.number ≡ characters_in (T.part t.old))
        × (walk.new.number ≡ walk.old.number) }
    ensures kept { t.new ≡ t.old }
{
    let high = t.high();
    if walk.at.position >= high {
        return;
    }
    pass(t, walk, steps);
}

/// Whether a Character that begins at `from` and ends at `to` ends at `p` or before it.
fn ends_by(from: u64, to: u64, p: u64) -> bool
    ensures { IsTrue result ↔ (from < to) × (to ≤ p) }
{
    from < to && to <= p
}

/// Whether a walk that has passed `number` Characters and stands at `at` has yet to pass one, of `wanted` in a text that ends at `high`.
fn may_pass(number: u64, wanted: u64, at: u64, high: u64) -> bool
    ensures { IsTrue result ↔ (number < wanted) × (at < high) }
{
    number < wanted && at < high
}

/// The Character that a boundary of scalars lies in, and a walk that has passed it.
///
/// `p` is a scalar boundary of the text, in code units of the storage.
pub(crate) fn span_at<T: Text, L: Ledger>(t: &mut T, p: u64, steps: &mut Steps<L>) -> (Span, Walk)
    requires boundary { IsBoundaryIn (T.part t.old) p }
    requires low { low_of (T.part t.old) ≤ p }
    requires high { p ≤ high_of (T.part t.old) }
    ensures span { IsSpan (T.part t.old) result.0 result.1 }
    ensures number { result.0.number ≡ offset_at (T.part t.old) p }
    ensures kept { t.new ≡ t.old }
{
    let mut walk = begin(t, steps);
    let mut from = walk.at.position;
    let mut previous = from;
    let mut number = 0;
    pass_any(t, &mut walk, steps);
    'characters: while ends_by(from, walk.at.position, p) {
        previous = from;
        from = walk.at.position;
        number += 1;
        pass_any(t, &mut walk, steps);
    }
    let to = walk.at.position;
    (
        Span {
            number,
            previous,
            from,
            to,
        },
        walk,
    )
}

/// Passes Characters until `number` of them are passed, or the text ends, and says whether so many were there.
pub(crate) fn pass_until<T: Text, L: Ledger>(
    t: &mut T,
    walk: &mut Walk,
    number: u64,
    steps: &mut Steps<L>,
) -> bool
    requires walk { IsWalk (T.part t.old) walk.old }
    requires before { walk.old.number ≤ number }
    ensures walk { IsWalk (T.part t.old) walk.new }
    ensures there { result ≡ true → (walk.new.number ≡ number) × (number ≤ characters_in (T.part t.old)) }
    ensures past { result ≡ false → characters_in (T.part t.old) < number }
    ensures kept { t.new ≡ t.old }
{
    let high = t.high();
    'characters: while may_pass(walk.number, number, walk.at.position, high) {
        pass(t, walk, steps);
    }
    walk.number == number
}

/// How many Characters a text has.
pub(crate) fn count_all<T: Text, L: Ledger>(t: &mut T, steps: &mut Steps<L>) -> u64
    ensures value { result ≡ characters_in (T.part t.old) }
    ensures kept { t.new ≡ t.old }
{
    let high = t.high();
    let mut walk = begin(t, steps);
    'characters: while walk.at.position < high {
        pass(t, &mut walk, steps);
    }
    walk.number
}

//! Index words of Characters, and indices rounded down to them.
ghost use Rattle.std.specs.Prelude.{◌≡◌, ◌+◌, ◌-◌, ◌<◌, ◌≤◌, ◌^◌, IfOk, IfErr, Some, ℕ, pos, ◌+ℤ◌};
ghost use Rattle.index_words.specs.Fields.{word_of};
ghost use Rattle.rounding.specs.Elements.{leaves_text};
ghost use Rattle.rounding.specs.Refusals.{IsOutOfRange};
ghost use Rattle.char_view.specs.Answers.{character_fields, character_offset, character_position, characters_of};
ghost use Rattle.char_view.specs.Walks.{IsSpan};

use crate::span::{Span, span_at};
use crate::walk::Walk;
use index_words::Index;
use index_words::laws::fields_are_read_back;
use rounding::scalar_boundary;
use std::sync::ledger::Ledger;
use text_spec::Encoding;
use word_units::{OutOfBounds, Steps, Text};

/// The index of a Character that begins at `from` and ends at `to`, both in code units of the storage, or of the text's end.
pub(crate) fn index_between(storage: Encoding, from: u64, to: u64) -> Index
    requires from_in { from < 2 ^ 48 }
    requires order { from ≤ to }
    ensures { result ≡ word_of (character_fields storage from to) }
{
    fields_are_read_back();
    let index = Index::new(from, 0, storage)
        .with_scalar_aligned()
        .with_character_aligned();
    let length = to - from;
    if length > 63 {
        return index;
    }
    index.with_stride(length as u32)
}

/// The Character that an index is rounded down to, and a walk that has passed it.
pub(crate) fn span_of<T: Text, L: Ledger>(
    t: &mut T,
    i: Index,
    steps: &mut Steps<L>,
) -> Result<(Span, Walk), OutOfBounds>
    ensures span { IfOk result (λ r. IsSpan (T.part t.old) r.0 r.1) }
    ensures offset { IfOk result (λ r. character_offset (T.part t.old) i ≡ Some r.0.number) }
    ensures refused { IfErr result (IsOutOfRange (T.part t.old) i) }
    ensures kept { t.new ≡ t.old }
{
    let at = scalar_boundary(t, i, steps)?;
    Ok(span_at(t, at, steps))
}

/// What a walk from a Character that would leave the text is refused with.
pub(crate) fn leaving<T: Text>(t: &T, from: u64) -> OutOfBounds
    ensures { (n : ℕ) → from ≡ character_position (T.part t.now) n
        → result ≡ leaves_text (characters_of (T.part t.now)) n }
{
    OutOfBounds {
        position: from,
        low: t.low(),
        high: t.high(),
    }
}

/// How far `to` is from `from`, below 0 where it is before it. Both are below 2^53.
pub(crate) fn signed_gap(from: u64, to: u64) -> i64
    requires from_in { from < 2 ^ 53 }
    requires to_in { to < 2 ^ 53 }
    ensures { pos from +ℤ result ≡ pos to }
{
    if from <= to {
        return (to - from) as i64;
    }
    -((from - to) as i64)
}

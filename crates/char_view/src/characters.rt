//! A text as Characters: extended grapheme clusters (UAX #29, section 3.1).
//!
//! An index that a call of this module answers is marked as a boundary of scalars and of Characters, and its stride is the number of
//! code units of the storage of the Character that begins there: 0 where these are more than 63, and at the text's end. Each walk
//! goes from the text's start, since what ends a Character may lie arbitrarily far before it; its cost is linear in what it passes.
//!
//! A call reads an index as `rounding::resolve` does and rounds it down to a Character. It refuses what `resolve` refuses, with its
//! numbers, and nothing else but what its own line names: a walk that would leave the text, with the place where it begins and the
//! text's bounds.
ghost use Rattle.std.specs.Prelude.{◌≡◌, ◌≢◌, ◌+◌, ◌-◌, ◌<◌, ◌≤◌, ◌⊎◌, IfOk, IfErr, IfSome, IfNone, pos, ◌+ℤ◌, ◌<ℤ◌};
ghost use Rattle.index_words.specs.Fields.{position_of, stride_of};
ghost use Rattle.rounding.specs.Elements.{IsElement, IsAfter, IsBefore, IsMoved, IsDistance, IsStopped, IsMoveOut};
ghost use Rattle.rounding.specs.Refusals.{IsOutOfRange, IsEitherOut};
ghost use Rattle.char_view.specs.Answers.{characters_in, character_index, offset_at, without_stride, IsTrueAt, IsFloorOf, characters_of};
ghost use Rattle.char_view.specs.Walks.{IsWalk, IsSpan};

use crate::indices::{index_between, leaving, signed_gap, span_of};
use crate::span::{Span, count_all, pass_any, pass_until};
use crate::walk::{Walk, begin};
use index_words::Index;
use index_words::laws::fields_are_read_back;
use std::sync::ledger::Ledger;
use word_units::{OutOfBounds, Steps, Text};

/// The index of the first Character, or of the end where there is none. The Character is read for its stride.
pub fn start<T: Text, L: Ledger>(t: &mut T, steps: &mut Steps<L>) -> Index
    ensures value { result ≡ character_index (T.part t.old) 0 }
    ensures kept { t.new ≡ t.old }
{
    let mut walk = begin(t, steps);
    let from = walk.at.position;
    pass_any(t, &mut walk, steps);
    index_between(t.encoding(), from, walk.at.position)
}

/// The index past the last Character. No word is read.
pub fn end<T: Text>(t: &T) -> Index
    ensures { result ≡ character_index (T.part t.now) (characters_in (T.part t.now)) }
{
    let _count = t.count();
    let _low = t.low();
    let high = t.high();
    index_between(t.encoding(), high, high)
}

/// The number of Characters. The text is read once.
pub fn count<T: Text, L: Ledger>(t: &mut T, steps: &mut Steps<L>) -> u64
    ensures value { result ≡ characters_in (T.part t.old) }
    ensures kept { t.new ≡ t.old }
{
    count_all(t, steps)
}

/// The index of the Character that an index is rounded down to: the greatest boundary that isn't after the index's scalar floor.
/// The text is read up to that Character's end.
pub fn floor<T: Text, L: Ledger>(
    t: &mut T,
    i: Index,
    steps: &mut Steps<L>,
) -> Result<Index, OutOfBounds>
    ensures floor { IfOk result (IsFloorOf (T.part t.old) i) }
    ensures refused { IfErr result (IsOutOfRange (T.part t.old) i) }
    ensures kept { t.new ≡ t.old }
{
    let (span, _) = span_of(t, i, steps)?;
    Ok(index_between(t.encoding(), span.from, span.to))
}

/// The bounds of the Character that an index is rounded down to: its index and that of the one after it, or of the end.
///
/// Refused at the end. The text is read up to the end of the Character after it.
pub fn element<T: Text, L: Ledger>(
    t: &mut T,
    i: Index,
    steps: &mut Steps<L>,
) -> Result<(Index, Index), OutOfBounds>
    ensures element { IfOk result (IsElement (characters_of (T.part t.old)) i) }
    ensures refused { IfErr result (IsStopped (characters_of (T.part t.old)) i (characters_in (T.part t.old))) }
    ensures kept { t.new ≡ t.old }
{
    let (span, mut walk) = span_of(t, i, steps)?;
    if span.from == span.to {
        return Err(leaving(t, span.from));
    }
    pass_any(t, &mut walk, steps);
    let storage = t.encoding();
    Ok((
        index_between(storage, span.from, span.to),
        index_between(storage, span.to, walk.at.position),
    ))
}

/// The index of the Character after the one that an index is rounded down to, or of the end.
///
/// Refused at the end. The text is read up to the end of the Character after it.
pub fn after<T: Text, L: Ledger>(
    t: &mut T,
    i: Index,
    steps: &mut Steps<L>,
) -> Result<Index, OutOfBounds>
    ensures next { IfOk result (IsAfter (characters_of (T.part t.old)) i) }
    ensures refused { IfErr result (IsStopped (characters_of (T.part t.old)) i (characters_in (T.part t.old))) }
    ensures kept { t.new ≡ t.old }
{
    let (_, next) = element(t, i, steps)?;
    Ok(next)
}

/// The index of the Character before the one that an index is rounded down to.
///
/// Refused at the start. The text is read up to the end of the Character that the index is rounded down to.
pub fn before<T: Text, L: Ledger>(
    t: &mut T,
    i: Index,
    steps: &mut Steps<L>,
) -> Result<Index, OutOfBounds>
    ensures previous { IfOk result (IsBefore (characters_of (T.part t.old)) i) }
    ensures refused { IfErr result (IsStopped (characters_of (T.part t.old)) i 0) }
    ensures kept { t.new ≡ t.old }
{
    let (span, _) = span_of(t, i, steps)?;
    if span.number == 0 {
        return Err(leaving(t, span.from));
    }
    Ok(index_between(t.encoding(), span.previous, span.from))
}

/// The index of the Character `n` Characters after the one that an index is rounded down to, or before it where `n` is negative.
///
/// Refused where that is before the first Character or past the end. Forward the text is read once, up to the end of the Character
/// found; back it is read up to the index first, and then once more from its start.
pub fn offset_by<T: Text, L: Ledger>(
    t: &mut T,
    i: Index,
    n: i64,
    steps: &mut Steps<L>,
) -> Result<Index, OutOfBounds>
    ensures there { IfOk result (IsMoved (characters_of (T.part t.old)) i n) }
    ensures refused { IfErr result (IsMoveOut (characters_of (T.part t.old)) i n) }
    ensures kept { t.new ≡ t.old }
{
    let (span, walk) = span_of(t, i, steps)?;
    match index_moved(t, span, walk, n, steps) {
        Some((_, there)) => Ok(there),
        None => Err(leaving(t, span.from)),
    }
}

/// The index of Character `number`, which the walk has yet to reach, with its number; none where there are fewer.
fn index_on<T: Text, L: Ledger>(
    t: &mut T,
    walk: Walk,
    number: u64,
    steps: &mut Steps<L>,
) -> Option<(u64, Index)>
    requires walk { IsWalk (T.part t.old) walk }
    requires before { walk.number ≤ number }
    ensures index { IfSome result (λ there. (there.0 ≡ number) × (number ≤ characters_in (T.part t.old))
        × (there.1 ≡ character_index (T.part t.old) number)) }
    ensures none { IfNone result (characters_in (T.part t.old) < number) }
    ensures kept { t.new ≡ t.old }
{
    let mut walk = walk;
    if !pass_until(t, &mut walk, number, steps) {
        return None;
    }
    let from = walk.at.position;
    pass_any(t, &mut walk, steps);
    Some((number, index_between(t.encoding(), from, walk.at.position)))
}

/// The index of the Character `by` Characters before Character `number`, by a walk from the text's start, with its number;
/// none where there are fewer.
fn index_back<T: Text, L: Ledger>(
    t: &mut T,
    number: u64,
    by: u64,
    steps: &mut Steps<L>,
) -> Option<(u64, Index)>
    requires within { number ≤ characters_in (T.part t.old) }
    ensures index { IfSome result (λ there. (there.0 + by ≡ number)
        × (there.1 ≡ character_index (T.part t.old) there.0)) }
    ensures none { IfNone result (number < by) }
    ensures kept { t.new ≡ t.old }
{
    if by > number {
        return None;
    }
    let walk = begin(t, steps);
    index_on(t, walk, number - by, steps)
}

/// The index of the Character `n` Characters after one that the walk has passed last, or before it where `n` isn't above 0, with its
/// number; none where that is outside the text.
fn index_moved<T: Text, L: Ledger>(
    t: &mut T,
    span: Span,
    walk: Walk,
    n: i64,
    steps: &mut Steps<L>,
) -> Option<(u64, Index)>
    requires span { IsSpan (T.part t.old) span walk }
    ensures moved { IfSome result (λ there. pos span.number +ℤ n ≡ pos there.0) }
    ensures within { IfSome result (λ there. there.0 ≤ characters_in (T.part t.old)) }
    ensures index { IfSome result (λ there. there.1 ≡ character_index (T.part t.old) there.0) }
    ensures none { IfNone result (((pos span.number +ℤ n) <ℤ pos 0)
        ⊎ (pos (characters_in (T.part t.old)) <ℤ (pos span.number +ℤ n))) }
    ensures kept { t.new ≡ t.old }
{
    if n <= 0 {
        return index_back(t, span.number, n.unsigned_abs(), steps);
    }
    index_on(t, walk, span.number + n.unsigned_abs(), steps)
}

/// How many Characters lie from the one that an index is rounded down to, to another: below 0 where that is before it.
///
/// The first index is refused before the second. The text is read up to the first Character's end, and from its start again up to the
/// second's.
pub fn distance<T: Text, L: Ledger>(
    t: &mut T,
    from: Index,
    to: Index,
    steps: &mut Steps<L>,
) -> Result<i64, OutOfBounds>
    ensures characters { IfOk result (IsDistance (characters_of (T.part t.old)) from to) }
    ensures refused { IfErr result (IsEitherOut (T.part t.old) from to) }
    ensures kept { t.new ≡ t.old }
{
    let (first, _) = span_of(t, from, steps)?;
    match span_of(t, to, steps) {
        Ok((second, _)) => Ok(signed_gap(first.number, second.number)),
        Err(out) => Err(out),
    }
}

/// The index that `after` answers, but without a stride, by an addition: the index's stride is taken at its word, and nothing is read.
///
/// `i` is marked for the storage's encoding alone and in range, stands at the start of a Character, and its stride, which isn't 0, is
/// the length of that Character of this text.
pub fn after_true<T: Text>(t: &mut T, i: Index) -> Index
    requires stride { stride_of i ≢ 0 }
    requires holds { IsTrueAt (T.part t.old) i (offset_at (T.part t.old) (position_of i)) }
    ensures next { result ≡ without_stride (character_index (T.part t.old) (offset_at (T.part t.old) (position_of i) + 1)) }
    ensures kept { t.new ≡ t.old }
{
    fields_are_read_back();
    let _count = t.count();
    let _low = t.low();
    let _high = t.high();
    Index::new(i.position() + i.stride() as u64, 0, t.encoding())
        .with_scalar_aligned()
        .with_character_aligned()
}

//! Questions on a text: its places, parts of it, and how many elements it has.
ghost use Rattle.std.specs.Prelude.{◌≡◌, ◌+◌, ◌≤◌, true, IfOk, OnErr};
ghost use Rattle.text_spec.specs.Boundaries.{IsScalarBoundary};
ghost use Rattle.text_spec.specs.Views.{width_in};
ghost use Rattle.query_lines.specs.Replies.{IsShownOp};
ghost use Rattle.str_value.specs.Meaning.{storage_of, text_between};
ghost use Rattle.batch_workers.specs.Ops.{answer_limit, view_of, place_reply, slice_reply, text_reply, count_in, text_bytes, takes_memory};
ghost use Rattle.batch_workers.specs.Working.{IsQuick};

use crate::place::{boundary_at, part_at, scalar_from};
use char_view::characters;
use query_lines::{Bytes, OpReply, View};
use std::alloc::Global;
use std::sync::ledger::Ledger;
use str_value::Str;
use text_spec::{Encoding, OutOfMemory};
use unit_views::{scalars, utf8};
use utf16_view::utf16;
use word_units::{Steps, Text};

/// How many bytes of text may be answered to one line.
pub(crate) const ANSWER_LIMIT: u64 = 16_777_216;

/// The number of a view's elements.
pub(crate) fn count<L: Ledger>(text: &mut Str, view: View, steps: &mut Steps<L>) -> u64
    ensures value { result ≡ count_in view text.old.text }
    ensures kept { text.new ≡ text.old }
{
    match view {
        View::Scalars => scalars::count(text, steps),
        View::Utf8 => utf8::count(text, steps),
        View::Utf16 => utf16::count(text, steps),
        View::Characters => characters::count(text, steps),
    }
}

/// The place at an offset in `unit`.
pub(crate) fn place<L: Ledger>(
    text: &mut Str,
    unit: Encoding,
    offset: u64,
    steps: &mut Steps<L>,
) -> OpReply
    ensures answer { result ≡ place_reply unit text.old.text offset }
    ensures shown { IsShownOp result }
    ensures none { text_bytes result ≡ 0 }
    ensures kept { text.new ≡ text.old }
    ensures cost { unit ≡ Encoding.Utf16 → IsQuick text.old → steps.new ≤ steps.old + 130 }
{
    let _count = text.count();
    match boundary_at(text, unit, offset, steps) {
        Ok(boundary) => {
            let value = scalar_from(text, boundary.place, steps);
            OpReply::Place {
                utf16: boundary.utf16,
                utf8: boundary.utf8,
                value,
            }
        }
        Err(length) => out_of_bounds(unit, length),
    }
}

/// An offset in `unit` was above the text's length, or above the one after it.
pub(crate) fn out_of_bounds(unit: Encoding, length: u64) -> OpReply
    ensures reply { result ≡ OpReply.OutOfBounds (view_of unit) length }
    ensures shown { IsShownOp result }
{
    let unit = match unit {
        Encoding::Utf8 => View::Utf8,
        Encoding::Utf16 => View::Utf16,
    };
    OpReply::OutOfBounds { unit, length }
}

/// The text between two offsets, where `spent` bytes of text were answered before it.
pub(crate) fn slice<L: Ledger>(
    alloc: Global,
    text: &mut Str,
    spent: u64,
    a: u64,
    b: u64,
    steps: &mut Steps<L>,
) -> Result<OpReply, OutOfMemory>
    requires { spent ≤ answer_limit }
    ensures answer { IfOk result (λ reply. reply ≡ slice_reply text.old.text spent a b) }
    ensures free { OnErr result (takes_memory (slice_reply text.old.text spent a b) ≡ true) }
    ensures shown { IfOk result IsShownOp }
    ensures within { IfOk result (λ reply. spent + text_bytes reply ≤ answer_limit) }
    ensures kept { text.new ≡ text.old }
{
    match part_at(text, a, b, steps) {
        Ok(part) => between(alloc, text, spent, part.low, part.high),
        Err(length) => Ok(out_of_bounds(Encoding::Utf16, length)),
    }
}

/// The whole text.
pub(crate) fn whole(alloc: Global, text: &mut Str, spent: u64) -> Result<OpReply, OutOfMemory>
    requires { spent ≤ answer_limit }
    ensures answer { IfOk result (λ reply. reply ≡ text_reply spent text.old.text) }
    ensures free { OnErr result (takes_memory (text_reply spent text.old.text) ≡ true) }
    ensures shown { IfOk result IsShownOp }
    ensures within { IfOk result (λ reply. spent + text_bytes reply ≤ answer_limit) }
    ensures kept { text.new ≡ text.old }
{
    let (low, high) = (text.low(), text.high());
    between(alloc, text, spent, low, high)
}

// The text between two boundaries of the storage, unless it would be too much. Only what is answered is copied.
fn between(
    alloc: Global,
    text: &mut Str,
    spent: u64,
    low: u64,
    high: u64,
) -> Result<OpReply, OutOfMemory>
    requires spent { spent ≤ answer_limit }
    requires low { IsScalarBoundary (width_in (storage_of text.old.row)) text.old.text low }
    requires high { IsScalarBoundary (width_in (storage_of text.old.row)) text.old.text high }
    requires order { low ≤ high }
    ensures answer { IfOk result (λ reply. reply ≡ text_reply spent (text_between text.old low high)) }
    ensures free { OnErr result (takes_memory (text_reply spent (text_between text.old low high)) ≡ true) }
    ensures shown { IfOk result IsShownOp }
    ensures within { IfOk result (λ reply. spent + text_bytes reply ≤ answer_limit) }
    ensures kept { text.new ≡ text.old }
{
    if spent + text.utf8_length(low, high) > ANSWER_LIMIT {
        return Ok(OpReply::TooLong);
    }
    let bytes = text.copy_utf8(alloc, low, high)?;
    Ok(OpReply::Text(Bytes::new(bytes)))
}

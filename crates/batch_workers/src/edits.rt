//! Edits: the part of a text between two offsets is replaced by another text.
ghost use Rattle.std.specs.Prelude.{◌≡◌, ◌≤◌, true, false, chars, IsUtf8, IsOk, IfOk, OnOk, OnErr};
ghost use Rattle.std.specs.Result.{result_unwrap_or};
ghost use Rattle.text_spec.specs.Boundaries.{IsScalarBoundary};
ghost use Rattle.text_spec.specs.Views.{width_in, size_in};
ghost use Rattle.object_words.specs.Rows.{form_of};
ghost use Rattle.object_words.specs.declared.form.Form.TheVariants.{Native};
ghost use Rattle.slot_accounts.specs.Account.{Shows};
ghost use Rattle.query_lines.specs.Replies.{IsShownOp};
ghost use Rattle.str_value.specs.Meaning.{storage_of, spliced, OfHeap};
ghost use Rattle.batch_workers.specs.Ops.{edited, edit_reply, within_limit, counts_of, is_counts, text_bytes};
ghost use Rattle.batch_workers.specs.Working.{IsForSlot, IsSoleIfNative, IsWorked, edits_of};

use crate::place::part_at;
use crate::questions::out_of_bounds;
use edit_cow::{EditError, replace};
use query_lines::OpReply;
use rounding::{bounds, index_from};
use std::alloc::Global;
use std::sync::ledger::Ledger;
use str_value::{Str, StrPass};
use text_spec::{Encoding, OutOfMemory};
use word_units::{Steps, Text};

/// Puts the text whose UTF-8 is `with` in place of the text between two offsets, and answers the counts of the new text. The value and the
/// pass are as they were where it answers anything else. Where memory is wanting the text is, and the value's slot may have been asked for.
pub(crate) fn edit<'h, L: Ledger>(
    alloc: Global,
    text: &mut Str<'h>,
    pass: &mut StrPass<'h>,
    a: u64,
    b: u64,
    with: &[u8],
    steps: &mut Steps<L>,
) -> Result<OpReply, OutOfMemory>
    requires heap { OfHeap pass.old text.old.place }
    requires utf8 { IsUtf8 with.now }
    ensures answer { IfOk result (λ reply. reply ≡ edit_reply (edited text.old.text a b (chars with.now))) }
    ensures text { OnOk result (text.new.text ≡ result_unwrap_or (edited text.old.text a b (chars with.now)) text.old.text) }
    ensures unedited { IfOk result (λ reply. is_counts reply ≡ false → text.new ≡ text.old) }
    ensures sole { IfOk result (λ reply. is_counts reply ≡ true → IsSoleIfNative text.new) }
    ensures native { IfOk result (λ reply. is_counts reply ≡ true → IsForSlot pass.old text.new.text → Shows pass.old → form_of text.new.row ≡ Native) }
    ensures worked { IfOk result (λ reply. IsWorked pass.old text.old pass.new text.new (edits_of reply)) }
    ensures free { OnErr result (IsOk (edited text.old.text a b (chars with.now))) }
    ensures left { OnErr result ((text.new.text ≡ text.old.text) × IsWorked pass.old text.old pass.new text.new 0) }
    ensures shown { IfOk result IsShownOp }
    ensures none { IfOk result (λ reply. text_bytes reply ≡ 0) }
{
    match part_at(text, a, b, steps) {
        Ok(part) => edit_between(alloc, text, pass, part.low, part.high, with, steps),
        Err(length) => Ok(out_of_bounds(Encoding::Utf16, length)),
    }
}

// The same between two boundaries of the storage.
fn edit_between<'h, L: Ledger>(
    alloc: Global,
    text: &mut Str<'h>,
    pass: &mut StrPass<'h>,
    low: u64,
    high: u64,
    with: &[u8],
    steps: &mut Steps<L>,
) -> Result<OpReply, OutOfMemory>
    requires heap { OfHeap pass.old text.old.place }
    requires utf8 { IsUtf8 with.now }
    requires low { IsScalarBoundary (width_in (storage_of text.old.row)) text.old.text low }
    requires high { IsScalarBoundary (width_in (storage_of text.old.row)) text.old.text high }
    requires order { low ≤ high }
    requires inside { high ≤ size_in (storage_of text.old.row) text.old.text }
    ensures answer { IfOk result (λ reply. reply ≡ edit_reply (within_limit (spliced text.old low high (chars with.now)))) }
    ensures text { OnOk result (text.new.text ≡ result_unwrap_or (within_limit (spliced text.old low high (chars with.now))) text.old.text) }
    ensures unedited { IfOk result (λ reply. is_counts reply ≡ false → text.new ≡ text.old) }
    ensures sole { IfOk result (λ reply. is_counts reply ≡ true → IsSoleIfNative text.new) }
    ensures native { IfOk result (λ reply. is_counts reply ≡ true → IsForSlot pass.old text.new.text → Shows pass.old → form_of text.new.row ≡ Native) }
    ensures worked { IfOk result (λ reply. IsWorked pass.old text.old pass.new text.new (edits_of reply)) }
    ensures free { OnErr result (IsOk (within_limit (spliced text.old low high (chars with.now)))) }
    ensures left { OnErr result ((text.new.text ≡ text.old.text) × IsWorked pass.old text.old pass.new text.new 0) }
    ensures shown { IfOk result IsShownOp }
    ensures none { IfOk result (λ reply. text_bytes reply ≡ 0) }
{
    let (_low, _high) = bounds(text);
    let encoding = text.encoding();
    let from = index_from(encoding, low, 0);
    let to = index_from(encoding, high, 0);
    match replace(alloc, text, pass, from, to, with, steps) {
        Ok(_wrote) => Ok(counts(text)),
        Err(EditError::TooLong { .. }) => Ok(OpReply::TooLong),
        Err(EditError::OutOfMemory) => Err(OutOfMemory),
        Err(EditError::OutOfBounds(_)) => unreachable!(),
        Err(EditError::Reversed { .. }) => unreachable!(),
        Err(EditError::NotUtf8 { .. }) => unreachable!(),
    }
}

// The three counts of a text, in one pass over it.
fn counts(text: &mut Str) -> OpReply
    ensures counts { result ≡ counts_of text.old.text }
    ensures kept { text.new ≡ text.old }
{
    let lengths = text.lengths();
    OpReply::Counts {
        scalars: lengths.scalars,
        utf16: lengths.utf16,
        utf8: lengths.utf8,
    }
}

//! Ops in order, and one op.
ghost use Rattle.std.specs.Prelude.{◌≡◌, ◌≢◌, ◌+◌, ◌*◌, ◌≤◌, true, false, List, [], length, All, IfOk, OnOk, OnErr};
ghost use Rattle.slot_model.specs.declared.event.Event.{Event};
ghost use Rattle.slot_accounts.specs.Account.{Did, Keeps, Shows, sum_of};
ghost use Rattle.object_words.specs.Rows.{form_of};
ghost use Rattle.object_words.specs.declared.form.Form.TheVariants.{Native};
ghost use Rattle.query_lines.specs.Replies.{IsShownOp};
ghost use Rattle.query_lines.specs.WellFormed.{IsWellFormedOp};
ghost use Rattle.str_value.specs.Meaning.{OfHeap, credit_of, is_there, side_of};
ghost use Rattle.str_value.specs.Learning.{MayLearn};
ghost use Rattle.batch_workers.specs.Ops.{answer_limit, op_reply, op_replies, place_reply, slice_reply, text_after, text_after_ops, text_bytes, is_counts, is_at, finds_places, takes_memory, IsLeftBy};
ghost use Rattle.batch_workers.specs.Working.{Affords, IsForSlot, IsLearnt, IsOpRun, IsQuick, IsRead, IsRun, IsSoleIfNative, IsSoonQuick, IsWorked, Learnable, Knows, edits_of, has_learned};

use crate::edits::edit;
use crate::questions::{count, place, slice, whole};
use query_lines::{Op, OpReplies, OpReply};
use std::alloc::Global;
use std::sync::ledger::Ledger;
use str_value::{Str, StrPass};
use text_spec::{Encoding, OutOfMemory};
use word_units::{Steps, Text};

// The least number of bytes of a text that has breadcrumbs, as `Str::learn_crumbs` has it.
const LEAST_BYTES: u64 = 64;

/// Does ops on a value, in order, each on the text that the one before it left, and gives their answers. `spent` bytes of text were
/// answered before them, at most 16 MiB. `steps` counts the words that are read of the text.
///
/// The value learns its breadcrumbs before an `at` and before a `slice`, where it may have some and they aren't known. Where memory is
/// wanting, the value's text is the one that some first ops left. The list of answers is taken first, and after that memory for a text that
/// is answered and for an edit alone. A place by its offset in UTF-16 is found from the breadcrumb before it, where breadcrumbs are known,
/// and from the text's start where they aren't; any other op walks the text at most once, and an edit the new one besides.
///
/// What is answered and left as text: `answers`, `text`, `some_first`. What is left beside the text: `unedited` where nothing was edited,
/// `sole`, `native`, `learned`. What was done on the heap: `worked`, and `left` where memory is wanting; `did`, `credits`, `one_heap` and
/// `heap` on every answer. How much is read for places: `cost`.
pub fn run_ops<'h, L: Ledger>(
    alloc: Global,
    s: &mut Str<'h>,
    pass: &mut StrPass<'h>,
    ops: &[Op],
    spent: u64,
    steps: &mut Steps<L>,
) -> Result<OpReplies, OutOfMemory>
    requires heap { OfHeap pass.old s.old.place }
    requires well_formed { All IsWellFormedOp ops.now }
    requires within { spent ≤ answer_limit }
    ensures answers { IfOk result (λ replies. replies ≡ op_replies s.old.text spent ops.now) }
    ensures text { OnOk result (s.new.text ≡ text_after_ops s.old.text ops.now) }

    // Where nothing was edited, the value is as it was but for its breadcrumbs, its two words among it.
    ensures unedited { IfOk result (λ replies. All (λ reply. is_counts reply ≡ false) replies → IsRead s.old s.new) }
    ensures some_first { OnErr result (IsLeftBy s.old.text ops.now s.new.text) }
    ensures shown { IfOk result (λ replies. All IsShownOp replies) }

    // A Native value is known to be its slot's only holder, where it was at first, or wasn't Native then.
    ensures sole { OnOk result (IsSoleIfNative s.old → IsSoleIfNative s.new) }

    // A text that was edited stands in a slot where it is too long for the value's two words, a slot has room for it, and the pass showed a
    // free slot and a credit at first, and two more of each for each edit.
    ensures native { IfOk result (λ replies. 1 ≤ sum_of edits_of replies → IsForSlot pass.old s.new.text → Affords pass.old (sum_of edits_of replies)
        → form_of s.new.row ≡ Native) }

    // What was done on the heap, as one list of events: at most one for each edit publishes and none takes a reference, an edit takes at
    // most two free slots, and the credits of the pass and of the value keep their sum. Where places alone were asked for, of a value that
    // knows that its slot has no breadcrumbs, they are the look and the installing of its breadcrumbs.
    ensures worked { IfOk result (λ replies. IsRun pass.old s.old ops.now pass.new s.new (sum_of edits_of replies)) }
    ensures left { OnErr result (IsWorked pass.old s.old pass.new s.new (length ops.now)) }
    ensures did { (es : List Event) × Did es pass.old pass.new }
    ensures credits { Keeps pass.old (credit_of s.old.place) pass.new (credit_of s.new.place) }
    ensures one_heap { pass.new.heap ≡ pass.old.heap }
    ensures heap { OfHeap pass.new s.new.place }

    // One that may have breadcrumbs knows them once it was asked for places and parts alone, if the pass shows what they take.
    ensures learned { OnOk result (ops.now ≢ [] → All (λ op. finds_places op ≡ true) ops.now → MayLearn s.old → Shows pass.old → is_there (side_of s.new.place) ≡ true) }

    // The words that are read where places alone are asked for, of a value of UTF-8 that knows its breadcrumbs or may learn them, or is
    // marked ASCII or shorter than 64 bytes: at most 130 for each, and once two for each scalar.
    ensures cost { All (λ op. is_at op ≡ true) ops.now → IsSoonQuick pass.old s.old → steps.new ≤ steps.old + 2 * length s.old.text + 130 * length ops.now }
{
    run_each(alloc, s, pass, ops, spent, steps)
}

// The same, by what the ops did one after another.
fn run_each<'h, L: Ledger>(
    alloc: Global,
    s: &mut Str<'h>,
    pass: &mut StrPass<'h>,
    ops: &[Op],
    spent: u64,
    steps: &mut Steps<L>,
) -> Result<OpReplies, OutOfMemory>
    requires heap { OfHeap pass.old s.old.place }
    requires well_formed { All IsWellFormedOp ops.now }
    requires within { spent ≤ answer_limit }
    ensures answers { IfOk result (λ replies. replies ≡ op_replies s.old.text spent ops.now) }
    ensures text { OnOk result (s.new.text ≡ text_after_ops s.old.text ops.now) }
    ensures unedited { IfOk result (λ replies. All (λ reply. is_counts reply ≡ false) replies → IsRead s.old s.new) }
    ensures some_first { OnErr result (IsLeftBy s.old.text ops.now s.new.text) }
    ensures shown { IfOk result (λ replies. All IsShownOp replies) }
    ensures sole { OnOk result (IsSoleIfNative s.old → IsSoleIfNative s.new) }
    ensures native { IfOk result (λ replies. 1 ≤ sum_of edits_of replies → IsForSlot pass.old s.new.text → Affords pass.old (sum_of edits_of replies)
        → form_of s.new.row ≡ Native) }
    ensures worked { IfOk result (λ replies. IsRun pass.old s.old ops.now pass.new s.new (sum_of edits_of replies)) }
    ensures left { OnErr result (IsWorked pass.old s.old pass.new s.new (length ops.now)) }
    ensures learned { OnOk result (ops.now ≢ [] → All (λ op. finds_places op ≡ true) ops.now → Learnable pass.old s.old → is_there (side_of s.new.place) ≡ true) }
    ensures cost { All (λ op. is_at op ≡ true) ops.now → IsSoonQuick pass.old s.old → steps.new ≤ steps.old + 2 * length s.old.text + 130 * length ops.now }
{
    let mut replies = Vec::with_capacity(alloc, ops.len())?;
    let mut answered = spent;
    for op in ops {
        let reply = run_op(alloc, s, pass, answered, op, steps)?;
        answered += text_bytes(&reply);
        replies.push(reply)?;
    }
    Ok(OpReplies::new(replies))
}

// Does one op, where `spent` bytes of text were answered before it. Memory is taken for a text that is answered and for an edit alone.
fn run_op<'h, L: Ledger>(
    alloc: Global,
    s: &mut Str<'h>,
    pass: &mut StrPass<'h>,
    spent: u64,
    op: &Op,
    steps: &mut Steps<L>,
) -> Result<OpReply, OutOfMemory>
    requires heap { OfHeap pass.old s.old.place }
    requires well_formed { IsWellFormedOp op.now }
    requires within { spent ≤ answer_limit }
    ensures answer { IfOk result (λ reply. reply ≡ op_reply s.old.text spent op.now) }
    ensures text { OnOk result (s.new.text ≡ text_after s.old.text op.now) }
    ensures unedited { IfOk result (λ reply. is_counts reply ≡ false → IsRead s.old s.new) }
    ensures sole { OnOk result (IsSoleIfNative s.old → IsSoleIfNative s.new) }
    ensures native { IfOk result (λ reply. is_counts reply ≡ true → IsForSlot pass.old s.new.text → Shows pass.old → form_of s.new.row ≡ Native) }
    ensures worked { IfOk result (λ reply. IsOpRun pass.old s.old op.now pass.new s.new (edits_of reply)) }
    ensures learned { OnOk result (finds_places op.now ≡ true → Learnable pass.old s.old → Knows s.new) }
    ensures quick { is_at op.now ≡ true → IsQuick s.old → IsQuick s.new × (steps.new ≤ steps.old + 130) }
    ensures soon { is_at op.now ≡ true → MayLearn s.old → Shows pass.old → IsQuick s.new × (steps.new ≤ steps.old + 2 * length s.old.text + 130) }
    ensures free { OnErr result (takes_memory (op_reply s.old.text spent op.now) ≡ true) }
    ensures left { OnErr result ((s.new.text ≡ s.old.text) × IsWorked pass.old s.old pass.new s.new 0) }
    ensures shown { IfOk result IsShownOp }
    ensures within { IfOk result (λ reply. spent + text_bytes reply ≤ answer_limit) }
{
    match op {
        Op::At(offset) => Ok(at(s, pass, *offset, steps)),
        Op::Place(offset) => Ok(place(s, Encoding::Utf8, *offset, steps)),
        Op::Slice(a, b) => part_of(alloc, s, pass, spent, *a, *b, steps),
        Op::Edit { a, b, with } => edit(alloc, s, pass, *a, *b, with.as_slice(), steps),
        Op::Count(view) => Ok(OpReply::Number(count(s, *view, steps))),
        Op::All => whole(alloc, s, spent),
    }
}

// The place at an offset in UTF-16 code units, which breadcrumbs find: the value learns them first, where they aren't known.
fn at<'h, L: Ledger>(
    s: &mut Str<'h>,
    pass: &mut StrPass<'h>,
    offset: u64,
    steps: &mut Steps<L>,
) -> OpReply
    requires { OfHeap pass.old s.old.place }
    ensures answer { result ≡ place_reply Encoding.Utf16 s.old.text offset }
    ensures shown { IsShownOp result }
    ensures none { text_bytes result ≡ 0 }
    ensures read { IsRead s.old s.new }
    ensures worked { IsLearnt pass.old s.old pass.new s.new }
    ensures learned { Learnable pass.old s.old → Knows s.new }
    ensures quick { IsQuick s.old → IsQuick s.new × (steps.new ≤ steps.old + 130) }
    ensures soon { MayLearn s.old → Shows pass.old → IsQuick s.new × (steps.new ≤ steps.old + 2 * length s.old.text + 130) }
{
    learn(s, pass, steps);
    place(s, Encoding::Utf16, offset, steps)
}

// The text between two offsets in UTF-16 code units, which breadcrumbs find as well.
fn part_of<'h, L: Ledger>(
    alloc: Global,
    s: &mut Str<'h>,
    pass: &mut StrPass<'h>,
    spent: u64,
    a: u64,
    b: u64,
    steps: &mut Steps<L>,
) -> Result<OpReply, OutOfMemory>
    requires heap { OfHeap pass.old s.old.place }
    requires within { spent ≤ answer_limit }
    ensures answer { IfOk result (λ reply. reply ≡ slice_reply s.old.text spent a b) }
    ensures free { OnErr result (takes_memory (slice_reply s.old.text spent a b) ≡ true) }
    ensures shown { IfOk result IsShownOp }
    ensures within { IfOk result (λ reply. spent + text_bytes reply ≤ answer_limit) }
    ensures read { IsRead s.old s.new }
    ensures worked { IsWorked pass.old s.old pass.new s.new 0 }
    ensures learned { Learnable pass.old s.old → Knows s.new }
{
    learn(s, pass, steps);
    slice(alloc, s, spent, a, b, steps)
}

// The value learns its breadcrumbs, where they aren't known and help to find an offset.
fn learn<'h, L: Ledger>(s: &mut Str<'h>, pass: &mut StrPass<'h>, steps: &mut Steps<L>)
    requires { OfHeap pass.old s.old.place }
    ensures text { s.new.text ≡ s.old.text }
    ensures read { IsRead s.old s.new }
    ensures worked { IsLearnt pass.old s.old pass.new s.new }
    ensures learned { Learnable pass.old s.old → Knows s.new }
    ensures quick { IsQuick s.old → (s.new ≡ s.old) × (steps.new ≡ steps.old) }
    ensures cost { steps.new ≤ steps.old + 2 * length s.old.text }
{
    // An offset is found soon without learning any, so nothing is read for it.
    if has_learned(s) {
        return;
    }
    s.learn_crumbs(pass, steps);
}

// Whether the value knows its breadcrumbs, or has none.
fn has_learned(s: &Str) -> bool
    ensures { result ≡ has_learned s.now }
{
    s.crumbs_known() || s.ascii() || s.object().count() < LEAST_BYTES
}

// How many bytes of text an answer carries.
fn text_bytes(reply: &OpReply) -> u64
    ensures { result ≡ text_bytes reply.now }
{
    match reply {
        OpReply::Text(text) => text.as_slice().len() as u64,
        OpReply::Place { .. } => 0,
        OpReply::Counts { .. } => 0,
        OpReply::Number(_) => 0,
        OpReply::OutOfBounds { .. } => 0,
        OpReply::TooLong => 0,
    }
}

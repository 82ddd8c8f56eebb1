//! The list of breadcrumbs written into a draft.
ghost use Rattle.std.specs.Prelude.{◌≡◌, ℕ, List, ◌+◌, ◌-◌, ◌*◌, ◌/◌, ◌^◌, ◌<◌, ◌≤◌, ◌++◌, length, slice_index};
ghost use Rattle.text_spec.specs.declared.encoding.Encoding.TheVariants.{Utf8};
ghost use Rattle.index_words.specs.Crumbs.{size16, index_word8, index16, crumbs};
ghost use Rattle.text_spec.specs.Packed.{content_words};
ghost use Rattle.text_spec.specs.Views.{size_in};
ghost use Rattle.word_units.specs.Counting.{units_within};
ghost use Rattle.crumbs.specs.Counting.{Seen, crumbs_below};

use crate::counting::{bytes_in, count_units, units_at, units_before};
use crate::crumb::word_of_crumb;
use slot_model::Attach;
use slot_table::Draft;
use std::sync::ledger::Ledger;
use word_units::{Steps, Text};

/// Writes the breadcrumbs of the UTF-16 units below `stop`, from breadcrumb `number` on, and answers the number of the next one.
///
/// The units from `reached` to `stop` are those of what stands at byte `at`: of one scalar, or that of the end.
fn write_due<T: Text, A: Attach>(
    t: &T,
    draft: &mut Draft<'_, A>,
    number: u64,
    at: u64,
    reached: u64,
    stop: u64,
) -> u64
    requires some { (1 ≤ T.STRIDE) × (T.STRIDE ≤ 4096) }
    requires small { (at < 2 ^ 48) × (stop < 2 ^ 49) × (number < 2 ^ 49) }
    requires due { reached ≤ number * T.STRIDE }
    requires begun { 0 < number → (number - 1) * T.STRIDE < reached }
    requires ahead { reached ≤ stop }
    requires near { stop ≤ reached + 2 }
    requires units { (o : ℕ) → reached ≤ o → o < stop → index16 (T.part t.now).whole o ≡ index_word8 at (o - reached) }
    requires inside { stop ≤ size16 (T.part t.now).whole + 1 }
    requires room { length draft.old.written + size16 (T.part t.now).whole / T.STRIDE + 1 ≤ draft.old.heap.layout.capacity_words + number }
    ensures written { (front : List ℕ) → draft.old.written ≡ front ++ crumbs_below (T.part t.now).whole T.STRIDE number
        → draft.new ≡ record draft.old { written = front ++ crumbs_below (T.part t.now).whole T.STRIDE result } }
    ensures heap { draft.new.heap ≡ draft.old.heap }
    ensures longer { length draft.new.written + number ≡ length draft.old.written + result }
    ensures due { stop ≤ result * T.STRIDE }
    ensures last { 0 < result → (result - 1) * T.STRIDE < stop }
{
    let stride = t.stride() as u64;
    let mut next = number;
    'due: while next * stride < stop {
        draft.write(word_of_crumb(at, next * stride - reached));
        next += 1;
    }
    next
}

/// Writes the breadcrumbs of the scalars that begin in the first `size` bytes of content word `k`, from breadcrumb `number` on, and answers
/// the number of the next one.
///
/// `word` is that word, and `reached` UTF-16 units lie before it.
fn write_word<T: Text, A: Attach>(
    t: &T,
    draft: &mut Draft<'_, A>,
    number: u64,
    word: u64,
    k: u64,
    size: u64,
    reached: u64,
) -> u64
    requires storage { (T.part t.now).storage ≡ Utf8 }
    requires some { (1 ≤ T.STRIDE) × (T.STRIDE ≤ 4096) }
    requires inside { (size ≤ 8) × (8 * k + size ≤ size_in Utf8 (T.part t.now).whole) }
    requires here { word ≡ slice_index (T.words t.now) k }
    requires seen { Seen (T.part t.now).whole (8 * k) reached }
    requires due { reached ≤ number * T.STRIDE }
    requires begun { 0 < number → (number - 1) * T.STRIDE < reached }
    requires room { length draft.old.written + size16 (T.part t.now).whole / T.STRIDE + 1 ≤ draft.old.heap.layout.capacity_words + number }
    ensures written { (front : List ℕ) → draft.old.written ≡ front ++ crumbs_below (T.part t.now).whole T.STRIDE number
        → draft.new ≡ record draft.old { written = front ++ crumbs_below (T.part t.now).whole T.STRIDE result } }
    ensures due { reached + units_within size word ≤ result * T.STRIDE }
    ensures last { 0 < result → (result - 1) * T.STRIDE < reached + units_within size word }
{
    let _count = t.count();
    let mut next = number;
    let mut passed = reached;
    'bytes: for j in 0..size {
        let stop = passed + units_at(word, j);
        next = write_due(t, draft, next, 8 * k + j, passed, stop);
        passed = stop;
    }
    next
}

/// Appends the list of breadcrumbs of a text to a draft: its length in UTF-16 units, and an index word at each `stride`-th unit.
///
/// The storage is UTF-8 and the text is all of it, its stride is 1 to 4,096, and the draft has room for `u / stride + 2` words,
/// where the text has u UTF-16 units. Two passes over the words, of which the first counts the units and each reads each word once:
/// at most two words for each scalar are read.
pub fn build<T: Text, A: Attach, L: Ledger>(
    t: &mut T,
    draft: &mut Draft<'_, A>,
    steps: &mut Steps<L>,
)
    requires storage { (T.part t.old).storage ≡ Utf8 }
    requires all { ((T.part t.old).first ≡ 0) × ((T.part t.old).end ≡ length (T.part t.old).whole) }
    requires some { (1 ≤ T.STRIDE) × (T.STRIDE ≤ 4096) }
    requires room { length draft.old.written + size16 (T.part t.old).whole / T.STRIDE + 2 ≤ draft.old.heap.layout.capacity_words }
    ensures written { draft.new ≡ record draft.old { written = draft.old.written ++ crumbs (T.part t.old).whole T.STRIDE } }
    ensures kept { t.new ≡ t.old }

    // Each content word is read twice, and a text has no more of them than scalars.
    ensures cost { steps.new ≡ steps.old + 2 * content_words Utf8 (size_in Utf8 (T.part t.old).whole) }
    ensures few { steps.new ≤ steps.old + 2 * length (T.part t.old).whole }
{
    let count = t.count();
    let stride = t.stride() as u64;
    draft.write(count_units(t, steps));
    let mut number = 0;
    let mut reached = 0;
    'words: for k in 0..(count + 7) / 8 {
        let word = t.word(k, steps);
        let stop = reached + units_before(word, count - 8 * k);
        if number * stride < stop {
            let size = bytes_in(k, count);
            number = write_word(t, draft, number, word, k, size, reached);
        }
        reached = stop;
    }
    write_due(t, draft, number, count, reached, reached + 1);
}

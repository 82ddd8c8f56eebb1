//! Which list of words may be the side of a stored text: its list of breadcrumbs.
ghost use Rattle.std.specs.Prelude.{◌≡◌, ℕ, List, ◌+◌, ◌-◌, ◌*◌, ◌^◌, ◌<◌, ◌≤◌, ◌↔◌, IsTrue, MatchOption, length, slice_index};
ghost use Rattle.index_words.specs.Crumbs.{size16, crumbs};
ghost use Rattle.crumbs.specs.Fitting.{IsCrumbList, IsListOf, Matches, IsAmiss};

use crate::crumb::word_of_crumb;
use crate::decoding::width_at;
use object_words::count_word::{marks_utf16, unit_count};
use slot_model::Attach;
use word_units::units_of_width;

/// The sides that a heap of texts takes: to words that hold a text in UTF-8 the list of its breadcrumbs, one at each `STRIDE`-th
/// UTF-16 unit, and nothing to others.
///
/// `STRIDE` is 1 to 4,096 in UTF-16 units; the rule is the definition's for every number.
pub struct Crumbs<const STRIDE: usize>;

impl<const STRIDE: usize> Attach for Crumbs<STRIDE> {
    ghost fits = { IsCrumbList STRIDE };

    fn check_fit(words: &[u64], side: &[u64]) -> bool {
        match words.split_first() {
            Some((count_word, content)) => {
                !marks_utf16(*count_word)
                    && is_list_of(content, unit_count(*count_word), STRIDE as u64, side)
            }
            None => false,
        }
    }
}

/// A stride of at most 2^48 UTF-16 units that has the same lists: no text has more units than that, and 0 stands for no end.
fn span_of(stride: u64) -> u64
    ensures some { (1 ≤ result) × (result ≤ 2 ^ 48) }
    ensures same { (text : List ℕ) → size16 text < 2 ^ 48 → crumbs text result ≡ crumbs text stride }
{
    let most = 1 << 48;
    if stride == 0 || stride > most {
        most
    } else {
        stride
    }
}

/// Whether word `k` of a list is there and is `word`.
fn stands(side: &[u64], k: u64, word: u64) -> bool
    ensures { IsTrue result ↔ (k < length side.now) × (slice_index side.now k ≡ word) }
{
    match side.get(k as usize) {
        Some(there) => *there == word,
        None => false,
    }
}

/// The number of the next breadcrumb, where the side has those of the UTF-16 units below `stop`, from breadcrumb `number` on.
///
/// The units from `reached` to `stop` are those of what stands at byte `at`: of one scalar, or that of the end.
fn matched(side: &[u64], number: u64, stride: u64, at: u64, reached: u64, stop: u64) -> Option<u64>
    requires some { (1 ≤ stride) × (stride ≤ 2 ^ 48) }
    requires small { (at < 2 ^ 48) × (stop < 2 ^ 49) × (number < 2 ^ 49) }
    requires due { reached ≤ number * stride }
    requires begun { 0 < number → (number - 1) * stride < reached }
    requires near { (reached ≤ stop) × (stop ≤ reached + 2) }
    ensures { MatchOption result (IsAmiss side.now number stride at reached stop) (Matches side.now number stride at reached stop) }
{
    let mut next = number;
    'due: while next * stride < stop {
        if !stands(side, next + 1, word_of_crumb(at, next * stride - reached)) {
            return None;
        }
        next += 1;
    }
    Some(next)
}

/// Whether the first `count` bytes of content words are a text, of which `side` is the list of breadcrumbs.
fn is_list_of(content: &[u64], count: u64, stride: u64, side: &[u64]) -> bool
    requires { count < 2 ^ 48 }
    ensures { IsTrue result ↔ IsListOf content.now count stride side.now }
{
    if (count + 7) / 8 > content.len() as u64 {
        return false;
    }
    let span = span_of(stride);
    let mut number = 0;
    let mut reached = 0;
    let mut at = 0;
    'scalars: while at < count {
        let width = match width_at(content, count, at) {
            Some(width) => width,
            None => return false,
        };
        let stop = reached + units_of_width(width);
        number = match matched(side, number, span, at, reached, stop) {
            Some(next) => next,
            None => return false,
        };
        reached = stop;
        at += width;
    }
    match matched(side, number, span, count, reached, reached + 1) {
        Some(total) => side.len() as u64 == total + 1 && stands(side, 0, reached),
        None => false,
    }
}

//! The breadcrumb from which a question about a place starts.
ghost use Rattle.std.specs.Prelude.{◌≡◌, ℕ, ◌+◌, ◌*◌, ◌/◌, ◌^◌, ◌<◌, ◌≤◌, true};
ghost use Rattle.index_words.specs.Crumbs.{size16, index16};
ghost use Rattle.index_words.specs.Fields.{place_of};
ghost use Rattle.crumbs.specs.Searching.{IsLastCrumb};

use crate::crumb::{crumb, length16};
use index_words::Index;
use std::sync::ledger::Ledger;
use word_units::{Steps, Text};

/// The last breadcrumb whose UTF-16 offset is at most `o`: that of offset `o / STRIDE * STRIDE`, rounded down.
///
/// The text's breadcrumbs are known, and `o` is at most its length in UTF-16 units. One word is read.
pub fn for_offset<T: Text, L: Ledger>(t: &mut T, o: u64, steps: &mut Steps<L>) -> Index
    requires known { T.knows_crumbs t.old ≡ true }
    requires some { 1 ≤ T.STRIDE }
    requires inside { o ≤ size16 (T.part t.old).whole }
    ensures value { result ≡ index16 (T.part t.old).whole (o / T.STRIDE * T.STRIDE) }
    ensures kept { t.new ≡ t.old }
    ensures cost { steps.new ≡ steps.old + 1 }
{
    crumb(t, o / t.stride() as u64, steps)
}

/// The number of the last of the breadcrumbs 0 to `last` that isn't after an index.
fn last_before<T: Text, L: Ledger>(t: &mut T, i: Index, last: u64, steps: &mut Steps<L>) -> u64
    requires known { T.knows_crumbs t.old ≡ true }
    requires some { 1 ≤ T.STRIDE }
    requires last { last ≡ size16 (T.part t.old).whole / T.STRIDE }
    requires small { last < 2 ^ 48 }
    ensures within { result ≤ last }
    ensures before { place_of (index16 (T.part t.old).whole (result * T.STRIDE)) ≤ place_of i }
    ensures after { result < last → place_of i < place_of (index16 (T.part t.old).whole ((result + 1) * T.STRIDE)) }
    ensures kept { t.new ≡ t.old }
    ensures cost { (digits : ℕ) → last < 2 ^ digits → steps.new ≤ steps.old + digits }
    ensures counted { (digits : ℕ) → 2 ^ digits ≤ last + 1 → steps.old + digits ≤ steps.new }
{
    let mut low = 0;
    let mut high = last + 1;
    'halves: while low + 1 < high {
        let middle = low + (high - low) / 2;
        let there = crumb(t, middle, steps);
        if there <= i {
            low = middle;
        } else {
            high = middle;
        }
    }
    low
}

/// The last breadcrumb that isn't after an index, with its UTF-16 offset.
///
/// The text's breadcrumbs are known. Places are compared with their transcoded offsets. Two words are read, and one for each time that
/// the breadcrumbs are halved: at most one for each binary digit of the number of the last, and so many that they can be halved.
pub fn near<T: Text, L: Ledger>(t: &mut T, i: Index, steps: &mut Steps<L>) -> (u64, Index)
    requires known { T.knows_crumbs t.old ≡ true }
    requires some { 1 ≤ T.STRIDE }
    ensures last { IsLastCrumb (T.part t.old).whole T.STRIDE i result.0 result.1 }
    ensures kept { t.new ≡ t.old }
    ensures cost { (digits : ℕ) → size16 (T.part t.old).whole / T.STRIDE < 2 ^ digits → steps.new ≤ steps.old + 2 + digits }
    ensures counted { (digits : ℕ) → 2 ^ digits ≤ size16 (T.part t.old).whole / T.STRIDE + 1 → steps.old + 2 + digits ≤ steps.new }
{
    let stride = t.stride() as u64;
    let last = length16(t, steps) / stride;
    let number = last_before(t, i, last, steps);
    (number * stride, crumb(t, number, steps))
}

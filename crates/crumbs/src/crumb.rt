//! Single breadcrumbs of a text whose breadcrumbs are known.
ghost use Rattle.std.specs.Prelude.{◌≡◌, ◌+◌, ◌*◌, ◌/◌, ◌^◌, ◌<◌, ◌≤◌, true};
ghost use Rattle.index_words.specs.Crumbs.{size16, index_word8, index16};

use index_words::Index;
use std::sync::ledger::Ledger;
use text_spec::Encoding;
use word_units::{Steps, Text};

/// Breadcrumb `number`, counted from 0: the index of UTF-16 offset `number * STRIDE`. One word is read.
pub(crate) fn crumb<T: Text, L: Ledger>(t: &mut T, number: u64, steps: &mut Steps<L>) -> Index
    requires known { T.knows_crumbs t.old ≡ true }
    requires some { 1 ≤ T.STRIDE }
    requires inside { number ≤ size16 (T.part t.old).whole / T.STRIDE }
    ensures value { result ≡ index16 (T.part t.old).whole (number * T.STRIDE) }
    ensures kept { t.new ≡ t.old }
    ensures cost { steps.new ≡ steps.old + 1 }
{
    // The count bounds the number, so that the sum fits.
    let _count = t.count();
    let word = t.crumb_word(number + 1, steps);
    match Index::check(word) {
        Some(index) => index,
        None => unreachable!(),
    }
}

/// How many UTF-16 units the text has. One word is read.
pub(crate) fn length16<T: Text, L: Ledger>(t: &mut T, steps: &mut Steps<L>) -> u64
    requires known { T.knows_crumbs t.old ≡ true }
    ensures value { result ≡ size16 (T.part t.old).whole }
    ensures small { result < 2 ^ 48 }
    ensures kept { t.new ≡ t.old }
    ensures cost { steps.new ≡ steps.old + 1 }
{
    let _count = t.count();
    t.crumb_word(0, steps)
}

/// The index `past` UTF-16 units into the scalar that begins at byte `position`: 0, or 1 within a pair.
pub(crate) fn index_of_crumb(position: u64, past: u64) -> Index
    requires small { position < 2 ^ 48 }
    requires most { past ≤ 1 }
    ensures { result ≡ index_word8 position past }
{
    let index = Index::new(position, past as u32, Encoding::Utf8);
    if past == 0 {
        return index.with_scalar_aligned();
    }
    index
}

/// The word of that index.
pub(crate) fn word_of_crumb(position: u64, past: u64) -> u64
    requires small { position < 2 ^ 48 }
    requires most { past ≤ 1 }
    ensures { result ≡ index_word8 position past }
{
    index_of_crumb(position, past).bits()
}

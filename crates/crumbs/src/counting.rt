//! UTF-16 units counted over the words of a text in UTF-8 storage, each of which is read once.
ghost use Rattle.std.specs.Prelude.{◌≡◌, ◌+◌, ◌-◌, ◌*◌, ◌/◌, ◌%◌, ◌^◌, ◌<◌, ◌≤◌, min};
ghost use Rattle.text_spec.specs.declared.encoding.Encoding.TheVariants.{Utf8};
ghost use Rattle.index_words.specs.Crumbs.{size16};
ghost use Rattle.text_spec.specs.Packed.{content_words};
ghost use Rattle.text_spec.specs.Views.{size_in};
ghost use Rattle.word_units.specs.Counting.{units_begun, units_within};

use std::sync::ledger::Ledger;
use word_units::{Steps, Text, units_in};

/// How many UTF-16 units the scalar takes that byte `p` of a word begins.
pub(crate) fn units_at(word: u64, p: u64) -> u64
    requires { p < 8 }
    ensures value { result ≡ units_begun ((word / 2 ^ (8 * p)) % 256) }
    ensures few { result ≤ 2 }
{
    let byte = (word >> (8 * p)) % 256;
    if byte < 128 {
        1
    } else if byte < 192 {
        0
    } else if byte < 240 {
        1
    } else {
        2
    }
}

/// How many bytes of a text that has `count` stand in content word `k`: 1 to 8.
pub(crate) fn bytes_in(k: u64, count: u64) -> u64
    requires { 8 * k < count }
    ensures { result ≡ min 8 (count - 8 * k) }
{
    let left = count - 8 * k;
    if left < 8 { left } else { 8 }
}

/// How many UTF-16 units the scalars take that begin in a word, of a text of which `left` bytes stand in that word and those after it.
pub(crate) fn units_before(word: u64, left: u64) -> u64
    ensures value { result ≡ units_within (min 8 left) word }
    ensures few { result ≤ 16 }
{
    if left >= 8 {
        return units_in(word);
    }
    let mut units = 0;
    'bytes: for p in 0..left {
        units += units_at(word, p);
    }
    units
}

/// How many UTF-16 units a text in UTF-8 storage has. Each word is read once.
pub(crate) fn count_units<T: Text, L: Ledger>(t: &mut T, steps: &mut Steps<L>) -> u64
    requires storage { (T.part t.old).storage ≡ Utf8 }
    ensures units { result ≡ size16 (T.part t.old).whole }
    ensures kept { t.new ≡ t.old }
    ensures cost { steps.new ≡ steps.old + content_words Utf8 (size_in Utf8 (T.part t.old).whole) }
{
    let count = t.count();
    let mut reached = 0;
    'words: for k in 0..count / 8 {
        let word = t.word(k, steps);
        reached += units_in(word);
    }
    let left = count % 8;
    if left == 0 {
        return reached;
    }
    let word = t.word(count / 8, steps);
    reached + units_before(word, left)
}

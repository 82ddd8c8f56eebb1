//! Walks over a text in UTF-8 storage that read each content word once.
ghost use Rattle.std.specs.Prelude.{◌≡◌, ◌+◌, ◌*◌, ◌/◌, ◌^◌, ◌<◌, ◌≤◌, ◌⊎◌, slice_index};
ghost use Rattle.std.specs.Char.{len_utf8};
ghost use Rattle.text_spec.specs.declared.encoding.Encoding.TheVariants.{Utf8};
ghost use Rattle.text_spec.specs.Offsets.{down};
ghost use Rattle.text_spec.specs.Views.{size_in};
ghost use Rattle.word_units.specs.Parts.{all_of};
ghost use Rattle.rounding.specs.Resolving.{Reaches};
ghost use Rattle.crumbs.specs.Searching.{words_through};
ghost use Rattle.crumbs.specs.Scanning.{number_at, ends_behind, Stands, Scanned};

use std::sync::ledger::Ledger;
use word_units::{Steps, Text, pass_lead};

/// What a walk goes up to: the scalar that covers a byte, or the one that covers a UTF-16 unit.
#[derive(Clone, Copy)]
pub(crate) enum Limit {
    Byte(u64),
    Unit(u64),
}

/// Whether what ends at byte `end`, with `units` UTF-16 units before its end, ends after a limit.
fn is_behind(limit: Limit, end: u64, units: u64) -> bool
    ensures { result ≡ ends_behind limit end units }
{
    match limit {
        Limit::Byte(p) => end > p,
        Limit::Unit(o) => units > o,
    }
}

/// A scalar of a text, or its end.
#[derive(Clone, Copy)]
pub(crate) struct Scalar {
    /// The byte that it begins at.
    pub(crate) begins: u64,
    /// How many UTF-16 units lie before it.
    pub(crate) units: u64,
    /// How many UTF-16 units it takes: 0 at the end.
    pub(crate) takes: u64,
}

/// Where the bytes in the word of byte `at` end, of a text that has `count`.
fn end_of_word(at: u64, count: u64) -> u64
    requires inside { at < count }
    requires small { count < 2 ^ 48 }
    ensures end { (result ≡ count) ⊎ (result ≡ at / 8 * 8 + 8) }
    ensures inside { (at < result) × (result ≤ count) }
    ensures near { result ≤ at / 8 * 8 + 8 }
{
    let end = at / 8 * 8 + 8;
    if end < count { end } else { count }
}

/// The scalar that covers a limit, of those that begin in the word of byte `at` from there on; where none does, what lies after them,
/// which takes 0.
///
/// `word` is that word, and `units` lie before the boundary `at`.
fn scan_word<T: Text>(t: &T, word: u64, at: u64, units: u64, limit: Limit) -> Scalar
    requires storage { (T.part t.now).storage ≡ Utf8 }
    requires begun { Reaches (all_of Utf8 (T.part t.now).whole) at units }
    requires inside { at < size_in Utf8 (T.part t.now).whole }
    requires order { down len_utf8 (T.part t.now).whole at ≤ number_at (T.part t.now).whole limit }
    requires here { word ≡ slice_index (T.words t.now) (at / 8) }
    ensures { Scanned (T.part t.now).whole limit at result.begins result.units result.takes }
{
    let stop = end_of_word(at, t.count());
    let mut begins = at;
    let mut reached = units;
    'scalars: while begins < stop {
        let (end, takes) = pass_lead(t, word, begins);
        if is_behind(limit, end, reached + takes) {
            return Scalar {
                begins,
                units: reached,
                takes,
            };
        }
        begins = end;
        reached += takes;
    }
    Scalar {
        begins,
        units: reached,
        takes: 0,
    }
}

/// The scalar that covers a limit, or the end, by a walk from the scalar boundary `from`, which has `units` UTF-16 units before it.
///
/// Each word in which a scalar of the walk begins is read once, that of the scalar that covers the limit too, and no other word.
pub(crate) fn scalar_over<T: Text, L: Ledger>(
    t: &mut T,
    from: u64,
    units: u64,
    limit: Limit,
    steps: &mut Steps<L>,
) -> Scalar
    requires storage { (T.part t.old).storage ≡ Utf8 }
    requires begun { Reaches (all_of Utf8 (T.part t.old).whole) from units }
    requires within { from ≤ size_in Utf8 (T.part t.old).whole }
    requires order { down len_utf8 (T.part t.old).whole from ≤ number_at (T.part t.old).whole limit }
    ensures stands { Stands (T.part t.old).whole (number_at (T.part t.old).whole limit) result.begins result.units result.takes }
    ensures kept { t.new ≡ t.old }
    ensures cost { steps.new ≡ steps.old + words_through (T.part t.old).whole (down len_utf8 (T.part t.old).whole from) (number_at (T.part t.old).whole limit) }
{
    let count = t.count();
    let mut at = from;
    let mut reached = units;
    'words: while at < count {
        let word = t.word(at / 8, steps);
        let scalar = scan_word(t, word, at, reached, limit);
        if scalar.takes > 0 {
            return scalar;
        }
        at = scalar.begins;
        reached = scalar.units;
    }
    Scalar {
        begins: at,
        units: reached,
        takes: 0,
    }
}

ghost use Rattle.std.specs.Prelude.{◌≡◌, ◌+◌, ◌<◌, ◌≤◌, IsTrue, ◌↔◌};
ghost use Rattle.std.specs.Char.{len_utf8};
ghost use Rattle.text_spec.specs.declared.encoding.Encoding.TheVariants.{Utf8, Utf16};
ghost use Rattle.text_spec.specs.Offsets.{len_utf16, start, down};
ghost use Rattle.text_spec.specs.Views.{width_in, size_in};
ghost use Rattle.word_units.specs.Parts.{storage_size, scalars_before};

use crate::packing::{byte_in, is_pair, unit_in};
use crate::reading::other_half;
use crate::steps::Steps;
use crate::text::Text;
use std::sync::ledger::Ledger;
use text_spec::Encoding;

/// Whether a byte continues a scalar (The Unicode Standard, table 3-6).
fn is_continuation(byte: u8) -> bool
    ensures { IsTrue result ↔ (128 ≤ byte) × (byte < 192) }
{
    byte >= 128 && byte < 192
}

/// The greatest scalar boundary not after byte `p`, which is below the end.
fn floor8<T: Text, L: Ledger>(t: &mut T, p: u64, steps: &mut Steps<L>) -> u64
    requires encoding { (T.part t.old).storage ≡ Utf8 }
    requires inside { p < size_in Utf8 (T.part t.old).whole }
    ensures value { result ≡ start len_utf8 (T.part t.old).whole (down len_utf8 (T.part t.old).whole p) }
    ensures kept { t.new ≡ t.old }
    ensures cost { steps.new ≤ steps.old + 2 }
{
    let _count = t.count();
    let mut place = p;
    let mut word = t.word(p / 8, steps);
    'back: while is_continuation(byte_in(word, place)) {
        place -= 1;
        if place % 8 == 7 {
            word = t.word(place / 8, steps);
        }
    }
    place
}

/// The greatest scalar boundary not after unit `p`, which is below the end.
fn floor16<T: Text, L: Ledger>(t: &mut T, p: u64, steps: &mut Steps<L>) -> u64
    requires encoding { (T.part t.old).storage ≡ Utf16 }
    requires inside { p < size_in Utf16 (T.part t.old).whole }
    ensures value { result ≡ start len_utf16 (T.part t.old).whole (down len_utf16 (T.part t.old).whole p) }
    ensures kept { t.new ≡ t.old }
    ensures cost { steps.new ≤ steps.old + 2 }
{
    let _count = t.count();
    let word = t.word(p / 4, steps);
    let unit = unit_in(word, p);
    let beside = other_half(t, word, unit, p, steps);
    if is_pair(beside, unit) { p - 1 } else { p }
}

/// The greatest scalar boundary of the storage not after `p`.
///
/// `p` is at most the storage's number of code units. At most two words are read.
pub fn boundary_at_or_before<T: Text, L: Ledger>(t: &mut T, p: u64, steps: &mut Steps<L>) -> u64
    requires inside { p ≤ storage_size (T.part t.old) }
    ensures value { result ≡ start (width_in (T.part t.old).storage) (T.part t.old).whole (scalars_before (T.part t.old) p) }
    ensures kept { t.new ≡ t.old }
    ensures cost { steps.new ≤ steps.old + 2 }
{
    if p == t.count() {
        return p;
    }
    match t.encoding() {
        Encoding::Utf8 => floor8(t, p, steps),
        Encoding::Utf16 => floor16(t, p, steps),
    }
}

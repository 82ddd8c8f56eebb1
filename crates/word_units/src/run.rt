ghost use Rattle.std.specs.Prelude.{◌≡◌, ◌+◌, ◌/◌, ◌<◌, ◌≤◌, slice_index};
ghost use Rattle.std.specs.Char.{len_utf8};
ghost use Rattle.text_spec.specs.declared.encoding.Encoding.TheVariants.{Utf8, Utf16};
ghost use Rattle.text_spec.specs.Offsets.{len_utf16};
ghost use Rattle.text_spec.specs.Views.{size_in};
ghost use Rattle.text_spec.specs.Boundaries.{IsScalarBoundary};
ghost use Rattle.word_units.specs.Running.{PassesRun};
ghost use Rattle.word_units.specs.Parts.{storage_size, IsBoundaryIn};

use crate::counting::begun_in;
use crate::packing::{bytes_of_code, bytes_of_units, has_no_half};
use crate::scalar::code16_beside;
use crate::steps::Steps;
use crate::text::Text;
use crate::walk::pass_lead;
use std::sync::ledger::Ledger;
use text_spec::Encoding;

/// The high bit of each byte of a word: none is set where the eight bytes are ASCII.
const HIGH_BITS: u64 = 0x8080_8080_8080_8080;

/// How far the scalars that begin in a word of UTF-8 reach from a place in it, in bytes, at most: the last may end three bytes past it.
const REACH: u64 = 11;

/// How many bytes of UTF-8 the scalars of a word of UTF-16 take at most.
const WORD_BYTES: u64 = 12;

/// The scalars that begin in a word of UTF-8 from the boundary `at` on: where the last ends, how many code units of UTF-16 they take, and
/// how many they are. `word` is the word of `at`.
fn pass_leads<T: Text>(t: &T, word: u64, at: u64, most: u64) -> (u64, u64, u64)
    requires encoding { (T.part t.now).storage ≡ Utf8 }
    requires room { REACH ≤ most }
    requires fits { at + most ≤ size_in Utf8 (T.part t.now).whole }
    requires boundary { IsScalarBoundary len_utf8 (T.part t.now).whole at }
    requires here { word ≡ slice_index (T.words t.now) (at / 8) }
    ensures { PassesRun (T.part t.now) at most result.0 result.1 result.2 }
{
    let _count = t.count();
    let passed = at % 8;
    let (bytes, units, scalars) = begun_in(word >> (8 * passed));
    // Of the bytes before `at` zeros are left behind the others, each of which counts as a scalar of one byte.
    (at + bytes - passed, units - passed, scalars - passed)
}

/// What one word of UTF-8 tells: the scalars that begin in it, where there is room for them, or else one scalar.
fn pass_bytes<T: Text, L: Ledger>(
    t: &mut T,
    at: u64,
    most: u64,
    steps: &mut Steps<L>,
) -> (u64, u64, u64)
    requires encoding { (T.part t.old).storage ≡ Utf8 }
    requires inside { at < size_in Utf8 (T.part t.old).whole }
    requires fits { at + most ≤ size_in Utf8 (T.part t.old).whole }
    requires boundary { IsScalarBoundary len_utf8 (T.part t.old).whole at }
    ensures passes { PassesRun (T.part t.old) at most result.0 result.1 result.2 }
    ensures kept { t.new ≡ t.old }
    ensures cost { steps.new ≡ steps.old + 1 }
{
    let _count = t.count();
    let word = t.word(at / 8, steps);
    if most >= 8 && at % 8 == 0 && word & HIGH_BITS == 0 {
        return (at + 8, 8, 8);
    }
    if most >= REACH {
        return pass_leads(t, word, at, most);
    }
    let (next, units) = pass_lead(t, word, at);
    (next, units, 1)
}

/// What one word of UTF-16 tells: the four scalars of a word without halves of pairs, where there is room for them, or else one scalar.
fn pass_units<T: Text, L: Ledger>(
    t: &mut T,
    at: u64,
    most: u64,
    steps: &mut Steps<L>,
) -> (u64, u64, u64)
    requires encoding { (T.part t.old).storage ≡ Utf16 }
    requires inside { at < size_in Utf16 (T.part t.old).whole }
    requires fits { at + most ≤ size_in Utf16 (T.part t.old).whole }
    requires boundary { IsScalarBoundary len_utf16 (T.part t.old).whole at }
    ensures passes { PassesRun (T.part t.old) at most result.0 result.1 result.2 }
    ensures kept { t.new ≡ t.old }
    ensures cost { steps.new ≤ steps.old + 2 }
    ensures counted { steps.old < steps.new }
{
    let _count = t.count();
    let word = t.word(at / 4, steps);
    if most >= WORD_BYTES && at % 4 == 0 && has_no_half(word) {
        return (at + 4, bytes_of_units(word), 4);
    }
    let (code, width) = code16_beside(t, word, at, steps);
    (at + width as u64, bytes_of_code(code), 1)
}

/// Where what is passed from the boundary `at` on ends, how many code units of the other encoding it takes, and how many scalars it is.
///
/// It is one scalar, or the scalars that begin in a word where they end within `most` code units and have no more of the other encoding.
/// `at` is a scalar boundary of the storage below its end, and `at + most` isn't past that, in code units. One word is read, and in UTF-16
/// storage one or two.
pub fn pass_run<T: Text, L: Ledger>(
    t: &mut T,
    at: u64,
    most: u64,
    steps: &mut Steps<L>,
) -> (u64, u64, u64)
    requires inside { at < storage_size (T.part t.old) }
    requires fits { at + most ≤ storage_size (T.part t.old) }
    requires boundary { IsBoundaryIn (T.part t.old) at }
    ensures passes { PassesRun (T.part t.old) at most result.0 result.1 result.2 }
    ensures kept { t.new ≡ t.old }
    ensures cost { steps.new ≤ steps.old + 2 }
    ensures counted { steps.old < steps.new }
    ensures bytes { (T.part t.old).storage ≡ Utf8 → steps.new ≡ steps.old + 1 }
{
    match t.encoding() {
        Encoding::Utf8 => pass_bytes(t, at, most, steps),
        Encoding::Utf16 => pass_units(t, at, most, steps),
    }
}

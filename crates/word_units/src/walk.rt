ghost use Rattle.std.specs.Prelude.{◌≡◌, ◌+◌, ◌/◌, ◌<◌, ◌≤◌, slice_index};
ghost use Rattle.std.specs.Char.{len_utf8};
ghost use Rattle.text_spec.specs.declared.encoding.Encoding.TheVariants.{Utf8};
ghost use Rattle.text_spec.specs.Views.{other_width, size_in};
ghost use Rattle.text_spec.specs.Boundaries.{IsScalarBoundary};
ghost use Rattle.word_units.specs.Walking.{Passes};
ghost use Rattle.word_units.specs.Parts.{storage_size, IsBoundaryIn};

use crate::packing::{byte_in, units_of_width, width_of_lead};
use crate::scalar::scalar_at;
use crate::steps::Steps;
use crate::text::Text;
use std::sync::ledger::Ledger;
use text_spec::{Encoding, scalar_len16};

/// How many code units a scalar takes in the encoding that isn't this one.
fn other_len(encoding: Encoding, scalar: char) -> u32
    ensures { result ≡ other_width encoding scalar }
{
    match encoding {
        Encoding::Utf8 => scalar_len16(scalar),
        Encoding::Utf16 => scalar.len_utf8() as u32,
    }
}

/// Where the scalar that begins at `at` ends, and how many code units of the other encoding it takes: 1 to 4.
///
/// `at` is a scalar boundary of the storage below its end, in code units. One or two words are read.
pub fn pass_scalar<T: Text, L: Ledger>(t: &mut T, at: u64, steps: &mut Steps<L>) -> (u64, u64)
    requires inside { at < storage_size (T.part t.old) }
    requires boundary { IsBoundaryIn (T.part t.old) at }
    ensures passes { Passes (T.part t.old) at result.0 result.1 }
    ensures kept { t.new ≡ t.old }
    ensures cost { steps.new ≤ steps.old + 2 }
    ensures counted { steps.old < steps.new }
{
    let _count = t.count();
    let encoding = t.encoding();
    let (scalar, width) = scalar_at(t, at, steps);
    (at + width as u64, other_len(encoding, scalar) as u64)
}

/// Where the scalar that begins at byte `at` ends, and how many units of UTF-16 it takes: 1 or 2.
///
/// The storage is UTF-8, `at` is a scalar boundary of it below its end, and `word` is the content word that holds byte `at`. That byte
/// tells both (The Unicode Standard, table 3-6), so no word is read.
pub fn pass_lead<T: Text>(t: &T, word: u64, at: u64) -> (u64, u64)
    requires encoding { (T.part t.now).storage ≡ Utf8 }
    requires inside { at < size_in Utf8 (T.part t.now).whole }
    requires boundary { IsScalarBoundary len_utf8 (T.part t.now).whole at }
    requires here { word ≡ slice_index (T.words t.now) (at / 8) }
    ensures passes { Passes (T.part t.now) at result.0 result.1 }
    ensures few { at + result.1 ≤ result.0 }
{
    let _count = t.count();
    let width = width_of_lead(byte_in(word, at)) as u64;
    (at + width, units_of_width(width))
}

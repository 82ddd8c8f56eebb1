//! UTF-16 units that a value keeps, read as the text that they spell: a surrogate without its other half reads as U+FFFD.
ghost use Rattle.std.specs.Prelude.{◌≡◌, ◌+◌, ◌*◌, ◌<◌, ◌≤◌, ◌↔◌, IsTrue, IfOk, IsUtf8, length, slice_index, slice_range};
ghost use Rattle.std.specs.Char.{len_utf8};
ghost use Rattle.std.specs.Char.Utf16.{lone_unit_char};
ghost use Rattle.std.specs.Option.{unwrap_or};
ghost use Rattle.text_spec.specs.Packed.{IsPair};
ghost use Rattle.text_spec.specs.Text.{utf8, repair};
ghost use Rattle.object_words.specs.Rows as rows;

use crate::lengths::Lengths;
use std::alloc::Global;
use text_spec::OutOfMemory;
use word_units::unit_or_zero;

// How many bytes U+FFFD takes in UTF-8, which is also what every unit from 0x800 on takes that is in no pair.
const LONG_UNIT_BYTES: u64 = 3;

// Whether two units are the two halves of a surrogate pair (the Unicode Standard, section 3.8).
fn is_pair(unit: u16, next: u16) -> bool
    ensures { IsTrue result ↔ IsPair unit next }
{
    unit >= 0xD800 && unit < 0xDC00 && next >= 0xDC00 && next < 0xE000
}

// How many bytes the scalar of a unit takes that is in no pair.
fn unit_bytes(unit: u16) -> u64
    ensures value { result ≡ len_utf8 (unwrap_or (lone_unit_char unit) 0xFFFD) }
    ensures few { result ≤ 3 }
{
    if unit < 0x80 {
        1
    } else if unit < 0x800 {
        2
    } else {
        LONG_UNIT_BYTES
    }
}

// How many bytes the scalar takes that begins at unit `at`, and how many units.
fn scalar_widths(units: &[u16], at: usize) -> (u64, usize)
    requires { at < length units.now }
    ensures pair { IsPair (slice_index units.now at) (slice_index units.now (at + 1)) → (result.0 ≡ 4) × (result.1 ≡ 2) }
    ensures alone { ¬ IsPair (slice_index units.now at) (slice_index units.now (at + 1))
        → (result.0 ≡ len_utf8 (unwrap_or (lone_unit_char (slice_index units.now at)) 0xFFFD)) × (result.1 ≡ 1) }
    ensures some { 1 ≤ result.1 }
    ensures few { result.0 ≤ 3 * result.1 }
{
    if is_pair(units[at], unit_or_zero(units, at + 1)) {
        return (4, 2);
    }
    (unit_bytes(units[at]), 1)
}

/// The lengths of the text that `units` spell, in one pass over them.
pub(crate) fn lengths_of_units(units: &[u16]) -> Lengths
    ensures scalars { result.scalars ≡ length (repair units.now) }
    ensures utf16 { result.utf16 ≡ length units.now }
    ensures utf8 { result.utf8 ≡ length (utf8 (repair units.now)) }
{
    let mut at = 0;
    let mut scalars: u64 = 0;
    let mut bytes: u64 = 0;
    'units: while at < units.len() {
        let (more, width) = scalar_widths(units, at);
        scalars += 1;
        bytes += more;
        at += width;
    }
    Lengths {
        scalars,
        utf16: units.len() as u64,
        utf8: bytes,
    }
}

/// Whether all units are ASCII.
pub(crate) fn are_ascii(units: &[u16]) -> bool
    ensures { result ≡ rows.is_ascii units.now }
{
    for unit in units {
        if *unit >= 0x80 {
            return false;
        }
    }
    true
}

/// How many bytes of UTF-8 the text takes that the units from place `low` to before place `high` spell, in one pass over them.
pub(crate) fn length_between(units: &[u16], low: usize, high: usize) -> u64
    requires order { low ≤ high }
    requires inside { high ≤ length units.now }
    ensures { result ≡ length (utf8 (repair (slice_range units.now low high))) }
{
    lengths_of_units(&units[low..high]).utf8
}

/// The UTF-8 of the text that the units from place `low` to before place `high` spell.
pub(crate) fn text_between(
    alloc: Global,
    units: &[u16],
    low: usize,
    high: usize,
) -> Result<Vec<u8>, OutOfMemory>
    requires order { low ≤ high }
    requires inside { high ≤ length units.now }
    ensures value { IfOk result (λ v. v.items ≡ utf8 (repair (slice_range units.now low high))) }
    ensures utf8 { IfOk result (λ v. IsUtf8 v.items) }
{
    let text = String::from_utf16_lossy(alloc, &units[low..high])?;
    Ok(text.into_bytes())
}

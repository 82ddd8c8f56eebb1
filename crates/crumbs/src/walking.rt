//! Questions about UTF-16 offsets, answered by a walk from a breadcrumb.
ghost use Rattle.std.specs.Prelude.{◌≡◌, ℕ, ◌+◌, ◌*◌, ◌/◌, ◌^◌, ◌<◌, ◌≤◌, true, IfOk, IfErr};
ghost use Rattle.std.specs.Char.{len_utf8};
ghost use Rattle.text_spec.specs.declared.encoding.Encoding.TheVariants.{Utf8};
ghost use Rattle.index_words.specs.Crumbs.{size16, index16};
ghost use Rattle.text_spec.specs.Offsets.{len_utf16};
ghost use Rattle.text_spec.specs.Rounding.{other_floor, other_offset};
ghost use Rattle.text_spec.specs.Views.{size_in};
ghost use Rattle.index_words.specs.Fields.{position_of};
ghost use Rattle.rounding.specs.Resolving.{index_place};
ghost use Rattle.crumbs.specs.Searching.{IsLastCrumb, words_to_unit, words_to_byte};

use crate::asking::{for_offset, near};
use crate::crumb::{index_of_crumb, length16};
use crate::scanning::{Limit, scalar_over};
use index_words::Index;
use std::sync::ledger::Ledger;
use word_units::{OutOfBounds, Steps, Text};

/// The index of a UTF-16 offset of a text whose breadcrumbs are known.
///
/// Refused exactly where the offset is above the text's length in UTF-16 units, with the offset, 0 and that length. The length is read,
/// the breadcrumb before the offset and, unless it stands there, once each word in which a scalar begins from that breadcrumb to the
/// offset: at most two words more than the stride.
pub fn index_of_offset<T: Text, L: Ledger>(
    t: &mut T,
    offset: u64,
    steps: &mut Steps<L>,
) -> Result<Index, OutOfBounds>
    requires known { T.knows_crumbs t.old ≡ true }
    requires some { 1 ≤ T.STRIDE }
    ensures index { IfOk result (λ i. (offset ≤ size16 (T.part t.old).whole) × (i ≡ index16 (T.part t.old).whole offset)) }
    ensures refused { IfErr result (λ out. (size16 (T.part t.old).whole < offset)
        × (out ≡ record { position = offset; low = 0; high = size16 (T.part t.old).whole })) }
    ensures kept { t.new ≡ t.old }
    ensures cost { IfOk result (λ i. steps.new ≡ steps.old + words_to_unit (T.part t.old).whole T.STRIDE offset) }
    ensures few { IfOk result (λ i. steps.new ≤ steps.old + T.STRIDE + 2) }
    ensures short { IfErr result (λ out. steps.new ≡ steps.old + 1) }
{
    // Where breadcrumbs are known the storage is UTF-8, and the count bounds each sum.
    let _known = t.crumbs_known();
    let _count = t.count();
    let high = length16(t, steps);
    if offset > high {
        return Err(OutOfBounds {
            position: offset,
            low: 0,
            high,
        });
    }
    let stride = t.stride() as u64;
    let begun = offset / stride * stride;
    let crumb = for_offset(t, offset, steps);
    if begun == offset {
        return Ok(crumb);
    }
    // A breadcrumb on the second half of a pair: its scalar begins a unit before it.
    let past = u64::from(crumb.transcoded());
    let scalar = scalar_over(
        t,
        crumb.position(),
        begun - past,
        Limit::Unit(offset),
        steps,
    );
    Ok(index_of_crumb(scalar.begins, offset - scalar.units))
}

/// The UTF-16 offset of the unit that an index is rounded down to, of a text whose breadcrumbs are known.
///
/// `i` is read in bytes, and its position is at most the text's length. The length and the last breadcrumb not after the index are read,
/// a word for each time that the breadcrumbs are halved to find it, and once each word in which a scalar begins from that
/// breadcrumb to the position: at most the stride.
pub fn offset_of_index<T: Text, L: Ledger>(t: &mut T, i: Index, steps: &mut Steps<L>) -> u64
    requires known { T.knows_crumbs t.old ≡ true }
    requires some { 1 ≤ T.STRIDE }
    requires inside { position_of i ≤ size_in Utf8 (T.part t.old).whole }
    ensures offset { result ≡ other_offset len_utf8 len_utf16 (T.part t.old).whole 0
        (other_floor len_utf8 len_utf16 (T.part t.old).whole (size_in Utf8 (T.part t.old).whole) (index_place i)) }
    ensures kept { t.new ≡ t.old }
    ensures cost { (m crumb digits : ℕ) → IsLastCrumb (T.part t.old).whole T.STRIDE i m crumb → size16 (T.part t.old).whole / T.STRIDE < 2 ^ digits
        → steps.new ≤ steps.old + words_to_byte (T.part t.old).whole m (position_of i) + 2 + digits }
    ensures counted { (m crumb digits : ℕ) → IsLastCrumb (T.part t.old).whole T.STRIDE i m crumb → 2 ^ digits ≤ size16 (T.part t.old).whole / T.STRIDE + 1
        → steps.old + words_to_byte (T.part t.old).whole m (position_of i) + 2 + digits ≤ steps.new }
    ensures few { (digits : ℕ) → size16 (T.part t.old).whole / T.STRIDE < 2 ^ digits → steps.new ≤ steps.old + T.STRIDE + 2 + digits }
{
    let _known = t.crumbs_known();
    let _count = t.count();
    let (unit, crumb) = near(t, i, steps);
    let past = u64::from(crumb.transcoded());
    let position = i.position();
    let scalar = scalar_over(
        t,
        crumb.position(),
        unit - past,
        Limit::Byte(position),
        steps,
    );
    let passed = u64::from(i.transcoded());
    if scalar.begins == position && passed < scalar.takes {
        return scalar.units + passed;
    }
    scalar.units
}

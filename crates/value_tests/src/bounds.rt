//! Places of a value's storage between its scalars, and the bytes between them.
ghost use Rattle.std.specs.Prelude.{◌≡◌, ◌≤◌, IfOk, IfSome, IsUtf8};
ghost use Rattle.word_units.specs.Parts.{IsBoundaryIn};
ghost use Rattle.str_value.specs.Meaning.{own_part};

use std::alloc::Global;
use std::marker::Brand;
use std::sync::ledger::{Blank, Ledger};
use str_value::Str;
use text_spec::OutOfMemory;
use word_units::{Steps, Text, boundary_at_or_before};

fn bounds_with<L: Ledger>(value: &mut Str, low: u64, high: u64, blank: Blank) -> Option<(u64, u64)>
    requires name { blank.name ≡ L.name }
    requires parts { blank.parts ≡ L.parts }
    requires one { blank.parts ≡ 1 }
    ensures kept { value.new ≡ value.old }
    ensures low { IfSome result (λ b. IsBoundaryIn (own_part value.old) b.0) }
    ensures high { IfSome result (λ b. IsBoundaryIn (own_part value.old) b.1) }
    ensures order { IfSome result (λ b. b.0 ≤ b.1) }
{
    let mut steps = Steps::<L>::from_blank(blank);
    if low > high || high > value.count() {
        return None;
    }
    let from = boundary_at_or_before(value, low, &mut steps);
    let to = boundary_at_or_before(value, high, &mut steps);
    if from > to {
        return None;
    }
    Some((from, to))
}

/// The scalar boundaries at or before two code units of the storage, where these are two places of it in this order.
pub(crate) fn bounds(value: &mut Str, low: u64, high: u64) -> Option<(u64, u64)>
    ensures kept { value.new ≡ value.old }
    ensures low { IfSome result (λ b. IsBoundaryIn (own_part value.old) b.0) }
    ensures high { IfSome result (λ b. IsBoundaryIn (own_part value.old) b.1) }
    ensures order { IfSome result (λ b. b.0 ≤ b.1) }
{
    bounds_with::<Brand>(value, low, high, Blank::new(1))
}

/// The UTF-8 of a whole value, by one copy, and its length without one.
pub(crate) fn whole(alloc: Global, value: &mut Str) -> Result<Option<(Vec<u8>, u64)>, OutOfMemory>
    ensures kept { value.new ≡ value.old }
    ensures utf8 { IfOk result (λ o. IfSome o (λ t. IsUtf8 t.0.items)) }
{
    let end = value.count();
    let Some((low, high)) = bounds(value, 0, end) else {
        return Ok(None);
    };
    let length = value.utf8_length(low, high);
    let bytes = value.copy_utf8(alloc, low, high)?;
    Ok(Some((bytes, length)))
}

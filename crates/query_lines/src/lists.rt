//! JSON lists of bytes, of code units, and of two numbers or two names.

ghost use Rattle.std.specs.Prelude.{◌≡◌, Err, IfOk, None, Some, option_map};
ghost use Rattle.serde_json.specs.Find.{as_array};
ghost use Rattle.serde_json.specs.View.{items_view, view};
ghost use Rattle.query_lines.specs.Objects.{each_item, list_in, name_in, number_below, number_in, pair_in, two_items};
ghost use Rattle.query_lines.specs.WellFormed.{IsName};

use crate::fault::Fault;
use crate::values::{name_of, number_of};
use crate::{Bytes, Units};
use serde_json::Value;
use std::alloc::Global;

fn byte_of(value: &Value) -> Result<u8, Fault>
    ensures ok { IfOk result (λ n. number_below 256 (view value.now) ≡ Some n) }
    ensures shape { result ≡ Err Fault.Shape → number_below 256 (view value.now) ≡ None }
{
    let number = number_of(value)?;
    if number < 256 {
        Ok(number as u8)
    } else {
        Err(Fault::Shape)
    }
}

fn unit_of(value: &Value) -> Result<u16, Fault>
    ensures ok { IfOk result (λ n. number_below 65536 (view value.now) ≡ Some n) }
    ensures shape { result ≡ Err Fault.Shape → number_below 65536 (view value.now) ≡ None }
{
    let number = number_of(value)?;
    if number < 65536 {
        Ok(number as u16)
    } else {
        Err(Fault::Shape)
    }
}

fn each_byte(alloc: Global, items: &[Value]) -> Result<Vec<u8>, Fault>
    ensures ok { IfOk result (λ v. each_item (number_below 256) (items_view items.now) ≡ Some v.items) }
    ensures shape { result ≡ Err Fault.Shape → each_item (number_below 256) (items_view items.now) ≡ None }
{
    let mut bytes = Vec::with_capacity(alloc, items.len())?;
    for item in items {
        bytes.push(byte_of(item)?)?;
    }
    Ok(bytes)
}

fn each_unit(alloc: Global, items: &[Value]) -> Result<Vec<u16>, Fault>
    ensures ok { IfOk result (λ v. each_item (number_below 65536) (items_view items.now) ≡ Some v.items) }
    ensures shape { result ≡ Err Fault.Shape → each_item (number_below 65536) (items_view items.now) ≡ None }
{
    let mut units = Vec::with_capacity(alloc, items.len())?;
    for item in items {
        units.push(unit_of(item)?)?;
    }
    Ok(units)
}

fn items_of(value: &Value) -> Result<&[Value], Fault>
    ensures ok { IfOk result (λ v. as_array (view value.now) ≡ Some (items_view v.now)) }
    ensures shape { result ≡ Err Fault.Shape → as_array (view value.now) ≡ None }
{
    match value.as_array() {
        Some(items) => Ok(items.as_slice()),
        None => Err(Fault::Shape),
    }
}

/// A list of numbers from 0 to 255.
pub fn bytes_of(alloc: Global, value: &Value) -> Result<Bytes, Fault>
    ensures ok { IfOk result (λ bytes. list_in (number_below 256) (view value.now) ≡ Some bytes) }
    ensures shape { result ≡ Err Fault.Shape → list_in (number_below 256) (view value.now) ≡ None }
{
    Ok(Bytes::new(each_byte(alloc, items_of(value)?)?))
}

/// A list of numbers from 0 to 65535.
pub fn units_of(alloc: Global, value: &Value) -> Result<Units, Fault>
    ensures ok { IfOk result (λ units. list_in (number_below 65536) (view value.now) ≡ Some units) }
    ensures shape { result ≡ Err Fault.Shape → list_in (number_below 65536) (view value.now) ≡ None }
{
    Ok(Units::new(each_unit(alloc, items_of(value)?)?))
}

fn two_of(items: &[Value]) -> Option<(&Value, &Value)>
    ensures { option_map (λ p. (view p.0.now, view p.1.now)) result
        ≡ two_items (items_view items.now) }
{
    if items.len() != 2 {
        return None;
    }
    Some((&items[0], &items[1]))
}

/// A list of two numbers.
pub fn range_of(value: &Value) -> Result<(u64, u64), Fault>
    ensures ok { IfOk result (λ range. pair_in number_in (view value.now) ≡ Some range) }
    ensures shape { result ≡ Err Fault.Shape → pair_in number_in (view value.now) ≡ None }
{
    match two_of(items_of(value)?) {
        Some((a, b)) => Ok((number_of(a)?, number_of(b)?)),
        None => Err(Fault::Shape),
    }
}

/// A list of two names.
pub fn names_of(alloc: Global, value: &Value) -> Result<(Bytes, Bytes), Fault>
    ensures ok { IfOk result (λ names. pair_in name_in (view value.now) ≡ Some names) }
    ensures shape { result ≡ Err Fault.Shape → pair_in name_in (view value.now) ≡ None }
    ensures well_formed { IfOk result (λ names. IsName names.0 × IsName names.1) }
{
    match two_of(items_of(value)?) {
        Some((a, b)) => Ok((name_of(alloc, a)?, name_of(alloc, b)?)),
        None => Err(Fault::Shape),
    }
}

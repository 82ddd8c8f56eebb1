//! JSON values read as objects, lists, texts, names and numbers.

ghost use Rattle.std.specs.Prelude.{◌≡◌, Err, IfOk, IsUtf8, None, Some, option_map};
ghost use Rattle.serde_json.specs.Find.{as_array, as_object, as_str, get_member};
ghost use Rattle.serde_json.specs.View.{items_view, members_view, view};
ghost use Rattle.query_lines.specs.Objects.{has_key, key_count, name_in, number_in, under};
ghost use Rattle.query_lines.specs.WellFormed.{IsName};

use crate::Bytes;
use crate::fault::Fault;
use serde_json::{Map, Value};
use std::alloc::Global;

/// The members of an object, each key once.
pub type Members = Map<String, Value>;

/// The members of an object, moved out.
pub fn into_object(value: Value) -> Result<Members, Fault>
    ensures ok { IfOk result (λ m. as_object (view value) ≡ Some (members_view m.entries)) }
    ensures shape { result ≡ Err Fault.Shape → as_object (view value) ≡ None }
{
    match value {
        Value::Object(members) => Ok(members),
        _ => Err(Fault::Shape),
    }
}

/// The items of a list, moved out.
pub fn into_list(value: Value) -> Result<Vec<Value>, Fault>
    ensures ok { IfOk result (λ v. as_array (view value) ≡ Some (items_view v.items)) }
    ensures shape { result ≡ Err Fault.Shape → as_array (view value) ≡ None }
{
    match value {
        Value::Array(items) => Ok(items),
        _ => Err(Fault::Shape),
    }
}

/// The bytes of a string, which are moved and not copied.
pub fn into_text(value: Value) -> Result<Bytes, Fault>
    ensures ok { IfOk result (λ s. as_str (view value) ≡ Some s) }
    ensures shape { result ≡ Err Fault.Shape → as_str (view value) ≡ None }
    ensures well_formed { IfOk result IsUtf8 }
{
    match value {
        Value::String(text) => Ok(Bytes::new(text.into_bytes())),
        _ => Err(Fault::Shape),
    }
}

/// How many keys an object has.
pub fn keys(members: &Members) -> usize
    ensures { result ≡ key_count (members_view members.now.entries) }
{
    members.len()
}

/// The value under the key.
pub fn find<'m>(members: &'m Members, key: &str) -> Option<&'m Value>
    ensures { option_map (λ v. view v.now) result
        ≡ get_member key.now (members_view members.now.entries) }
{
    members.get(key)
}

/// The value under the key, which must be there.
pub fn under<'m>(members: &'m Members, key: &str) -> Result<&'m Value, Fault>
    ensures ok { IfOk result (λ v. get_member key.now (members_view members.now.entries)
        ≡ Some (view v.now)) }
    ensures shape { result ≡ Err Fault.Shape
        → get_member key.now (members_view members.now.entries) ≡ None }
{
    find(members, key).ok_or(Fault::Shape)
}

/// Whether the object has the key.
pub fn has(members: &Members, key: &str) -> bool
    ensures { result ≡ has_key key.now (members_view members.now.entries) }
{
    find(members, key).is_some()
}

/// The value under the key, moved out of the object.
pub fn take(members: Members, key: &str) -> Option<Value>
    ensures { option_map view result ≡ get_member key.now (members_view members.entries) }
{
    let mut members = members;
    members.remove(key)
}

/// A name of 1 to 64 bytes.
pub fn name_of(alloc: Global, value: &Value) -> Result<Bytes, Fault>
    ensures ok { IfOk result (λ name. name_in (view value.now) ≡ Some name) }
    ensures shape { result ≡ Err Fault.Shape → name_in (view value.now) ≡ None }
    ensures well_formed { IfOk result IsName }
{
    let text = value.as_str().ok_or(Fault::Shape)?;
    if text.is_empty() || text.len() > 64 {
        return Err(Fault::Shape);
    }
    Ok(Bytes::new(text.as_bytes().to_vec(alloc)?))
}

/// The name of 1 to 64 bytes under the key.
pub fn name_under(alloc: Global, members: &Members, key: &str) -> Result<Bytes, Fault>
    ensures ok { IfOk result (λ name. under name_in key.now (members_view members.now.entries)
        ≡ Some name) }
    ensures shape { result ≡ Err Fault.Shape
        → under name_in key.now (members_view members.now.entries) ≡ None }
    ensures well_formed { IfOk result IsName }
{
    name_of(alloc, under(members, key)?)
}

/// A whole number below 2^64, written without point, exponent or sign.
pub fn number_of(value: &Value) -> Result<u64, Fault>
    ensures ok { IfOk result (λ n. number_in (view value.now) ≡ Some n) }
    ensures shape { result ≡ Err Fault.Shape → number_in (view value.now) ≡ None }
{
    value.as_u64().ok_or(Fault::Shape)
}

/// The whole number below 2^64 under the key.
pub fn number_under(members: &Members, key: &str) -> Result<u64, Fault>
    ensures ok { IfOk result (λ n. under number_in key.now (members_view members.now.entries)
        ≡ Some n) }
    ensures shape { result ≡ Err Fault.Shape
        → under number_in key.now (members_view members.now.entries) ≡ None }
{
    number_of(under(members, key)?)
}

//! JSON values read as ops.

ghost use Rattle.std.specs.Prelude.{◌≡◌, All, Err, IfOk, None, Some};
ghost use Rattle.serde_json.specs.View.{items_view, members_view, view};
ghost use Rattle.query_lines.specs.Objects.{each_item, list_in};
ghost use Rattle.query_lines.specs.Ops.{edit_in, one_key_op, op_in, slice_in, utf8_in, view_in, view_named, whole_in};
ghost use Rattle.query_lines.specs.WellFormed.{IsWellFormedOp};

use crate::fault::Fault;
use crate::lists::range_of;
use crate::values::{
    Members, find, has, into_list, into_object, into_text, keys, number_under, take, under,
};
use crate::{Op, Ops, View};
use serde_json::Value;
use std::alloc::Global;

fn view_named(name: &str) -> Option<View>
    ensures { result ≡ view_named name.now }
{
    match name {
        "scalars" => Some(View::Scalars),
        "utf8" => Some(View::Utf8),
        "utf16" => Some(View::Utf16),
        "characters" => Some(View::Characters),
        _ => None,
    }
}

fn view_of(value: &Value) -> Result<View, Fault>
    ensures ok { IfOk result (λ v. view_in (view value.now) ≡ Some v) }
    ensures shape { result ≡ Err Fault.Shape → view_in (view value.now) ≡ None }
{
    let name = value.as_str().ok_or(Fault::Shape)?;
    view_named(name).ok_or(Fault::Shape)
}

/// An object whose one key is `utf8`, over a number.
fn utf8_of(value: &Value) -> Result<u64, Fault>
    ensures ok { IfOk result (λ n. utf8_in (view value.now) ≡ Some n) }
    ensures shape { result ≡ Err Fault.Shape → utf8_in (view value.now) ≡ None }
{
    let members = value.as_object().ok_or(Fault::Shape)?;
    if keys(members) != 1 {
        return Err(Fault::Shape);
    }
    number_under(members, "utf8")
}

fn whole_of(value: &Value) -> Result<Op, Fault>
    ensures ok { IfOk result (λ op. whole_in (view value.now) ≡ Some op) }
    ensures shape { result ≡ Err Fault.Shape → whole_in (view value.now) ≡ None }
    ensures well_formed { IfOk result IsWellFormedOp }
{
    match value.as_bool() {
        Some(true) => Ok(Op::All),
        _ => Err(Fault::Shape),
    }
}

fn slice_of(value: &Value) -> Result<Op, Fault>
    ensures ok { IfOk result (λ op. slice_in (view value.now) ≡ Some op) }
    ensures shape { result ≡ Err Fault.Shape → slice_in (view value.now) ≡ None }
    ensures well_formed { IfOk result IsWellFormedOp }
{
    let (a, b) = range_of(value)?;
    Ok(Op::Slice(a, b))
}

fn one_key_op(members: &Members) -> Result<Op, Fault>
    ensures ok { IfOk result (λ op. one_key_op (members_view members.now.entries) ≡ Some op) }
    ensures shape { result ≡ Err Fault.Shape → one_key_op (members_view members.now.entries) ≡ None }
    ensures well_formed { IfOk result IsWellFormedOp }
{
    if has(members, "at") {
        Ok(Op::At(number_under(members, "at")?))
    } else if has(members, "place") {
        Ok(Op::Place(utf8_of(under(members, "place")?)?))
    } else if has(members, "slice") {
        slice_of(under(members, "slice")?)
    } else if has(members, "count") {
        Ok(Op::Count(view_of(under(members, "count")?)?))
    } else {
        whole_of(under(members, "text")?)
    }
}

fn edit_of(members: Members) -> Result<Op, Fault>
    ensures ok { IfOk result (λ op. edit_in (members_view members.entries) ≡ Some op) }
    ensures shape { result ≡ Err Fault.Shape → edit_in (members_view members.entries) ≡ None }
    ensures well_formed { IfOk result IsWellFormedOp }
{
    let (a, b) = range_of(under(&members, "edit")?)?;
    let with = into_text(take(members, "with").ok_or(Fault::Shape)?)?;
    Ok(Op::Edit { a, b, with })
}

/// One op.
pub fn op_of(value: Value) -> Result<Op, Fault>
    ensures ok { IfOk result (λ op. op_in (view value) ≡ Some op) }
    ensures shape { result ≡ Err Fault.Shape → op_in (view value) ≡ None }
    ensures well_formed { IfOk result IsWellFormedOp }
{
    let members = into_object(value)?;
    match keys(&members) {
        1 => one_key_op(&members),
        2 => edit_of(members),
        _ => Err(Fault::Shape),
    }
}

fn each_op(alloc: Global, items: Vec<Value>) -> Result<Vec<Op>, Fault>
    ensures ok { IfOk result (λ v. each_item op_in (items_view items.items) ≡ Some v.items) }
    ensures shape { result ≡ Err Fault.Shape → each_item op_in (items_view items.items) ≡ None }
    ensures well_formed { IfOk result (λ v. All IsWellFormedOp v.items) }
{
    let mut ops = Vec::with_capacity(alloc, items.len())?;
    for item in items {
        ops.push(op_of(item)?)?;
    }
    Ok(ops)
}

/// A list of ops.
pub fn ops_of(alloc: Global, value: Value) -> Result<Ops, Fault>
    ensures ok { IfOk result (λ ops. list_in op_in (view value) ≡ Some ops) }
    ensures shape { result ≡ Err Fault.Shape → list_in op_in (view value) ≡ None }
    ensures well_formed { IfOk result (All IsWellFormedOp) }
{
    Ok(Ops::new(each_op(alloc, into_list(value)?)?))
}

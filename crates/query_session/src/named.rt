//! The commands on names: a text is copied to another name, a name is dropped, the texts of two names are compared.
ghost use Rattle.std.specs.Prelude.{◌≡◌, false, IfOk, IsOk, OnErr, IsTrue, string_bytes};
ghost use Rattle.std.specs.Str.{bytes_eq};
ghost use Rattle.query_lines.specs.WellFormed.{IsName};
ghost use Rattle.query_lines.specs.Replies.{IsShown};
ghost use Rattle.query_lines.specs.declared.command.Command.{Command};
ghost use Rattle.query_session.specs.Reply.{IsRefused, copy_reply, drop_reply, compare_reply};
ghost use Rattle.query_session.specs.State.{text_of, is_in_use};
ghost use Rattle.query_session.specs.State as state;
ghost use Rattle.query_session.specs.Steps.{Stepped};
ghost use Rattle.query_session.specs.Values.{IsSound, texts_of};

use crate::names::Names;
use crate::stored::store_value;
use crate::words::{has_room, no_name, string_of};
use query_lines::{Bytes, Refusal, Reply};
use std::alloc::Global;
use str_value::StrPass;
use text_spec::OutOfMemory;

// Gives a name the text of another one. A name keeps the value that it has where it is both.
pub(crate) fn copy<'h>(
    pass: &mut StrPass<'h>,
    names: &mut Names<'h>,
    alloc: Global,
    to: Bytes,
    source: Bytes,
) -> Result<Reply, OutOfMemory>
    requires to { IsName to }
    requires source { IsName source }
    requires sound { IsSound names.old pass.old }
    ensures reply { IfOk result (λ r. (r, texts_of names.new) ≡ copy_reply (texts_of names.old) to source (text_of (texts_of names.old) source)) }
    ensures itself_is_free { to ≡ source → IsOk result }
    ensures refused_is_free { OnErr result (¬ (IsRefused (copy_reply (texts_of names.old) to source (text_of (texts_of names.old) source)).0)) }
    ensures shown { IfOk result IsShown }
    ensures kept { OnErr result (texts_of names.new ≡ texts_of names.old) }
    ensures stepped { IfOk result (λ r. Stepped r (Command.Copy to source) names.old pass.old names.new pass.new) }
    ensures one_heap { pass.new.heap ≡ pass.old.heap }
{
    let to = string_of(to);
    let source = string_of(source);
    if !names.has(source.as_str()) {
        return Ok(no_name(source));
    }
    if !has_room(names, to.as_str()) {
        return Ok(Reply::Refused(Refusal::TooManyNames));
    }
    if to.as_str() == source.as_str() {
        return Ok(Reply::Copied);
    }
    copy_apart(pass, names, alloc, to, source.as_str())
}

// The same where all is there, and the names differ.
fn copy_apart<'h>(
    pass: &mut StrPass<'h>,
    names: &mut Names<'h>,
    alloc: Global,
    to: String,
    source: &str,
) -> Result<Reply, OutOfMemory>
    requires source { IsTrue (is_in_use (texts_of names.old) source.now) }
    requires room { IsTrue (state.has_room (texts_of names.old) (string_bytes to)) }
    requires apart { bytes_eq (string_bytes to) source.now ≡ false }
    requires sound { IsSound names.old pass.old }
    ensures reply { IfOk result (λ r. (r, texts_of names.new) ≡ copy_reply (texts_of names.old) (string_bytes to) source.now (text_of (texts_of names.old) source.now)) }
    ensures shown { IfOk result IsShown }
    ensures kept { OnErr result (texts_of names.new ≡ texts_of names.old) }
    ensures stepped { IfOk result (λ r. Stepped r (Command.Copy (string_bytes to) source.now) names.old pass.old names.new pass.new) }
    ensures one_heap { pass.new.heap ≡ pass.old.heap }
{
    let value = names.copy(pass, alloc, source)?;
    store_value(pass, names, to, value)?;
    Ok(Reply::Copied)
}

// Drops a name and releases its value. No memory.
pub(crate) fn drop_name<'h>(pass: &mut StrPass<'h>, names: &mut Names<'h>, name: Bytes) -> Reply
    requires name { IsName name }
    requires sound { IsSound names.old pass.old }
    ensures reply { (result, texts_of names.new) ≡ drop_reply (texts_of names.old) name }
    ensures shown { IsShown result }
    ensures stepped { Stepped result (Command.Drop name) names.old pass.old names.new pass.new }
    ensures one_heap { pass.new.heap ≡ pass.old.heap }
{
    let name = string_of(name);
    match names.take(name.as_str()) {
        Some(value) => {
            value.release(pass);
            Reply::Dropped
        }
        None => no_name(name),
    }
}

// Compares the texts of two names.
pub(crate) fn compare<'h>(
    pass: &mut StrPass<'h>,
    names: &mut Names<'h>,
    alloc: Global,
    a: Bytes,
    b: Bytes,
) -> Result<Reply, OutOfMemory>
    requires first { IsName a }
    requires second { IsName b }
    requires sound { IsSound names.old pass.old }
    ensures reply { IfOk result (λ r. r ≡ compare_reply a b (text_of (texts_of names.old) a) (text_of (texts_of names.old) b)) }
    ensures refused_is_free { OnErr result (¬ (IsRefused (compare_reply a b (text_of (texts_of names.old) a) (text_of (texts_of names.old) b)))) }
    ensures shown { IfOk result IsShown }
    ensures kept { names.new ≡ names.old }
    ensures pass { pass.new ≡ pass.old }
    ensures stepped { IfOk result (λ r. Stepped r (Command.Compare a b) names.old pass.old names.new pass.new) }
{
    let a = string_of(a);
    let b = string_of(b);
    if !names.has(a.as_str()) {
        return Ok(no_name(a));
    }
    if !names.has(b.as_str()) {
        return Ok(no_name(b));
    }
    let order = names.compare(pass, alloc, a.as_str(), b.as_str())?;
    Ok(Reply::Order(order))
}

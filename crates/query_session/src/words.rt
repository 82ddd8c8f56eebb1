//! What the commands share: a name as a text, whether there is room for it, and what a name that isn't in use is answered.
ghost use Rattle.std.specs.Prelude.{◌≡◌, string_bytes, IsUtf8, IfSome};
ghost use Rattle.std.specs.Option.{option_map};
ghost use Rattle.query_lines.specs.Replies.{IsShown};
ghost use Rattle.query_session.specs.State as state;
ghost use Rattle.query_session.specs.Values.{texts_of};

use crate::names::Names;
use query_lines::{Bytes, Refusal, Reply};
use std::str::from_utf8;

/// How many names may be in use.
pub(crate) const MAX_NAMES: usize = 256;

pub(crate) fn no_name(name: String) -> Reply
    ensures reply { result ≡ Reply.Refused (Refusal.NoName (string_bytes name)) }
    ensures shown { IsShown result }
{
    Reply::Refused(Refusal::NoName(Bytes::new(name.into_bytes())))
}

// Whether a text may be stored under the name.
pub(crate) fn has_room(names: &Names, name: &str) -> bool
    ensures { result ≡ state.has_room (texts_of names.now) name.now }
{
    names.has(name) || names.count() < MAX_NAMES
}

// A name as a text. No memory.
pub(crate) fn string_of(name: Bytes) -> String
    requires { IsUtf8 name }
    ensures { string_bytes result ≡ name }
{
    match String::from_utf8(name.into_vec()) {
        Ok(text) => text,
        Err(_) => unreachable!(),
    }
}

// The same of a name that may be left out.
pub(crate) fn string_or_none(name: Option<Bytes>) -> Option<String>
    requires { IfSome name IsUtf8 }
    ensures { option_map string_bytes result ≡ name }
{
    match name {
        Some(name) => Some(string_of(name)),
        None => None,
    }
}

// A name as a text, where it stands.
pub(crate) fn str_of(name: &Bytes) -> &str
    requires { IsUtf8 name.now }
    ensures { result.now ≡ name.now }
{
    match from_utf8(name.as_slice()) {
        Ok(text) => text,
        Err(_) => unreachable!(),
    }
}

//! The command `load`: a text is stored under a name.
ghost use Rattle.std.specs.Prelude.{◌≡◌, ◌≤◌, length, chars, string_bytes, IfOk, OnErr, IsTrue};
ghost use Rattle.text_spec.specs.Text.{utf8, repair};
ghost use Rattle.query_lines.specs.WellFormed.{IsWellFormedContent, IsName, IsShortText, text_limit};
ghost use Rattle.query_lines.specs.Replies.{IsShown};
ghost use Rattle.query_session.specs.Literals.{default_literals};
ghost use Rattle.query_session.specs.Reply.{IsRefused, reply_to, load_reply, load_bytes_reply, load_literal_reply, counts_of};
ghost use Rattle.str_value.specs.Meaning.{OfHeap};
ghost use Rattle.query_session.specs.State.{has_room};
ghost use Rattle.query_session.specs.Steps.{Stepped, IsLoading};
ghost use Rattle.query_session.specs.Values.{IsSound, texts_of};

use crate::names::Names;
use crate::stored::store_value;
use crate::words::{has_room, string_of};
use query_lines::{Bytes, Command, Content, Refusal, Reply, Units};
use simdutf8::compat::from_utf8;
use str_value::{Str, StrPass};
use text_spec::OutOfMemory;

// Stores what a content gives under a name, unless it is refused.
pub(crate) fn load<'h>(
    pass: &mut StrPass<'h>,
    names: &mut Names<'h>,
    name: Bytes,
    what: Content,
) -> Result<Reply, OutOfMemory>
    requires name { IsName name }
    requires what { IsWellFormedContent what }
    requires literals { pass.old.heap.literals ≡ default_literals }
    requires sound { IsSound names.old pass.old }
    ensures reply { IfOk result (λ r. (r, texts_of names.new) ≡ reply_to (texts_of names.old) (Command.Load name what)) }
    ensures refused_is_free { OnErr result (¬ (IsRefused (reply_to (texts_of names.old) (Command.Load name what)).0)) }
    ensures shown { IfOk result IsShown }
    ensures kept { OnErr result (texts_of names.new ≡ texts_of names.old) }
    ensures stepped { IfOk result (λ r. Stepped r (Command.Load name what) names.old pass.old names.new pass.new) }
    ensures one_heap { pass.new.heap ≡ pass.old.heap }
{
    match what {
        Content::Text(text) => load_text(pass, names, name, text),
        Content::Units(units) => load_units(pass, names, name, units),
        Content::Raw(bytes) => load_bytes(pass, names, name, bytes),
        Content::Literal(number) => load_literal(pass, names, name, number),
    }
}

// Stores a text under a name, unless it would be one name too many. Memory is taken for the name alone.
fn load_text<'h>(
    pass: &mut StrPass<'h>,
    names: &mut Names<'h>,
    name: Bytes,
    text: Bytes,
) -> Result<Reply, OutOfMemory>
    requires name { IsName name }
    requires text { IsShortText text }
    requires sound { IsSound names.old pass.old }
    ensures reply { IfOk result (λ r. (r, texts_of names.new) ≡ load_reply (texts_of names.old) name (chars text)) }
    ensures refused_is_free { OnErr result (¬ (IsRefused (load_reply (texts_of names.old) name (chars text)).0)) }
    ensures shown { IfOk result IsShown }
    ensures kept { OnErr result (texts_of names.new ≡ texts_of names.old) }
    ensures stepped { IfOk result (λ r. Stepped r (Command.Load name (Content.Text text)) names.old pass.old names.new pass.new) }
    ensures one_heap { pass.new.heap ≡ pass.old.heap }
{
    let name = string_of(name);
    if !has_room(names, name.as_str()) {
        return Ok(Reply::Refused(Refusal::TooManyNames));
    }
    let value = Str::from_vec(pass, text.into_vec());
    store_loaded(pass, names, name, value)
}

// The same for a text that UTF-16 units spell.
fn load_units<'h>(
    pass: &mut StrPass<'h>,
    names: &mut Names<'h>,
    name: Bytes,
    units: Units,
) -> Result<Reply, OutOfMemory>
    requires name { IsName name }
    requires units { length (utf8 (repair units)) ≤ text_limit }
    requires sound { IsSound names.old pass.old }
    ensures reply { IfOk result (λ r. (r, texts_of names.new) ≡ load_reply (texts_of names.old) name (repair units)) }
    ensures refused_is_free { OnErr result (¬ (IsRefused (load_reply (texts_of names.old) name (repair units)).0)) }
    ensures shown { IfOk result IsShown }
    ensures kept { OnErr result (texts_of names.new ≡ texts_of names.old) }
    ensures stepped { IfOk result (λ r. Stepped r (Command.Load name (Content.Units units)) names.old pass.old names.new pass.new) }
    ensures one_heap { pass.new.heap ≡ pass.old.heap }
{
    let name = string_of(name);
    if !has_room(names, name.as_str()) {
        return Ok(Reply::Refused(Refusal::TooManyNames));
    }
    let value = Str::from_units(pass, units.into_vec());
    store_loaded(pass, names, name, value)
}

// The same for bytes that may not be UTF-8.
fn load_bytes<'h>(
    pass: &mut StrPass<'h>,
    names: &mut Names<'h>,
    name: Bytes,
    bytes: Bytes,
) -> Result<Reply, OutOfMemory>
    requires name { IsName name }
    requires bytes { length bytes ≤ text_limit }
    requires sound { IsSound names.old pass.old }
    ensures reply { IfOk result (λ r. (r, texts_of names.new) ≡ load_bytes_reply (texts_of names.old) name bytes) }
    ensures refused_is_free { OnErr result (¬ (IsRefused (load_bytes_reply (texts_of names.old) name bytes).0)) }
    ensures shown { IfOk result IsShown }
    ensures kept { OnErr result (texts_of names.new ≡ texts_of names.old) }
    ensures stepped { IfOk result (λ r. Stepped r (Command.Load name (Content.Raw bytes)) names.old pass.old names.new pass.new) }
    ensures one_heap { pass.new.heap ≡ pass.old.heap }
{
    if let Err(fault) = from_utf8(bytes.as_slice()) {
        return Ok(Reply::Refused(Refusal::NotUtf8 {
            valid: fault.valid_up_to() as u64,
        }));
    }
    load_text(pass, names, name, bytes)
}

// The same for a literal of the heap. Memory is taken for the name alone.
fn load_literal<'h>(
    pass: &mut StrPass<'h>,
    names: &mut Names<'h>,
    name: Bytes,
    number: u64,
) -> Result<Reply, OutOfMemory>
    requires name { IsName name }
    requires literals { pass.old.heap.literals ≡ default_literals }
    requires sound { IsSound names.old pass.old }
    ensures reply { IfOk result (λ r. (r, texts_of names.new) ≡ load_literal_reply (texts_of names.old) name number) }
    ensures refused_is_free { OnErr result (¬ (IsRefused (load_literal_reply (texts_of names.old) name number).0)) }
    ensures shown { IfOk result IsShown }
    ensures kept { OnErr result (texts_of names.new ≡ texts_of names.old) }
    ensures stepped { IfOk result (λ r. Stepped r (Command.Load name (Content.Literal number)) names.old pass.old names.new pass.new) }
    ensures one_heap { pass.new.heap ≡ pass.old.heap }
{
    let Some(value) = Str::literal(pass, number) else {
        return Ok(Reply::Refused(Refusal::NoLiteral));
    };
    let name = string_of(name);
    if !has_room(names, name.as_str()) {
        return Ok(Reply::Refused(Refusal::TooManyNames));
    }
    store_loaded(pass, names, name, value)
}

// Stores a value that was just made. It is counted first, while it is at hand.
fn store_loaded<'h>(
    pass: &mut StrPass<'h>,
    names: &mut Names<'h>,
    name: String,
    mut value: Str<'h>,
) -> Result<Reply, OutOfMemory>
    requires room { IsTrue (has_room (texts_of names.old) (string_bytes name)) }
    requires sound { IsSound names.old pass.old }
    requires heap { OfHeap pass.old value.place }
    ensures reply { IfOk result (λ r. (r, texts_of names.new) ≡ load_reply (texts_of names.old) (string_bytes name) value.entry.text) }
    ensures shown { IfOk result IsShown }
    ensures kept { OnErr result (names.new ≡ names.old) }
    ensures one_heap { pass.new.heap ≡ pass.old.heap }

    // From the pass that the value was made by.
    ensures stepped { IfOk result (λ r. IsLoading r (string_bytes name) value.entry names.old pass.old names.new pass.new) }
{
    let counts = counts_of(&mut value);
    store_value(pass, names, name, value)?;
    Ok(counts)
}

// The three counts of a value's text.
fn counts_of(value: &mut Str) -> Reply
    ensures reply { result ≡ counts_of value.old.text }
    ensures shown { IsShown result }
    ensures kept { value.new ≡ value.old }
{
    let lengths = value.lengths();
    Reply::Counts {
        scalars: lengths.scalars,
        utf16: lengths.utf16,
        utf8: lengths.utf8,
    }
}

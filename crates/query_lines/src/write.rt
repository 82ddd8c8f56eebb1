//! Replies written as JSON text.

ghost use Rattle.std.specs.Prelude.{◌≡◌, ◌++◌, All, IfOk, OnOk, codes, false};
ghost use Rattle.query_lines.specs.Replies.{IsShown, IsShownOp, IsShownRefusal, counts_text, lengths_text, op_replies_text, op_reply_text, order_text, refusal_text, reply_text, separated, bounds_front};

use crate::pieces::{
    put, put_comma, put_field, put_last_number, put_last_text, put_number_or_null,
};
use crate::{OpReplies, OpReply, Refusal, Reply, View};
use std::alloc::Global;
use std::cmp::Ordering;
use text_spec::OutOfMemory;

fn put_lengths(out: &mut Vec<u8>, utf16: u64, utf8: u64) -> Result<(), OutOfMemory>
    ensures { OnOk result (out.new.items ≡ out.old.items ++ lengths_text utf16 utf8) }
{
    put_field(out, ",\"utf16\":", utf16)?;
    put_last_number(out, ",\"utf8\":", utf8)
}

fn put_counts(out: &mut Vec<u8>, scalars: u64, utf16: u64, utf8: u64) -> Result<(), OutOfMemory>
    ensures { OnOk result (out.new.items ≡ out.old.items ++ counts_text scalars utf16 utf8) }
{
    put_field(out, "{\"scalars\":", scalars)?;
    put_lengths(out, utf16, utf8)
}

fn put_place(
    out: &mut Vec<u8>,
    utf16: u64,
    utf8: u64,
    value: Option<u32>,
) -> Result<(), OutOfMemory>
    ensures { OnOk result (out.new.items ≡ out.old.items ++ op_reply_text (OpReply.Place utf16 utf8 value)) }
{
    put_field(out, "{\"utf16\":", utf16)?;
    put_field(out, ",\"utf8\":", utf8)?;
    put(out, ",\"value\":")?;
    put_number_or_null(out, value)?;
    put(out, "}")
}

fn bounds_front(unit: View) -> &'static str
    ensures { result.now ≡ bounds_front unit }
{
    match unit {
        View::Scalars => "{\"error\":\"out of bounds\",\"scalars\":",
        View::Utf8 => "{\"error\":\"out of bounds\",\"utf8\":",
        View::Utf16 => "{\"error\":\"out of bounds\",\"utf16\":",
        View::Characters => "{\"error\":\"out of bounds\",\"characters\":",
    }
}

fn put_op_reply(alloc: Global, out: &mut Vec<u8>, reply: &OpReply) -> Result<(), OutOfMemory>
    requires { IsShownOp reply.now }
    ensures { OnOk result (out.new.items ≡ out.old.items ++ op_reply_text reply.now) }
{
    match reply {
        OpReply::Place { utf16, utf8, value } => put_place(out, *utf16, *utf8, *value),
        OpReply::Text(text) => put_last_text(alloc, out, "{\"text\":", text.as_slice()),
        OpReply::Counts {
            scalars,
            utf16,
            utf8,
        } => put_counts(out, *scalars, *utf16, *utf8),
        OpReply::Number(n) => put_last_number(out, "{\"count\":", *n),
        OpReply::OutOfBounds { unit, length } => {
            put_last_number(out, bounds_front(*unit), *length)
        }
        OpReply::TooLong => put(out, "{\"error\":\"too long\"}"),
    }
}

/// A list of answers.
fn put_op_replies(alloc: Global, out: &mut Vec<u8>, replies: &[OpReply]) -> Result<(), OutOfMemory>
    requires { All IsShownOp replies.now }
    ensures { OnOk result (out.new.items ≡ out.old.items ++ op_replies_text replies.now) }
{
    put(out, "[")?;
    let mut later = false;
    for reply in replies {
        put_comma(out, later)?;
        put_op_reply(alloc, out, reply)?;
        later = true;
    }
    put(out, "]")
}

fn put_results(alloc: Global, out: &mut Vec<u8>, replies: &[OpReply]) -> Result<(), OutOfMemory>
    requires { All IsShownOp replies.now }
    ensures { OnOk result (out.new.items ≡ out.old.items ++ (codes "{\"results\":" ++ (op_replies_text replies.now ++ codes "}"))) }
{
    put(out, "{\"results\":")?;
    put_op_replies(alloc, out, replies)?;
    put(out, "}")
}

fn put_jobs(alloc: Global, out: &mut Vec<u8>, jobs: &[OpReplies]) -> Result<(), OutOfMemory>
    requires { All (All IsShownOp) jobs.now }
    ensures { OnOk result (out.new.items ≡ out.old.items ++ (codes "{\"jobs\":[" ++ (separated op_replies_text false jobs.now ++ codes "]}"))) }
{
    put(out, "{\"jobs\":[")?;
    let mut later = false;
    for replies in jobs {
        put_comma(out, later)?;
        put_op_replies(alloc, out, replies.as_slice())?;
        later = true;
    }
    put(out, "]}")
}

fn order_of(order: Ordering) -> &'static str
    ensures { result.now ≡ order_text order }
{
    match order {
        Ordering::Less => "{\"order\":\"less\"}",
        Ordering::Equal => "{\"order\":\"equal\"}",
        Ordering::Greater => "{\"order\":\"greater\"}",
    }
}

fn put_refusal(alloc: Global, out: &mut Vec<u8>, refusal: &Refusal) -> Result<(), OutOfMemory>
    requires { IsShownRefusal refusal.now }
    ensures { OnOk result (out.new.items ≡ out.old.items ++ refusal_text refusal.now) }
{
    match refusal {
        Refusal::Syntax => put(out, "{\"error\":\"syntax\"}"),
        Refusal::NoName(name) => {
            put_last_text(
                alloc,
                out,
                "{\"error\":\"no name\",\"name\":",
                name.as_slice(),
            )
        },
        Refusal::NoLiteral => put(out, "{\"error\":\"no literal\"}"),
        Refusal::NotUtf8 { valid } => {
            put_last_number(out, "{\"error\":\"not utf-8\",\"valid\":", *valid)
        },
        Refusal::TooManyNames => put(out, "{\"error\":\"too many names\"}"),
    }
}

/// Puts the text of a reply behind the bytes that are there: compact JSON with keys in byte order, without the newline.
///
/// The bytes of each text and name in it are UTF-8, and each length that it tells is in UTF-8 bytes or UTF-16 units. Text past
/// ASCII is written as it is. Refused where memory is wanting, and a part of the text may stand there then. Nothing is copied but
/// the reply's own texts; time is linear in the text.
pub fn append_reply(alloc: Global, out: &mut Vec<u8>, reply: &Reply) -> Result<(), OutOfMemory>
    requires { IsShown reply.now }
    ensures exact { OnOk result (out.new.items ≡ out.old.items ++ reply_text reply.now) }
{
    match reply {
        Reply::Counts {
            scalars,
            utf16,
            utf8,
        } => put_counts(out, *scalars, *utf16, *utf8),
        Reply::Copied => put(out, "{\"ok\":\"copy\"}"),
        Reply::Dropped => put(out, "{\"ok\":\"drop\"}"),
        Reply::Order(order) => put(out, order_of(*order)),
        Reply::Results(replies) => put_results(alloc, out, replies.as_slice()),
        Reply::Jobs(jobs) => put_jobs(alloc, out, jobs.as_slice()),
        Reply::Refused(refusal) => put_refusal(alloc, out, refusal),
    }
}

/// The text of a reply, as `append_reply` writes it, in a vector of its own.
pub fn reply_text(alloc: Global, reply: &Reply) -> Result<Vec<u8>, OutOfMemory>
    requires { IsShown reply.now }
    ensures exact { IfOk result (λ bytes. bytes.items ≡ reply_text reply.now) }
{
    let mut out = Vec::new(alloc);
    append_reply(alloc, &mut out, reply)?;
    Ok(out)
}

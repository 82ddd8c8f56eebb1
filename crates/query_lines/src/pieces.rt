//! Pieces of JSON text, put at the end of a growing reply.

ghost use Rattle.std.specs.Prelude.{◌≡◌, ◌++◌, [], IfOk, IsUtf8, OnOk, codes, decimal, if◌then◌else◌};
ghost use Rattle.json.specs.Print.{quoted};
ghost use Rattle.query_lines.specs.Replies.{number_or_null};

use json::Writer;
use std::alloc::Global;
use std::mem;
use text_spec::OutOfMemory;

/// Text that stands as it is.
pub fn put(out: &mut Vec<u8>, text: &str) -> Result<(), OutOfMemory>
    ensures { OnOk result (out.new.items ≡ out.old.items ++ text.now) }
{
    out.extend_from_slice(text.as_bytes())?;
    Ok(())
}

/// A number in decimal.
pub fn put_number(out: &mut Vec<u8>, n: u64) -> Result<(), OutOfMemory>
    ensures { OnOk result (out.new.items ≡ out.old.items ++ decimal n) }
{
    let mut buffer = itoa::Buffer::new();
    put(out, buffer.format(n))
}

/// A number in decimal, or `null`.
pub fn put_number_or_null(out: &mut Vec<u8>, value: Option<u32>) -> Result<(), OutOfMemory>
    ensures { OnOk result (out.new.items ≡ out.old.items ++ number_or_null value) }
{
    match value {
        Some(n) => put_number(out, n as u64),
        None => put(out, "null"),
    }
}

/// The text before a number, and the number.
pub fn put_field(out: &mut Vec<u8>, front: &str, n: u64) -> Result<(), OutOfMemory>
    ensures { OnOk result (out.new.items ≡ out.old.items ++ (front.now ++ decimal n)) }
{
    put(out, front)?;
    put_number(out, n)
}

/// The text before the last number of an object, the number, and the end of the object.
pub fn put_last_number(out: &mut Vec<u8>, front: &str, n: u64) -> Result<(), OutOfMemory>
    ensures { OnOk result (out.new.items
        ≡ out.old.items ++ (front.now ++ (decimal n ++ codes "}"))) }
{
    put_field(out, front, n)?;
    put(out, "}")
}

fn with_quoted(held: Vec<u8>, text: &str) -> Result<Vec<u8>, OutOfMemory>
    ensures { IfOk result (λ v. v.items ≡ held.items ++ quoted text.now) }
{
    let mut writer = Writer::new(held);
    writer.string(text)?;
    Ok(writer.into_inner())
}

/// A text as a JSON string. It is written where it stays, with no copy on the way.
pub fn put_quoted(alloc: Global, out: &mut Vec<u8>, text: &[u8]) -> Result<(), OutOfMemory>
    requires { IsUtf8 text.now }
    ensures { OnOk result (out.new.items ≡ out.old.items ++ quoted text.now) }
{
    match std::str::from_utf8(text) {
        Ok(text) => {
            let held = mem::replace(out, Vec::new(alloc));
            *out = with_quoted(held, text)?;
            Ok(())
        }
        Err(_) => unreachable!(),
    }
}

/// The text before the last string of an object, the string, and the end of the object.
pub fn put_last_text(
    alloc: Global,
    out: &mut Vec<u8>,
    front: &str,
    text: &[u8],
) -> Result<(), OutOfMemory>
    requires { IsUtf8 text.now }
    ensures { OnOk result (out.new.items
        ≡ out.old.items ++ (front.now ++ (quoted text.now ++ codes "}"))) }
{
    put(out, front)?;
    put_quoted(alloc, out, text)?;
    put(out, "}")
}

/// A comma, where another member stands before.
pub fn put_comma(out: &mut Vec<u8>, later: bool) -> Result<(), OutOfMemory>
    ensures { OnOk result (out.new.items
        ≡ out.old.items ++ (if later then codes "," else [])) }
{
    if later {
        return put(out, ",");
    }
    Ok(())
}

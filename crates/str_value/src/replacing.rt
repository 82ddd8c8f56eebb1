//! Bytes of a vector replaced in place.
ghost use Rattle.std.specs.Prelude.{◌≡◌, ◌+◌, ◌-◌, ◌<◌, ◌≤◌, ◌++◌, length, take, drop, vec_len, OnOk, OnErr};
ghost use Rattle.std.specs.List.{splice};

use std::alloc::AllocError;

/// Puts `with` in place of the bytes from place `low` to before place `high`.
///
/// What lies behind is moved once, and copied nowhere else. Memory is taken only where `with` is longer than what it replaces, and
/// where it is wanting the bytes are as they were.
pub(crate) fn replace_between(
    bytes: &mut Vec<u8>,
    low: usize,
    high: usize,
    with: &[u8],
) -> Result<(), AllocError>
    requires order { low ≤ high }
    requires inside { high ≤ vec_len bytes.old }
    ensures items { OnOk result (bytes.new.items ≡ splice bytes.old.items low high with.now) }
    ensures kept { OnErr result (bytes.new.items ≡ bytes.old.items) }
    ensures longer { OnErr result (high - low < length with.now) }
{
    let room = high - low;
    if with.len() <= room {
        write_at(bytes, low, with);
        remove_between(bytes, low + with.len(), high);
        return Ok(());
    }
    // First what may fail.
    insert_at(bytes, high, &with[room..])?;
    write_at(bytes, low, &with[..room]);
    Ok(())
}

// Writes bytes over those from place `at` on.
fn write_at(bytes: &mut Vec<u8>, at: usize, with: &[u8])
    requires { at + length with.now ≤ vec_len bytes.old }
    ensures { bytes.new.items ≡ splice bytes.old.items at (at + length with.now) with.now }
{
    bytes[at..at + with.len()].copy_from_slice(with);
}

// Puts bytes before place `at`.
fn insert_at(bytes: &mut Vec<u8>, at: usize, more: &[u8]) -> Result<(), AllocError>
    requires { at ≤ vec_len bytes.old }
    ensures items { OnOk result (bytes.new.items ≡ splice bytes.old.items at at more.now) }
    ensures kept { OnErr result (bytes.new.items ≡ bytes.old.items) }
{
    bytes.extend_from_slice(more)?;
    bytes[at..].rotate_right(more.len());
    Ok(())
}

// Takes out the bytes from place `low` to before place `high`.
fn remove_between(bytes: &mut Vec<u8>, low: usize, high: usize)
    requires order { low ≤ high }
    requires inside { high ≤ vec_len bytes.old }
    ensures { bytes.new.items ≡ take low bytes.old.items ++ drop high bytes.old.items }
{
    let left = bytes.len() - (high - low);
    bytes[low..].rotate_left(high - low);
    bytes.truncate(left);
}

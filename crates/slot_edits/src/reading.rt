//! The bytes of a slot's text, and of the text that an edit makes of it, read from the slot's words.
ghost use Rattle.std.specs.Prelude.{◌≡◌, ◌*◌, ◌^◌, ◌<◌, length, slice_index};
ghost use Rattle.slot_edits.specs.Words.{content_bytes, HoldsAt};
ghost use Rattle.slot_edits.specs.Parts.{Fits, IsPart, spliced};

use crate::packing::{byte_in, first_bytes, joined};
use crate::part::Part;
use slot_model::Attach;
use slot_table::Ref;
use word_units::byte_word;

/// Content word `k`, with zeros behind the last of the first `count` bytes.
pub(crate) fn word_of<'h, A: Attach>(reference: &mut Ref<'h, A>, count: u64, k: u64) -> u64
    requires room { Fits count (length reference.old.known) }
    requires few { length reference.old.known < 2 ^ 32 }
    ensures kept { reference.new ≡ reference.old }
    ensures word { HoldsAt (content_bytes reference.old.known count) (8 * k) result }
{
    if k >= (count + 7) / 8 {
        return 0;
    }
    let word = reference.read((k + 1) as u32);
    let left = count - 8 * k;
    if left >= 8 {
        word
    } else {
        first_bytes(word, left)
    }
}

/// The eight bytes from place `p` on, with zeros behind the last.
fn word_at<'h, A: Attach>(reference: &mut Ref<'h, A>, count: u64, p: u64) -> u64
    requires room { Fits count (length reference.old.known) }
    requires few { length reference.old.known < 2 ^ 32 }
    requires place { p < 2 ^ 40 }
    ensures kept { reference.new ≡ reference.old }
    ensures word { HoldsAt (content_bytes reference.old.known count) p result }
{
    let near = word_of(reference, count, p / 8);
    if p % 8 == 0 {
        return near;
    }
    let far = word_of(reference, count, p / 8 + 1);
    joined(near, far, p % 8)
}

/// Byte `p`, or zero behind the last.
fn old_byte<'h, A: Attach>(reference: &mut Ref<'h, A>, count: u64, p: u64) -> u8
    requires room { Fits count (length reference.old.known) }
    requires few { length reference.old.known < 2 ^ 32 }
    ensures kept { reference.new ≡ reference.old }
    ensures byte { result ≡ slice_index (content_bytes reference.old.known count) p }
{
    if p >= count {
        return 0;
    }
    let word = reference.read((p / 8 + 1) as u32);
    byte_in(word, p)
}

/// Byte `p` of the new text, or zero behind the last.
fn new_byte<'h, A: Attach>(reference: &mut Ref<'h, A>, part: Part, with: &[u8], p: u64) -> u8
    requires part { IsPart reference.old.known part with.now }
    requires place { p < 2 ^ 40 }
    ensures kept { reference.new ≡ reference.old }
    ensures byte { result ≡ slice_index (spliced reference.old.known part with.now) p }
{
    let end = part.low + with.len() as u64;
    if p < part.low {
        old_byte(reference, part.count, p)
    } else if p < end {
        with[(p - part.low) as usize]
    } else {
        old_byte(reference, part.count, part.high + (p - end))
    }
}

/// Content word `k` of the new text, byte by byte.
fn mixed_word<'h, A: Attach>(reference: &mut Ref<'h, A>, part: Part, with: &[u8], k: u64) -> u64
    requires part { IsPart reference.old.known part with.now }
    requires place { k < 2 ^ 36 }
    ensures kept { reference.new ≡ reference.old }
    ensures word { HoldsAt (spliced reference.old.known part with.now) (8 * k) result }
{
    let mut block = [0u8; 8];
    for i in 0..8 {
        block[i] = new_byte(reference, part, with, 8 * k + i as u64);
    }
    u64::from_le_bytes(block)
}

/// Content word `k` of the new text, with zeros behind the last byte.
///
/// Where its bytes are all from behind the part it is made of two words, and of one where they stand evenly.
pub(crate) fn new_word<'h, A: Attach>(
    reference: &mut Ref<'h, A>,
    part: Part,
    with: &[u8],
    k: u64,
) -> u64
    requires part { IsPart reference.old.known part with.now }
    requires place { k < 2 ^ 36 }
    ensures kept { reference.new ≡ reference.old }
    ensures word { HoldsAt (spliced reference.old.known part with.now) (8 * k) result }
{
    let begin = 8 * k;
    let end = part.low + with.len() as u64;
    if begin >= end {
        return word_at(reference, part.count, part.high + (begin - end));
    }
    if begin >= part.low && begin + 8 <= end {
        return byte_word(&with[(begin - part.low) as usize..], 0);
    }
    mixed_word(reference, part, with, k)
}

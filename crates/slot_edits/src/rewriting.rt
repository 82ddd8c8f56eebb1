//! Content words of a slot written anew, each from words that are as they were.
ghost use Rattle.std.specs.Prelude.{◌≡◌, ◌+◌, ◌-◌, ◌*◌, ◌^◌, ◌<◌, ◌≤◌, ◌⊎◌, max, length, true};
ghost use Rattle.slot_edits.specs.Writes.{Wrote};
ghost use Rattle.slot_edits.specs.Words.{Rewrites};
ghost use Rattle.slot_edits.specs.Parts.{IsPart, spliced};

use crate::packing::joined;
use crate::part::Part;
use crate::reading::{new_word, word_of};
use slot_model::Attach;
use slot_table::Ref;

/// Writes content words `from` to before `to` of the new text, the first one first.
///
/// What they are made of stands at their own place or behind it, or before `from`.
fn mixed_upward<'h, A: Attach>(
    reference: &mut Ref<'h, A>,
    part: Part,
    with: &[u8],
    from: u64,
    to: u64,
)
    requires part { IsPart reference.old.known part with.now }
    requires bare { reference.old.bare ≡ true }
    requires order { from ≤ to }
    requires start { from + 1 ≤ length reference.old.known }
    requires room { (to < reference.old.heap.layout.capacity_words) × (to < 2 ^ 32 - 1) }
    requires ahead { (part.low + length with.now ≤ part.high) ⊎ (part.count ≤ 8 * from) }
    ensures rewrites { Rewrites reference.old.known (spliced reference.old.known part with.now) from to reference.new.known }
    ensures length { length reference.new.known ≡ max (length reference.old.known) (to + 1) }
    ensures wrote { Wrote (to - from) reference.old reference.new }
{
    for k in from..to {
        let word = new_word(reference, part, with, k);
        reference.write((k + 1) as u32, word);
    }
}

/// Writes content words `from` to before `to` of the new text, the last one first.
///
/// What they are made of stands at their own place or before it. All of these words are there already.
fn mixed_downward<'h, A: Attach>(
    reference: &mut Ref<'h, A>,
    part: Part,
    with: &[u8],
    from: u64,
    to: u64,
)
    requires part { IsPart reference.old.known part with.now }
    requires bare { reference.old.bare ≡ true }
    requires order { from ≤ to }
    requires start { to + 1 ≤ length reference.old.known }
    requires room { (to < reference.old.heap.layout.capacity_words) × (to < 2 ^ 32 - 1) }
    requires behind { part.high ≤ part.low + length with.now }
    ensures rewrites { Rewrites reference.old.known (spliced reference.old.known part with.now) from to reference.new.known }
    ensures length { length reference.new.known ≡ length reference.old.known }
    ensures wrote { Wrote (to - from) reference.old reference.new }
{
    let mut k = to;
    'words: while from < k {
        k -= 1;
        let word = new_word(reference, part, with, k);
        reference.write((k + 1) as u32, word);
    }
}

/// The same where all bytes of these words come from behind the part: each old word is read once.
fn move_upward<'h, A: Attach>(
    reference: &mut Ref<'h, A>,
    part: Part,
    with: &[u8],
    from: u64,
    to: u64,
)
    requires part { IsPart reference.old.known part with.now }
    requires bare { reference.old.bare ≡ true }
    requires order { from ≤ to }
    requires start { from + 1 ≤ length reference.old.known }
    requires room { (to < reference.old.heap.layout.capacity_words) × (to < 2 ^ 32 - 1) }
    requires ahead { (part.low + length with.now ≤ part.high) ⊎ (part.count ≤ 8 * from) }
    requires moved { part.low + length with.now ≤ 8 * from }
    ensures rewrites { Rewrites reference.old.known (spliced reference.old.known part with.now) from to reference.new.known }
    ensures length { length reference.new.known ≡ max (length reference.old.known) (to + 1) }
    ensures wrote { Wrote (to - from) reference.old reference.new }
{
    let end = part.low + with.len() as u64;
    let first = part.high + (8 * from - end);
    let mut near = word_of(reference, part.count, first / 8);
    for k in from..to {
        let far = word_of(reference, part.count, first / 8 + (k - from) + 1);
        let word = joined(near, far, first % 8);
        reference.write((k + 1) as u32, word);
        near = far;
    }
}

/// The same, the last word first.
fn move_downward<'h, A: Attach>(
    reference: &mut Ref<'h, A>,
    part: Part,
    with: &[u8],
    from: u64,
    to: u64,
)
    requires part { IsPart reference.old.known part with.now }
    requires bare { reference.old.bare ≡ true }
    requires order { from ≤ to }
    requires start { to + 1 ≤ length reference.old.known }
    requires room { (to < reference.old.heap.layout.capacity_words) × (to < 2 ^ 32 - 1) }
    requires behind { part.high ≤ part.low + length with.now }
    requires moved { part.low + length with.now ≤ 8 * from }
    ensures rewrites { Rewrites reference.old.known (spliced reference.old.known part with.now) from to reference.new.known }
    ensures length { length reference.new.known ≡ length reference.old.known }
    ensures wrote { Wrote (to - from) reference.old reference.new }
{
    let end = part.low + with.len() as u64;
    let first = part.high + (8 * from - end);
    let mut far = word_of(reference, part.count, first / 8 + (to - from));
    let mut k = to;
    'words: while from < k {
        k -= 1;
        let near = word_of(reference, part.count, first / 8 + (k - from));
        let word = joined(near, far, first % 8);
        reference.write((k + 1) as u32, word);
        far = near;
    }
}

/// The first content word from `from` to `to` of which all bytes come from behind the part.
pub(crate) fn first_moved(part: Part, with: &[u8], from: u64, to: u64) -> u64
    requires order { from ≤ to }
    requires small { (part.low < 2 ^ 36) × (length with.now < 2 ^ 36) }
    ensures within { (from ≤ result) × (result ≤ to) }
    ensures moved { result < to → part.low + length with.now ≤ 8 * result }
{
    let word = (part.low + with.len() as u64 + 7) / 8;
    if word < from {
        from
    } else if word > to {
        to
    } else {
        word
    }
}

/// Writes content words `from` to before `to` of the new text, the first one first.
///
/// What they are made of stands at their own place or behind it, or before `from`.
pub(crate) fn rewrite_upward<'h, A: Attach>(
    reference: &mut Ref<'h, A>,
    part: Part,
    with: &[u8],
    from: u64,
    to: u64,
)
    requires part { IsPart reference.old.known part with.now }
    requires bare { reference.old.bare ≡ true }
    requires order { from ≤ to }
    requires start { from + 1 ≤ length reference.old.known }
    requires room { (to < reference.old.heap.layout.capacity_words) × (to < 2 ^ 32 - 1) }
    requires ahead { (part.low + length with.now ≤ part.high) ⊎ (part.count ≤ 8 * from) }
    ensures rewrites { Rewrites reference.old.known (spliced reference.old.known part with.now) from to reference.new.known }
    ensures length { length reference.new.known ≡ max (length reference.old.known) (to + 1) }
    ensures wrote { Wrote (to - from) reference.old reference.new }
{
    let middle = first_moved(part, with, from, to);
    mixed_upward(reference, part, with, from, middle);
    if middle < to {
        move_upward(reference, part, with, middle, to);
    }
}

/// Writes content words `from` to before `to` of the new text, the last one first.
///
/// What they are made of stands at their own place or before it. All of these words are there already.
pub(crate) fn rewrite_downward<'h, A: Attach>(
    reference: &mut Ref<'h, A>,
    part: Part,
    with: &[u8],
    from: u64,
    to: u64,
)
    requires part { IsPart reference.old.known part with.now }
    requires bare { reference.old.bare ≡ true }
    requires order { from ≤ to }
    requires start { to + 1 ≤ length reference.old.known }
    requires room { (to < reference.old.heap.layout.capacity_words) × (to < 2 ^ 32 - 1) }
    requires behind { part.high ≤ part.low + length with.now }
    ensures rewrites { Rewrites reference.old.known (spliced reference.old.known part with.now) from to reference.new.known }
    ensures length { length reference.new.known ≡ length reference.old.known }
    ensures wrote { Wrote (to - from) reference.old reference.new }
{
    let middle = first_moved(part, with, from, to);
    if middle == to {
        mixed_downward(reference, part, with, from, to);
        return;
    }
    move_downward(reference, part, with, middle, to);
    mixed_downward(reference, part, with, from, middle);
}
